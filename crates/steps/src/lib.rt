// A step of a run's program: what is left after an L1 frame.
#![tactic(auto)]

use runs::State;

// The state after an L1 frame, whether it was sent or read, and how many bytes are written: to standard output if it was, to standard error if not.
// No Result: state and length stand in both cases, of which the clauses say the same, and `messages::write_step` takes the flag.
#[derive(Clone, Copy)]
pub struct Stepped {
    pub state: State,
    pub done: bool,
    pub length: usize,
}
