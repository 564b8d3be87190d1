// Document 01, "Operations of a run": states, and what a call gives beside the buffers.
ghost use Rattle.std.specs.Prelude.{◌≡◌, ◌+◌, min};
ghost use Rattle.runs.specs.Starting.{aged, fresh, next, valid};

use modes::{last_age, main_of};
use runs::{Answer, State};

// What a start or a sending returns.
#[derive(Clone, Copy)]
pub struct Outcome {
    pub answer: Answer,
    pub state: State,
}

// What a reading returns: also the L1 frame's reserved number, and 0 with any refusal.
#[derive(Clone, Copy)]
pub struct ReadOutcome {
    pub answer: Answer,
    pub state: State,
    pub reserved: u8,
}

// The state before the first L1 frame.
pub fn fresh_state(mode: u8) -> State
    ensures { result ≡ fresh mode }
{
    State {
        mode,
        half: 0,
        age: 0,
        reserved: 0,
    }
}

// Whether a state of this age can have this half.
fn is_aged(last: u8, half: u8, age: u8) -> bool
    ensures { result ≡ aged last half age }
{
    if age < last {
        return half == age % 2;
    }
    if age == last {
        return half < 2;
    }
    false
}

// Whether a state is valid.
pub fn is_valid(state: State) -> bool
    ensures { result ≡ valid state }
{
    if !control::is_covered(state.mode) {
        return false;
    }
    let last = last_age(main_of(state.mode));
    if !is_aged(last, state.half, state.age) {
        return false;
    }
    state.reserved < 8
}

fn next_age(last: u8, age: u8) -> u8
    ensures { result ≡ min last (age + 1) }
{
    if age < last {
        return age + 1;
    }
    last
}

// The state after one more L1 frame, of this number.
pub fn next_of(state: State, reserved: u8) -> State
    ensures { result ≡ next reserved state }
{
    let half = (state.half % 2 + 1) % 2;
    let last = last_age(main_of(state.mode));
    State {
        mode: state.mode,
        half,
        age: next_age(last, state.age),
        reserved,
    }
}
