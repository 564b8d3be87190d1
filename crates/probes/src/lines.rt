// A line for each probe, on standard output: what was done, then the answer.
use layer1::Outcome;
use programs::Streams;
use runs::{Answer, State};

pub fn text(rt: &impl Streams, bytes: &[u8]) {
    let _ = rt.write(bytes);
}

pub fn count(rt: &impl Streams, n: usize) {
    let mut digits = [0u8; 20];
    let k = io::decimal(n as u64, &mut digits);
    text(rt, &digits[..k]);
}

pub fn small(rt: &impl Streams, n: u8) {
    count(rt, n as usize);
}

// The number and the place of an answer.
pub fn told(rt: &impl Streams, answer: Answer) {
    text(rt, b": ");
    small(rt, layer1::number(answer));
    text(rt, b" ");
    count(rt, layer1::place(answer));
}

// Four numbers: mode, half, age and the last number sent or read.
pub fn numbers(rt: &impl Streams, state: State) {
    text(rt, b" ");
    small(rt, state.mode);
    text(rt, b" ");
    small(rt, state.half);
    text(rt, b" ");
    small(rt, state.age);
    text(rt, b" ");
    small(rt, state.reserved);
}

// What a call returns: the answer, and the state.
pub fn given(rt: &impl Streams, outcome: Outcome) {
    let answer = outcome.answer;
    let state = outcome.state;
    told(rt, answer);
    text(rt, b", state");
    numbers(rt, state);
}

// Whether all lent bytes are as they were, and the end of the line.
pub fn kept(rt: &impl Streams, same: bool) {
    if same {
        text(rt, b", unchanged\n");
        return;
    }
    text(rt, b", changed\n");
}
