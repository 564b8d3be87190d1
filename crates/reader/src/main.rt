// reader MODE COUNT [on]: reads COUNT L1 frames, each PM, PX1, PX2, control, and writes for each what its reading returns: its reserved number, one byte; P1, in MP5
// and MP6 from the fourth on that of the one three earlier; PIDS; P2; and from the third on P3 and P4 of the one two earlier. With `on` it goes on after an L1 frame
// that is refused.
#![tactic(auto)]

use argument_words::Asked;
use programs::Streams;
use runs::State;

// Whether to go on: after what was read and written, or, with the word `on`, after a refusal, unless the input has ended.
fn goes_on(done: bool, good: bool, on: bool, whole: bool) -> bool {
    if done {
        return good;
    }
    on && whole
}

// Takes L1 frame `frame` from the input, reads it and writes what it returns. Answers the state after it, if the run goes on.
fn turn(
    rt: &impl Streams,
    on: bool,
    state: State,
    frame: u64,
    input: &mut [u8],
    memory3: &mut [u8],
    memory4: &mut [u8],
    delay: &mut [u8],
) -> Option<State> {
    let mut out = [0u8; 41313];
    let n = programs::read_full(rt, input);
    let whole = n == input.len();
    let step = reader_step::read_bytes(
        state,
        frame,
        &input[..n],
        &mut out,
        memory3,
        memory4,
        delay,
    );
    let next = step.state;
    let done = step.done;
    let length = step.length;
    let good = messages::write_step(rt, done, &out[..length]);
    goes_on(done, good, on, whole).then_some(next)
}

// Reads L1 frames till the run ends or `count` are read.
fn read_all(
    rt: &impl Streams,
    start: State,
    count: u64,
    on: bool,
    input: &mut [u8],
    memory3: &mut [u8],
    memory4: &mut [u8],
    delay: &mut [u8],
) {
    let mut state = start;
    for frame in 0..count {
        let turned = turn(rt, on, state, frame, input, memory3, memory4, delay);
        let Some(next) = turned else {
            return;
        };
        state = next;
    }
}

// Starts a reader, and reads.
fn begin(
    rt: &impl Streams,
    mode: u8,
    count: u64,
    on: bool,
    input: &mut [u8],
    memory3: &mut [u8],
    memory4: &mut [u8],
    delay: &mut [u8],
) {
    let started = calls::start_reader(mode, memory3, memory4, delay);
    let answer = started.answer;
    let state = started.state;
    if !causes::is_success(answer) {
        messages::refuse(rt, causes::number(answer), causes::place(answer), 0);
        return;
    }
    read_all(rt, state, count, on, input, memory3, memory4, delay);
}

// The buffers of a run, each of its length in this mode.
fn run(rt: &impl Streams, mode: u8, count: u64, on: bool) {
    let want = modes::reader_lengths(mode);
    let mut input = [0u8; 68608];
    let mut memory3 = [0u8; 27648];
    let mut memory4 = [0u8; 27648];
    let mut delay = [0u8; 27648];
    let a = programs::within(layout::frame_bytes(mode), &input);
    let b = programs::within(want[9], &memory3);
    let c = programs::within(want[10], &memory4);
    let d = programs::within(want[11], &delay);
    begin(
        rt,
        mode,
        count,
        on,
        &mut input[..a],
        &mut memory3[..b],
        &mut memory4[..c],
        &mut delay[..d],
    );
}

fn main(rt: HostRuntime) {
    let line = b"reader MODE COUNT [on]";
    // MODE and COUNT with 4,096 bytes each, `on`, and the bytes that end them.
    let mut words = [0u8; 8197];
    let n = programs::read_words(&rt, &mut words);
    if programs::gives_help(&rt, line, &words[..n]) {
        return;
    }
    match argument_words::reading(b"on\0", &words[..n]) {
        Some(
            Asked {
                mode,
                count,
                last,
                ..
            },
        ) => run(&rt, mode, count, last),
        None => programs::usage(&rt, line),
    }
}
