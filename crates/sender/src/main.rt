// sender MODE COUNT [without P3|P4|P3 P4] [dump]: reads COUNT L1 frames, each its reserved number, one byte, and its transfer frames, P1, PIDS, P2, P3, P4, but not
// of a channel without data, and writes for each its PM, PX1, PX2 and control. With `dump` the header of a dump goes out before them (document 02, S-13).
#![tactic(auto)]

use argument_words::Asked;
use arguments::Sending;
use programs::Streams;
use runs::State;

// Reads L1 frame `frame`, sends it and writes it. Answers the state after it, if it went out.
fn turn(
    rt: &impl Streams,
    state: State,
    frame: u64,
    n3: usize,
    n4: usize,
    input: &mut [u8],
    memory3: &mut [u8],
    memory4: &mut [u8],
    delay: &mut [u8],
) -> Option<State> {
    let mut out = [0u8; 77824];
    let n = programs::read_full(rt, input);
    let step = sender_step::send_bytes(
        state,
        n3,
        n4,
        frame,
        &input[..n],
        &mut out,
        memory3,
        memory4,
        delay,
    );
    let next = step.state;
    let length = step.length;
    let good = messages::write_step(rt, step.done, &out[..length]);
    good.then_some(next)
}

// Sends L1 frames till one is refused, and answers whether `count` are sent.
fn send_all(
    rt: &impl Streams,
    start: State,
    count: u64,
    n3: usize,
    n4: usize,
    input: &mut [u8],
    memory3: &mut [u8],
    memory4: &mut [u8],
    delay: &mut [u8],
) -> bool {
    let mut state = start;
    for frame in 0..count {
        let turned = turn(rt, state, frame, n3, n4, input, memory3, memory4, delay);
        let Some(next) = turned else {
            return false;
        };
        state = next;
    }
    true
}

// Writes the header of a dump where one is wanted, and answers whether it went out. A count above 65,535 has none.
fn write_header(rt: &impl Streams, mode: u8, count: u64, dump: bool) -> bool {
    if !dump {
        return true;
    }
    if count > 65535 {
        return false;
    }
    programs::write_out(rt, &layout::header_of(mode, count as usize))
}

// Starts a sender, and sends. Answers whether `count` L1 frames are sent.
fn begin(
    rt: &impl Streams,
    mode: u8,
    count: u64,
    dump: bool,
    n3: usize,
    n4: usize,
    input: &mut [u8],
    memory3: &mut [u8],
    memory4: &mut [u8],
    delay: &mut [u8],
) -> bool {
    let started = calls::start_sender(mode, memory3, memory4, delay);
    let answer = started.answer;
    let state = started.state;
    if !causes::is_success(answer) {
        messages::refuse(rt, causes::number(answer), causes::place(answer), 0);
        return false;
    }
    if !write_header(rt, mode, count, dump) {
        return false;
    }
    send_all(rt, state, count, n3, n4, input, memory3, memory4, delay)
}

// The buffers of a run, each of its length in this mode.
fn run(rt: &impl Streams, sending: Sending, dump: bool) {
    let Sending {
        mode,
        count,
        n3,
        n4,
    } = sending;
    let want = modes::sender_lengths(mode);
    let mut input = [0u8; 27649];
    let mut memory3 = [0u8; 18432];
    let mut memory4 = [0u8; 18432];
    let mut delay = [0u8; 27648];
    let a = programs::within(run_input::frames_length(mode, n3, n4), &input);
    let b = programs::within(want[9], &memory3);
    let c = programs::within(want[10], &memory4);
    let d = programs::within(want[11], &delay);
    let good = begin(
        rt,
        mode,
        count,
        dump,
        n3,
        n4,
        &mut input[..a],
        &mut memory3[..b],
        &mut memory4[..c],
        &mut delay[..d],
    );
    messages::check_end(rt, good, count);
}

// What is to be sent, and whether a dump's header goes out before it. The L1 frames of a dump are 65,535 at most.
fn asked(words: &[u8]) -> Option<(Sending, bool)> {
    let Asked {
        mode,
        count,
        without3,
        without4,
        last: dump,
    } = argument_words::sending(b"dump\0", words)?;
    if dump && count > 65535 {
        return None;
    }
    let sending = arguments::sending_of(mode, count, without3, without4)?;
    Some((sending, dump))
}

fn main(rt: HostRuntime) {
    let line = b"sender MODE COUNT [without P3|P4|P3 P4] [dump]";
    // MODE and COUNT with 4,096 bytes each, `without`, `P3`, `P4` and `dump`, and the bytes that end them.
    let mut words = [0u8; 8213];
    let n = programs::read_words(&rt, &mut words);
    if programs::gives_help(&rt, line, &words[..n]) {
        return;
    }
    match asked(&words[..n]) {
        Some((sending, dump)) => run(&rt, sending, dump),
        None => programs::usage(&rt, line),
    }
}
