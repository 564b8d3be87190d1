// keys MODE COUNT N: reads COUNT L1 frames of N runs, N odd, each as `sender` reads it and the N of an L1 frame one after the other, and writes those of the
// run of their sums, which `sender` reads (document 02, S-14).
#![tactic(auto)]

use argument_words::Summed;
use programs::Streams;

// Reads the input of L1 frame `frame` of a run and adds it. Answers whether it was taken; if not, it says why.
fn take(rt: &impl Streams, run: u64, frame: u64, sum: &mut [u8], more: &mut [u8]) -> bool {
    let mut line = [0u8; 93];
    let n = programs::read_full(rt, more);
    match keys_step::add_input(run, frame, &more[..n], sum, &mut line) {
        Ok(()) => true,
        Err(length) => {
            programs::say(rt, &line[..length]);
            false
        }
    }
}

// Sums an L1 frame of n runs and writes it. Answers whether to go on.
fn turn(rt: &impl Streams, n: u64, frame: u64, sum: &mut [u8], more: &mut [u8]) -> bool {
    for run in 0..n {
        if !take(rt, run, frame, sum, more) {
            return false;
        }
    }
    programs::write_out(rt, sum)
}

// Sums L1 frames till one is refused, and answers whether `count` are written.
fn sum_all(rt: &impl Streams, n: u64, count: u64, sum: &mut [u8], more: &mut [u8]) -> bool {
    for frame in 0..count {
        if !turn(rt, n, frame, sum, more) {
            return false;
        }
    }
    true
}

// Whether a mode is covered: a start in it tells. One that is not is refused before anything is read.
fn covers(rt: &impl Streams, mode: u8) -> bool {
    let started = calls::start_sender(mode, &mut [0u8; 0], &mut [0u8; 0], &mut [0u8; 0]);
    let answer = started.answer;
    if matches!(answer, runs::Answer::ModeNotCovered) {
        messages::refuse(rt, 1, 0, 0);
        return false;
    }
    true
}

// The buffers of an L1 frame, of its length in this mode.
fn run(rt: &impl Streams, mode: u8, count: u64, n: u64) {
    if !covers(rt, mode) {
        return;
    }
    let want = modes::sender_lengths(mode);
    let wanted = run_input::frames_length(mode, want[3], want[4]);
    let mut sum = [0u8; 27649];
    let mut more = [0u8; 27649];
    let a = programs::within(wanted, &sum);
    let b = programs::within(wanted, &more);
    let good = sum_all(rt, n, count, &mut sum[..a], &mut more[..b]);
    messages::check_end(rt, good, count);
}

fn main(rt: HostRuntime) {
    let line =
        b"keys MODE COUNT N, N odd: the scrambling sequence and the fixed bits of the control stand in every run, and cancel in an even number of them";
    // Three words, 4,096 bytes for each and one for the byte that ends it.
    let mut words = [0u8; 12291];
    let n = programs::read_words(&rt, &mut words);
    if programs::gives_help(&rt, line, &words[..n]) {
        return;
    }
    match argument_words::summing(&words[..n]) {
        Some(Summed { mode, count, runs }) => run(&rt, mode, count, runs),
        None => programs::usage(&rt, line),
    }
}
