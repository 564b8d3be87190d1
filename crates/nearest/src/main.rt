// nearest BUDGET: reads lines of 200 cells, and prints for each the nearest PIDS frame in hexadecimal, its distance and its margin (document 02, S-12).
#![tactic(auto)]

use programs::Streams;

// Reads a line and writes what is printed for it. Answers whether to go on.
fn turn(rt: &impl Streams, budget: usize, number: u64) -> bool {
    let mut text = [0u8; 201];
    let Some(n) = standard_input::read_line(rt, &mut text) else {
        return false;
    };
    let mut out = [0u8; 92];
    let end = celltext::print_nearest(budget, number, &text[..n], &mut out);
    programs::write_out(rt, &out[..end])
}

// Goes through the lines, numbered from 1. A proved loop has to end, so it counts to a number that no run reaches.
fn answer_all(rt: &impl Streams, budget: usize) {
    for number in 1..281474976710656 {
        if !turn(rt, budget, number) {
            return;
        }
    }
}

// A budget that is refused is refused before anything is read: a search of unread cells tells.
fn run(rt: &impl Streams, budget: usize) {
    let cells = [2u8; 200];
    let mut frame = [0u8; 10];
    let tried = decoding::nearest(&cells, &mut frame, budget);
    let answer = tried.answer;
    if !causes::is_success(answer) {
        messages::refuse(rt, causes::number(answer), causes::place(answer), 0);
        return;
    }
    answer_all(rt, budget);
}

fn main(rt: HostRuntime) {
    let line = b"nearest BUDGET";
    // One word of 4,096 bytes, and the byte that ends it.
    let mut words = [0u8; 4097];
    let n = programs::read_words(&rt, &mut words);
    if programs::gives_help(&rt, line, &words[..n]) {
        return;
    }
    match argument_words::number(&words[..n]) {
        Some(budget) => run(&rt, budget as usize),
        None => programs::usage(&rt, line),
    }
}
