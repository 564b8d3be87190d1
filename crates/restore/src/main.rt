// restore: reads lines of 200 cells, and prints for each the PIDS frame that fits them in hexadecimal, where exactly one does (document 02, S-11).
#![tactic(auto)]

use programs::Streams;

// Reads a line and writes what is printed for it. Answers whether to go on.
fn turn(rt: &impl Streams, number: u64) -> bool {
    let mut text = [0u8; 201];
    let Some(n) = standard_input::read_line(rt, &mut text) else {
        return false;
    };
    let mut out = [0u8; 92];
    let end = celltext::print_restored(number, &text[..n], &mut out);
    programs::write_out(rt, &out[..end])
}

// Goes through the lines, numbered from 1. A proved loop has to end, so it counts to a number that no run reaches.
fn answer_all(rt: &impl Streams) {
    for number in 1..281474976710656 {
        if !turn(rt, number) {
            return;
        }
    }
}

fn main(rt: HostRuntime) {
    if programs::is_plain(&rt, b"restore <CELLS") {
        answer_all(&rt);
    }
}
