// owners MODE: reads lines that ask for a cell or for a coded bit of an L1 frame, and prints whose bit stands in the cell, or in which cell the bit stands.
#![tactic(auto)]

ghost use Rattle.std.specs.Prelude.{◌≡◌, ◌+◌, ◌^◌, ◌≤◌, ◌<◌, Some, length};
ghost use Rattle.ownerlines.specs.declared.Progress.{Progress};

use ownerlines::Progress;
use programs::Streams;

// Room for the open line.
fn line_room() -> [u8; 4096]
    ensures { 4096 ≡ length result }
{
    [0; 4096]
}

// Room for what is printed for a block of 4,096 bytes: at most 200 bytes for each.
fn room() -> [u8; 819200]
    ensures { 819200 ≡ length result }
{
    [0; 819200]
}

// Writes what is printed for the lines that end in a block of the input, and answers where its lines have been answered to. None: it did not all go out.
fn answer_block(
    rt: &impl Streams,
    mode: u8,
    at: Progress,
    block: &[u8],
    line: &mut [u8],
    out: &mut [u8],
) -> Option<Progress>
    requires { (at.held ≤ 4096) × (length block.now ≤ 4096) × (length line.old ≡ 4096) × (length out.old ≡ 819200) × (at.number + 4096 < 2 ^ 64) }
    ensures lengths { (length line.new ≡ 4096) × (length out.new ≡ 819200) }
    ensures next { (next : Progress) → result ≡ Some next → (next.held ≤ 4096) × (next.number ≤ at.number + 4096) }
{
    let next = ownerlines::answer(mode, at, block, line, out);
    let end = next.end;
    programs::write_out(rt, &out[..end]).then_some(next)
}

// As many blocks as no run uses up: a proved loop has to end.
const BLOCKS: u64 = 281474976710656;

// Answers the input from block to block, and answers where it has been answered to, unless something did not go out.
fn answer_all(
    rt: &(impl Streams + AllocGlobal),
    mode: u8,
    at: Progress,
    line: &mut [u8],
    out: &mut [u8],
) -> Option<Progress>
    requires { (at.held ≤ 4096) × (length line.old ≡ 4096) × (length out.old ≡ 819200) × (at.number ≡ 1) }
    ensures lengths { (length line.new ≡ 4096) × (length out.new ≡ 819200) }
    ensures held { (last : Progress) → result ≡ Some last → last.held ≤ 4096 }
{
    let mut at = at;
    for block in 0..BLOCKS {
        let mut bytes = io::buffer();
        let n = programs::read_some(rt, &mut bytes);
        at = answer_block(rt, mode, at, &bytes[..n], line, out)?;
        if n == 0 {
            return Some(at);
        }
    }
    Some(at)
}

// Answers all of standard input. Where something cannot be written, nothing more is answered.
fn run(rt: &(impl Streams + AllocGlobal), mode: u8) {
    let mut line = line_room();
    let mut out = room();
    let Some(last) = answer_all(rt, mode, ownerlines::start(), &mut line, &mut out) else {
        return;
    };
    let end = ownerlines::finish(mode, last, &line, &mut out);
    programs::write_out(rt, &out[..end]);
}

// Answers in a mode that has a finder.
fn run_in(rt: &(impl Streams + AllocGlobal), mode: u64, line: &[u8]) {
    match mode {
        1 => run(rt, 1),
        2 => run(rt, 2),
        3 => run(rt, 3),
        11 => run(rt, 11),
        _ => programs::usage(rt, line),
    }
}

fn main(rt: HostRuntime) {
    let line = b"owners MODE (1, 2, 3 or 11)";
    // One word of 4,096 bytes, and the byte that ends it.
    let mut words = [0u8; 4097];
    let n = programs::read_words(&rt, &mut words);
    if programs::gives_help(&rt, line, &words[..n]) {
        return;
    }
    match argument_words::number(&words[..n]) {
        Some(mode) => run_in(&rt, mode, line),
        None => programs::usage(&rt, line),
    }
}
