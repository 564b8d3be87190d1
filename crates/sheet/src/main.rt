// sheet MODE COUNT [without P3|P4|P3 P4] [work]: reads a cell list, an empty line and COUNT L1 frames, each its reserved number and its transfer frames, as `sender` does,
// and prints the answer sheet, with `work` the working below each answer, or the line that says why there is none, which goes to standard error too.
#![tactic(auto)]

use argument_words::Asked;
use programs::Streams;

// Writes the sheet, and says why there is none.
fn tell(rt: &impl Streams, text: &[u8]) {
    if !programs::write_out(rt, text) {
        return;
    }
    if text.len() > 0 && text[0] == b'N' {
        programs::say(rt, text);
    }
}

// Reads the input, all of it that can matter, and writes the sheet.
fn run(rt: &impl Streams, asked: Asked) {
    let Asked {
        mode,
        count,
        without3,
        without4,
        last: work,
    } = asked;
    let mut input = programs::sheet_input();
    let n = programs::read_full(rt, &mut input);
    let mut out = programs::sheet_text();
    let sheet = sheets::sheet(mode, count, without3, without4, work, &input[..n], &mut out);
    let end = programs::within(sheet.length, &out);
    tell(rt, &out[..end]);
}

fn main(rt: HostRuntime) {
    let line = b"sheet MODE COUNT [without P3|P4|P3 P4] [work]";
    // MODE and COUNT with 4,096 bytes each, `without`, `P3`, `P4` and `work`, and the bytes that end them.
    let mut words = [0u8; 8213];
    let n = programs::read_words(&rt, &mut words);
    if programs::gives_help(&rt, line, &words[..n]) {
        return;
    }
    match argument_words::sending(b"work\0", &words[..n]) {
        Some(asked) => run(&rt, asked),
        None => programs::usage(&rt, line),
    }
}
