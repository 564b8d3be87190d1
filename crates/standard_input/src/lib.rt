// Standard input, by lines, and whether it goes on.
#![tactic(auto)]

ghost use Rattle.std.specs.Prelude.{◌≤◌, IfSome, length};
ghost use Rattle.io.specs.Counts.{IsPrefixLen};

use programs::{Streams, read_full};

// Keeps a byte of a line, if there is room.
fn keep(text: &mut [u8], n: usize, byte: u8) -> usize
    requires { n ≤ length text.old }
    ensures { result ≤ length text.new }
{
    if n < text.len() {
        text[n] = byte;
        return n + 1;
    }
    n
}

// Reads a line, if there is one, without the newline that ends it. Answers how many of its bytes the buffer holds. One that is longer than the buffer fills it, so a buffer is lent that is longer than any line that is taken.
// A proved loop has to end, so it reads a number of bytes that no line has.
pub fn read_line(rt: &impl Streams, text: &mut [u8]) -> Option<usize>
    ensures { IfSome result (λ n. IsPrefixLen n text.new) }
{
    let mut n: usize = 0;
    let mut came = false;
    for _ in 0..281474976710656u64 {
        let mut one = [0u8; 1];
        let ended = read_full(rt, &mut one) == 0;
        if ended && !came {
            return None;
        }
        if ended || one[0] == b'\n' {
            return Some(n);
        }
        came = true;
        n = keep(text, n, one[0]);
    }
    Some(n)
}

// Whether the input goes on: one more byte is read.
pub fn is_more(rt: &impl Streams) -> bool {
    let mut byte = [0u8; 1];
    read_full(rt, &mut byte) != 0
}
