// The words that a program was started with, its usage and its help.
ghost use Rattle.std.specs.Prelude.{◌≤◌, length};
ghost use Rattle.io.specs.Counts.{IsPrefixLen};

use crate::streams::{Streams, say};
use std::env::{Env, FillError};

// How far a word that begins at `at` may reach: over 4,096 bytes, as far as the buffer goes.
fn word_end(at: usize, out: &[u8]) -> usize
    requires { at ≤ length out.now }
    ensures { (at ≤ result) × (result ≤ length out.now) }
{
    if out.len() - at > 4096 {
        return at + 4096;
    }
    out.len()
}

// The words behind the program's own name as one text, in which a zero byte ends each. A word of more than 4,096 bytes, or longer than the rest of the buffer,
// stands as an empty one, and where a zero byte has no room the text is empty: no program takes an empty word, or none where it takes some.
pub fn read_words(rt: &impl Env, out: &mut [u8]) -> usize
    ensures { IsPrefixLen result out.new }
{
    let mut at: usize = 0;
    for i in 1..usize::MAX {
        let top = word_end(at, out);
        let n = match rt.arg(i, &mut out[at..top]) {
            Ok(n) => n,
            Err(FillError::TooLong) => 0,
            Err(FillError::NotPresent) => return at,
        };
        let end = at + n;
        if end >= out.len() {
            return 0;
        }
        out[end] = 0;
        at = end + 1;
    }
    at
}

// Says how the program is started.
pub fn usage(rt: &impl Streams, line: &[u8]) {
    say(rt, b"usage: ");
    say(rt, line);
    say(rt, b"\n");
}

// Whether the program was asked for help, which it is given on standard output: how it is started.
pub fn gives_help(rt: &impl Streams, line: &[u8], words: &[u8]) -> bool {
    if !bits::same(words, b"--help\0") {
        return false;
    }
    let _ = rt.write(b"usage: ");
    let _ = rt.write(line);
    let _ = rt.write(b"\n");
    true
}

// Whether there is a word behind the program's own name.
fn has_words(rt: &impl Env) -> bool {
    !matches!(rt.arg(1, &mut [0u8; 0]), Err(FillError::NotPresent))
}

// Whether a program that takes no arguments was started with none; where not, its usage or its help is given.
pub fn is_plain(rt: &(impl Streams + Env), line: &[u8]) -> bool {
    let mut words = io::buffer();
    let n = read_words(rt, &mut words);
    if gives_help(rt, line, &words[..n]) {
        return false;
    }
    if has_words(rt) {
        usage(rt, line);
        return false;
    }
    true
}
