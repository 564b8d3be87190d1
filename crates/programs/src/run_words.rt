// The arguments of a run's program one by one, the program's own name the first.
ghost use Rattle.io.specs.Counts.{IsPrefixLen};

use arguments::{Run, Sending, arguments_of, sending_of};
use std::env::{Env, FillError};

// An argument of the program in the buffer, and how many bytes it has: none where there is none, or where it is longer than the buffer.
fn read_word(rt: &impl Env, i: usize, text: &mut [u8]) -> usize
    ensures { IsPrefixLen result text.new }
{
    rt.arg(i, text).unwrap_or(0)
}

// How many words the program was started with, its own name the first.
fn word_count(rt: &impl Env) -> usize {
    for i in 0..usize::MAX {
        if matches!(rt.arg(i, &mut [0u8; 0]), Err(FillError::NotPresent)) {
            return i;
        }
    }
    usize::MAX
}

// An argument of the program. One longer than the buffer is not taken as a number.
pub fn operand(rt: &impl Env, i: usize) -> Option<u64> {
    let mut text = io::buffer();
    let n = read_word(rt, i, &mut text);
    operands::decimal(&text[..n])
}

// Whether an argument of the program is this word.
pub fn argument_is(rt: &impl Env, i: usize, word: &[u8]) -> bool {
    let mut text = io::buffer();
    let n = read_word(rt, i, &mut text);
    bits::same(&text[..n], word)
}

// How many words the program was started with; but for the last, where it is this word.
pub fn words_before(rt: &impl Env, word: &[u8]) -> usize {
    let words = word_count(rt);
    if words == 0 {
        return 0;
    }
    if argument_is(rt, words - 1, word) {
        return words - 1;
    }
    words
}

// The arguments MODE and COUNT.
fn mode_and_count(rt: &impl Env) -> Option<Run> {
    let mode = operand(rt, 1);
    let count = operand(rt, 2);
    arguments_of(mode, count)
}

// The arguments MODE and COUNT of a program that must have been started with this many words.
pub fn read_arguments(rt: &impl Env, words: usize) -> Option<Run> {
    if word_count(rt) != words {
        return None;
    }
    mode_and_count(rt)
}

// The channels without data, and with how many words the program was started if these name them.
#[derive(Clone, Copy)]
pub struct Without {
    pub p3: bool,
    pub p4: bool,
    pub words: usize,
}

// After MODE and COUNT `without P3`, `without P4`, `without P3 P4`, or nothing. Other words name none.
pub fn read_without(rt: &impl Env) -> Option<Without> {
    if !argument_is(rt, 3, b"without") {
        return Some(Without {
            p3: false,
            p4: false,
            words: 3,
        });
    }
    if argument_is(rt, 4, b"P4") {
        return Some(Without {
            p3: false,
            p4: true,
            words: 5,
        });
    }
    if !argument_is(rt, 4, b"P3") {
        return None;
    }
    let p4 = argument_is(rt, 5, b"P4");
    Some(Without {
        p3: true,
        p4,
        words: if p4 { 6 } else { 5 },
    })
}

// The arguments MODE and COUNT of a sender's program, and which channels are without data, where these are `words` words: 0 for words that name none.
pub fn read_sending(rt: &impl Env, words: usize) -> Option<Sending> {
    let none = Without {
        p3: false,
        p4: false,
        words: 0,
    };
    let Without {
        p3,
        p4,
        words: named,
    } = read_without(rt).unwrap_or(none);
    if words != named {
        return None;
    }
    let Run { mode, count } = mode_and_count(rt)?;
    sending_of(mode, count, p3, p4)
}

// The one argument of a program that must have been started with this many words.
pub fn read_number(rt: &impl Env, words: usize) -> Option<u64> {
    if word_count(rt) != words {
        return None;
    }
    operand(rt, 1)
}
