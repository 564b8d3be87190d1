// What the words of a program ask for.
ghost use Rattle.std.specs.Prelude.{◌≡◌};
ghost use Rattle.argument_words.specs.Asked.{channels_in, fourth, mode_and_count, none_in, number_in, odd_of, reading_in, scaled_in, sending_in, summing_in, third};
ghost use Rattle.argument_words.specs.Asked.{asked as «asked_by»};

use crate::cut::{before_last, ends_with, first_word, other_words};
use arguments::Run;
use bits::same;
use operands::decimal;

// Which channels are said to be without data.
#[derive(Clone, Copy)]
pub struct Without {
    pub p3: bool,
    pub p4: bool,
}

// A run, its channels without data, and whether the last word that the program takes stands there.
#[derive(Clone, Copy)]
pub struct Asked {
    pub mode: u8,
    pub count: u64,
    pub without3: bool,
    pub without4: bool,
    pub last: bool,
}

// MODE and COUNT.
#[tactic(auto, unfolding(crate::specs::Asked::mode_and_count))]
pub fn mode_and_count(text: &[u8]) -> Option<Run>
    ensures { result ≡ mode_and_count text.now }
{
    let mode = decimal(first_word(text));
    let count = decimal(first_word(other_words(text)));
    arguments::arguments_of(mode, count)
}

// The words for channels without data.
// Not a `match`: it leaves a goal for each byte that can differ, 33 in all, and the check closes none of them. This form needs no answer.
#[tactic(auto, unfolding(crate::specs::Asked::channels_in, crate::specs::Words::ended))]
fn channels_in(text: &[u8]) -> Option<Without>
    ensures { result ≡ channels_in text.now }
{
    let (p3, p4) = if same(text, b"") {
        (false, false)
    } else if same(text, b"without\0P3\0") {
        (true, false)
    } else if same(text, b"without\0P4\0") {
        (false, true)
    } else if same(text, b"without\0P3\0P4\0") {
        (true, true)
    } else {
        return None;
    };
    Some(Without { p3, p4 })
}

// No words.
#[tactic(auto, unfolding(crate::specs::Asked::none_in))]
fn none_in(text: &[u8]) -> Option<Without>
    ensures { result ≡ none_in text.now }
{
    same(text, b"").then_some(Without {
        p3: false,
        p4: false,
    })
}

// The parts together.
fn join(run: Option<Run>, channels: Option<Without>, last: bool) -> Option<Asked>
    ensures { result ≡ «asked_by» run channels last }
{
    let Run { mode, count } = run?;
    let Without { p3, p4 } = channels?;
    Some(Asked {
        mode,
        count,
        without3: p3,
        without4: p4,
        last,
    })
}

// MODE COUNT [without P3|P4|P3 P4] [LAST]: the last word is lent with the zero byte that ends it.
#[tactic(auto, unfolding(crate::specs::Asked::sending_in))]
pub fn sending(last: &[u8], text: &[u8]) -> Option<Asked>
    ensures { result ≡ sending_in last.now text.now }
{
    let behind = other_words(other_words(text));
    let channels = channels_in(before_last(last, behind));
    join(mode_and_count(text), channels, ends_with(last, behind))
}

// MODE COUNT [LAST].
#[tactic(auto, unfolding(crate::specs::Asked::reading_in))]
pub fn reading(last: &[u8], text: &[u8]) -> Option<Asked>
    ensures { result ≡ reading_in last.now text.now }
{
    let behind = other_words(other_words(text));
    let channels = none_in(before_last(last, behind));
    join(mode_and_count(text), channels, ends_with(last, behind))
}

// A number, and nothing behind it.
#[tactic(auto, unfolding(crate::specs::Asked::number_in))]
pub fn number(text: &[u8]) -> Option<u64>
    ensures { result ≡ number_in text.now }
{
    if !same(other_words(text), b"") {
        return None;
    }
    decimal(first_word(text))
}

// The third word.
pub fn third_word(text: &[u8]) -> &[u8]
    ensures { result.now ≡ third text.now }
{
    first_word(other_words(other_words(text)))
}

// The fourth word.
pub fn fourth_word(text: &[u8]) -> &[u8]
    ensures { result.now ≡ fourth text.now }
{
    first_word(other_words(other_words(other_words(text))))
}

// A run of sums: of how many runs.
#[derive(Clone, Copy)]
pub struct Summed {
    pub mode: u8,
    pub count: u64,
    pub runs: u64,
}

// A mode, a count and an odd number of runs.
fn odd_of(run: Option<Run>, number: Option<u64>) -> Option<Summed>
    ensures { result ≡ odd_of run number }
{
    let Run { mode, count } = run?;
    let runs = number?;
    if runs % 2 != 1 {
        return None;
    }
    Some(Summed { mode, count, runs })
}

// MODE COUNT N, N odd (document 02, S-14).
#[tactic(auto, unfolding(crate::specs::Asked::summing_in))]
pub fn summing(text: &[u8]) -> Option<Summed>
    ensures { result ≡ summing_in text.now }
{
    if !same(other_words(other_words(other_words(text))), b"") {
        return None;
    }
    odd_of(mode_and_count(text), decimal(third_word(text)))
}

// MODE SYMBOL and two words more (document 02, S-7).
#[tactic(auto, unfolding(crate::specs::Asked::scaled_in))]
pub fn scaled(text: &[u8]) -> Option<Run>
    ensures { result ≡ scaled_in text.now }
{
    let behind = other_words(other_words(other_words(other_words(text))));
    if !same(behind, b"") {
        return None;
    }
    mode_and_count(text)
}
