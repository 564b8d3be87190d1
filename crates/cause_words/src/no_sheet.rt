// Why there is no sheet, in words, from the line that says it.
ghost use Rattle.std.specs.Prelude.{◌≡◌, [], ◌+◌, ◌≤◌, ◌<◌, get_or, length};
ghost use Rattle.text.specs.Put.{Put};
ghost use Rattle.cause_words.specs.Table.{count, names, sheets};
ghost use Rattle.cause_words.specs.Rows.{rows};
ghost use Rattle.cause_words.specs.NoSheet.{row_in, sixth, why, words_for};
ghost use Rattle.cause_words.specs.NoSheet.{begins as «begins-with»};

use crate::table::CAUSES;
use crate::{put_row, put_words};
use operands::decimal;
use text::{rest, word};

// Whether a text begins with another.
pub fn begins(start: &[u8], text: &[u8]) -> bool
    ensures { result ≡ «begins-with» start.now text.now }
{
    let n = start.len();
    if text.len() < n {
        return false;
    }
    bits::same(&text[..n], start)
}

// The row whose name begins a text, in the order of the table: a name that begins with another stands above it.
fn row_of(text: &[u8]) -> usize
    ensures { (result < count) × (get_or rows result [] ≡ row_in names sheets text.now) }
{
    if begins(b"NO SHEET MODE\n", text) {
        return CAUSES + 1;
    }
    if begins(b"NO SHEET WITHOUT\n", text) {
        return CAUSES + 2;
    }
    if begins(b"NO SHEET COUNT\n", text) {
        return CAUSES + 3;
    }
    if begins(b"NO SHEET LONG LIST\n", text) {
        return CAUSES + 4;
    }
    if begins(b"NO SHEET LIST\n", text) {
        return CAUSES + 5;
    }
    if begins(b"NO SHEET SHORT ", text) {
        return CAUSES + 6;
    }
    if begins(b"NO SHEET LONG ", text) {
        return CAUSES + 7;
    }
    0
}

// The sixth word.
#[tactic(auto, unfolding(crate::specs::NoSheet::sixth))]
fn sixth_word(text: &[u8]) -> &[u8]
    ensures { result.now ≡ sixth text.now }
{
    word(rest(rest(rest(rest(rest(text))))))
}

// Puts the words of a cause whose number is written, if it is a number.
fn put_written(out: &mut [u8], at: usize, number: Option<u64>) -> usize
    requires { at + 160 ≤ length out.old }
    ensures { Put out.old out.new at result 160 (words_for number) }
{
    match number {
        Some(number) => put_words(out, at, number),
        None => put_row(out, at, 0),
    }
}

// Puts why there is no sheet, as a line.
pub fn put_why(out: &mut [u8], at: usize, text: &[u8]) -> usize
    requires { at + 160 ≤ length out.old }
    ensures { Put out.old out.new at result 160 (why text.now) }
{
    if begins(b"NO SHEET FRAME ", text) {
        return put_written(out, at, decimal(sixth_word(text)));
    }
    put_row(out, at, row_of(text))
}
