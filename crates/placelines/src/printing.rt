// What is printed, put behind what a buffer holds: each function answers where the text ends.
ghost use Rattle.std.specs.Prelude.{◌≡◌, ◌+◌, ◌*◌, ◌^◌, ◌≤◌, ◌<◌, true, [], ◌∷◌, ◌++◌, length, replicate, take};
ghost use Rattle.io.specs.Counts.{IsPrefixLen};
ghost use Rattle.runs.specs.Answers.{number_of, place_of};
ghost use Rattle.allocation.specs.Allocation.{shared};
ghost use Rattle.text.specs.Numbers.{decimal};
ghost use Rattle.text.specs.Put.{Put};
ghost use Rattle.placelines.specs.Read.{eight_at, is_read};
ghost use Rattle.placelines.specs.Printed.{bad_line, behind, output, printed, refused, spelled_places, told};

use crate::fields::{eight_at, is_read};
use runs::Answer;

// The byte behind place k.
fn separator(k: usize) -> u8
    ensures { result ≡ behind k }
{
    if k < 15 { 32 } else { 10 }
}

// Puts a byte in decimal, and the byte that ends it.
fn put_byte(out: &mut [u8], at: usize, n: u8, end: u8) -> usize
    requires { at + 21 ≤ length out.old }
    ensures { Put out.old out.new at result 4 (decimal n ++ (end ∷ [])) }
{
    text::field(out, at, n as u64, end)
}

// Puts the sixteen places.
fn put_places(out: &mut [u8], at: usize, places: &[u8]) -> usize
    requires { (at + 81 ≤ length out.old) × (length places.now ≡ 16) }
    ensures { Put out.old out.new at result 64 (spelled_places 16 places.now) }
{
    let mut end = at;
    for k in 0..16 {
        end = put_byte(out, end, places[k], separator(k));
    }
    end
}

// Puts a refusal.
fn put_refused(out: &mut [u8], at: usize, answer: Answer) -> usize
    requires { at + 81 ≤ length out.old }
    ensures { Put out.old out.new at result 64 (refused (number_of answer) (place_of answer)) }
{
    let m = text::put(out, at, b"REFUSED ");
    let n = text::field(out, m, causes::number(answer) as u64, 32);
    text::field(out, n, causes::place(answer) as u64, 10)
}

// Puts that a line is no line of sixteen numbers.
fn put_bad(out: &mut [u8], at: usize, number: u64) -> usize
    requires { at + 81 ≤ length out.old }
    ensures { Put out.old out.new at result 64 (bad_line number) }
{
    let m = text::put(out, at, b"BAD LINE ");
    text::field(out, m, number, 10)
}

// Shares the places by the numbers of a line, and puts them.
fn put_shared(out: &mut [u8], at: usize, line: &[u8]) -> usize
    requires { (at + 81 ≤ length out.old) × (is_read 16 line.now ≡ true) }
    ensures { Put out.old out.new at result 64 (told (shared (eight_at 0 line.now) (eight_at 8 line.now) (replicate 16 0))) }
{
    let shares = eight_at(line, 0);
    let waiting = eight_at(line, 8);
    let mut places = [0u8; 16];
    let answer = allocation::share_places(shares, waiting, &mut places);
    if causes::is_success(answer) {
        return put_places(out, at, &places);
    }
    put_refused(out, at, answer)
}

// Puts what is printed for a line.
fn put_line(out: &mut [u8], at: usize, number: u64, line: &[u8]) -> usize
    requires { at + 81 ≤ length out.old }
    ensures { Put out.old out.new at result 64 (printed number line.now) }
{
    if is_read(line) {
        return put_shared(out, at, line);
    }
    put_bad(out, at, number)
}

// Puts what is printed for an input, and answers how many bytes that is.
pub fn answer(input: &[u8], out: &mut [u8]) -> usize
    requires { (64 * length input.now + 64 ≤ length out.old) × (length input.now < 2 ^ 32) }
    ensures { (IsPrefixLen result out.new) × (take result out.new ≡ output input.now) }
{
    let mut end: usize = 0;
    let mut number: u64 = 1;
    for line in text::lines(input) {
        end = put_line(out, end, number, line);
        number += 1;
    }
    end
}
