// What the programs say: the line of a refusal, that an input goes on behind its last L1 frame, and why there is no sheet.
#![tactic(auto)]

ghost use Rattle.std.specs.Prelude.{◌≡◌, ◌≤◌, length, take};
ghost use Rattle.io.specs.Counts.{IsPrefixLen};
ghost use Rattle.text.specs.Put.{Put};
ghost use Rattle.messages.specs.Lines.{goes_on, in_words, no_sheet, refusal};

use programs::{Streams, say, write_out};
use text::{field, put};

// Puts the line of a refused call: the answer's number and place, and the L1 frame, numbered from 0.
fn put_line(out: &mut [u8], number: u8, place: usize, frame: u64) -> usize
    requires { 91 ≤ length out.old }
    ensures { Put out.old out.new 0 result 91 (refusal number place frame) }
{
    let a = put(out, 0, b"refused: number ");
    let b = field(out, a, number as u64, b' ');
    let c = put(out, b, b"place ");
    let d = field(out, c, place as u64, b' ');
    let e = put(out, d, b"frame ");
    field(out, e, frame, b'\n')
}

// Puts the line of a refused call, and the cause in words.
pub fn put_in_words(out: &mut [u8], number: u8, place: usize, frame: u64) -> usize
    requires { 251 ≤ length out.old }
    ensures { IsPrefixLen result out.new × (take result out.new ≡ in_words number place frame) }
{
    let n = put_line(out, number, place, frame);
    cause_words::put_words(out, n, number as u64)
}

// Prints the first line of a text, and says the rest on standard error.
pub fn tell(rt: &impl Streams, lines: &[u8]) {
    let end = text::end_of(lines, 0, b'\n');
    let n = programs::within(end + 1, lines);
    if write_out(rt, &lines[..n]) {
        say(rt, &lines[n..]);
    }
}

// Puts what is said of the text of a sheet: where there is none, its line, and the cause in words.
pub fn put_no_sheet(sheet: &[u8], out: &mut [u8]) -> usize
    requires { 251 ≤ length out.old }
    ensures { IsPrefixLen result out.new × (take result out.new ≡ no_sheet sheet.now) }
{
    if !cause_words::begins(b"NO SHEET ", sheet) {
        return 0;
    }
    let n = programs::within(91, sheet);
    let m = put(out, 0, &sheet[..n]);
    cause_words::put_why(out, m, sheet)
}

// Prints the text of a sheet, and says why there is none.
pub fn tell_sheet(rt: &impl Streams, sheet: &[u8]) {
    let mut lines = [0u8; 251];
    let n = put_no_sheet(sheet, &mut lines);
    if write_out(rt, sheet) {
        say(rt, &lines[..n]);
    }
}

// Says with which answer an L1 frame was refused.
pub fn refuse(rt: &impl Streams, number: u8, place: usize, frame: u64) {
    let mut lines = [0u8; 251];
    let n = put_in_words(&mut lines, number, place, frame);
    say(rt, &lines[..n]);
}

// Puts the line for an input that goes on behind its last L1 frame, where L1 frame `frame` would stand.
pub fn put_goes_on(out: &mut [u8], frame: u64) -> usize
    requires { 53 ≤ length out.old }
    ensures { IsPrefixLen result out.new × (take result out.new ≡ goes_on frame) }
{
    let a = put(out, 0, b"refused: input goes on at frame ");
    field(out, a, frame, b'\n')
}

// Writes the bytes of a step: to standard output where it was done, to standard error where it was refused. Answers whether the run goes on.
pub fn write_step(rt: &impl Streams, done: bool, bytes: &[u8]) -> bool {
    if done {
        return write_out(rt, bytes);
    }
    say(rt, bytes);
    false
}

// Says so where the input of a run that is whole goes on behind its last L1 frame.
pub fn check_end(rt: &impl Streams, whole: bool, count: u64) {
    if !whole {
        return;
    }
    if standard_input::is_more(rt) {
        let mut line = [0u8; 53];
        let n = put_goes_on(&mut line, count);
        say(rt, &line[..n]);
    }
}
