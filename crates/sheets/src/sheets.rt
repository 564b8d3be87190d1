// The answer sheet for an input.
ghost use Rattle.std.specs.Prelude.{◌≡◌, true, ◌++◌, ◌+◌, ◌-◌, ◌≤◌, ◌<◌, length, replicate, take};
ghost use Rattle.runs.specs.declared.Extended.TheVariants.{P3, P4};
ghost use Rattle.sheetinputs.specs.Inputs.{carried, named, older};
ghost use Rattle.sheets.specs.Sheet.{sheet_for, sheet_of};
ghost use Rattle.sheets.specs.Call.{said, sheet_call};
ghost use Rattle.sheets.specs.Begun.{Begins};

use crate::refusals::put_want;
use runs::Answer;
use sheetinputs::{are_named, empty_at, empty_line, frames_size, is_older};
use sheetruns::put_run;
use text::put;

// Puts the sheet for a list and the bytes behind it, with n3 and n4 bytes of P3 and P4 in an L1 frame.
fn put_sheet(
    mode: u8,
    count: u64,
    without3: bool,
    without4: bool,
    work: bool,
    n3: usize,
    n4: usize,
    list: &[u8],
    bytes: &[u8],
    out: &mut [u8],
) -> usize
    requires { (older mode ≡ true) × (n3 ≤ 4608) × (n4 ≤ 4608) × (count ≤ 64) × (length list.now < 4096) × (1200000 ≤ length out.old) }
    ensures { (result ≤ length out.new) × (take result out.new ≡ sheet_for mode count without3 without4 work n3 n4 list.now bytes.now) }
{
    let want = frames_size(mode, count, n3, n4);
    if bytes.len() < want {
        return put_want(out, b"NO SHEET SHORT ", want);
    }
    if bytes.len() > want {
        return put_want(out, b"NO SHEET LONG ", want);
    }
    let m = sheettext::put_head(out, 0, mode, count, without3, without4, work);
    let n = sheetlists::put_refusals(out, m, mode, count, list);
    put_run(mode, count, work, n3, n4, list, bytes, out, n)
}

// The same, with the bytes of P3 and P4 by the channels without data.
fn put_carried(
    mode: u8,
    count: u64,
    without3: bool,
    without4: bool,
    work: bool,
    list: &[u8],
    bytes: &[u8],
    out: &mut [u8],
) -> usize
    requires { (older mode ≡ true) × (count ≤ 64) × (length list.now < 4096) × (1200000 ≤ length out.old) }
    ensures { (result ≤ length out.new) × (take result out.new ≡ sheet_for mode count without3 without4 work (carried mode P3 without3) (carried mode P4 without4) list.now bytes.now) }
{
    let want = modes::sender_lengths(mode);
    let n3 = arguments::carried(want[3], without3);
    let n4 = arguments::carried(want[4], without4);
    put_sheet(
        mode, count, without3, without4, work, n3, n4, list, bytes, out,
    )
}

// Puts the sheet for an input whose list may be none.
fn put_input(
    mode: u8,
    count: u64,
    without3: bool,
    without4: bool,
    work: bool,
    input: &[u8],
    out: &mut [u8],
) -> usize
    requires { (older mode ≡ true) × (named mode without3 without4 ≡ true) × (count ≤ 64) × (1200000 ≤ length out.old) }
    ensures { (result ≤ length out.new) × (take result out.new ≡ sheet_of mode count without3 without4 work input.now) }
{
    let end = empty_line(input);
    if end >= 4096 {
        return put(out, 0, b"NO SHEET LONG LIST\n");
    }
    if end >= input.len() {
        return put(out, 0, b"NO SHEET LIST\n");
    }
    let from = end + empty_at(input, end);
    put_carried(
        mode,
        count,
        without3,
        without4,
        work,
        &input[..end],
        &input[from..],
        out,
    )
}

// Puts the sheet for any arguments and any input, and answers how many bytes it has.
fn put_any(
    mode: u8,
    count: u64,
    without3: bool,
    without4: bool,
    work: bool,
    input: &[u8],
    out: &mut [u8],
) -> usize
    requires { 1200000 ≤ length out.old }
    ensures { Begins out.new result (sheet_of mode count without3 without4 work input.now) }
{
    if !is_older(mode) {
        return put(out, 0, b"NO SHEET MODE\n");
    }
    if !are_named(mode, without3, without4) {
        return put(out, 0, b"NO SHEET WITHOUT\n");
    }
    if count > 64 {
        return put(out, 0, b"NO SHEET COUNT\n");
    }
    put_input(mode, count, without3, without4, work, input, out)
}

// Writes zeros from a place on.
fn clear_from(out: &mut [u8], at: usize)
    requires { at ≤ length out.old }
    ensures { out.new ≡ take at out.old ++ replicate (length out.old - at) 0 }
{
    out[at..].fill(0);
}

// The answer of a call, and how many bytes the text has.
#[derive(Clone, Copy)]
pub struct Written {
    pub answer: Answer,
    pub length: usize,
}

// The answer sheet for an input, in a buffer of at least 1,200,000 bytes, with zeros behind it. A shorter one is refused, and nothing is written.
pub fn sheet(
    mode: u8,
    count: u64,
    without3: bool,
    without4: bool,
    work: bool,
    input: &[u8],
    out: &mut [u8],
) -> Written
    ensures { said result out.new ≡ sheet_call mode count without3 without4 work input.now out.old }
{
    if out.len() < 1200000 {
        let answer = Answer::WrongLength(1);
        return Written { answer, length: 0 };
    }
    let n = put_any(mode, count, without3, without4, work, input, out);
    clear_from(out, n);
    let answer = Answer::Success;
    Written { answer, length: n }
}
