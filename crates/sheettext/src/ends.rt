// The first and the last line of an answer sheet.
ghost use Rattle.std.specs.Prelude.{◌+◌, ◌≤◌, length};
ghost use Rattle.text.specs.Put.{Put};
ghost use Rattle.sheettext.specs.Texts.{ending, head, without, worded};

use text::{field, put};

// Puts the channels without data.
fn put_without(out: &mut [u8], at: usize, without3: bool, without4: bool) -> usize
    requires { at + 14 ≤ length out.old }
    ensures { Put out.old out.new at result 14 (without without3 without4) }
{
    if without3 {
        if without4 {
            return put(out, at, b" without P3 P4");
        }
        return put(out, at, b" without P3");
    }
    if without4 {
        return put(out, at, b" without P4");
    }
    at
}

// Puts whether the answers have their workings, which ends the line.
fn put_worded(out: &mut [u8], at: usize, work: bool) -> usize
    requires { at + 6 ≤ length out.old }
    ensures { Put out.old out.new at result 6 (worded work) }
{
    if work {
        return put(out, at, b" work\n");
    }
    put(out, at, b"\n")
}

// Puts the first line.
pub fn put_head(
    out: &mut [u8],
    at: usize,
    mode: u8,
    count: u64,
    without3: bool,
    without4: bool,
    work: bool,
) -> usize
    requires { at + 64 ≤ length out.old }
    ensures { Put out.old out.new at result 64 (head mode count without3 without4 work) }
{
    let k = put(out, at, b"MP");
    let l = field(out, k, mode as u64, b' ');
    let m = text::number(out, l, count);
    let n = put_without(out, m, without3, without4);
    put_worded(out, n, work)
}

// Puts the last line: the number of answers.
pub fn put_end(out: &mut [u8], at: usize, n: u64) -> usize
    requires { at + 25 ≤ length out.old }
    ensures { Put out.old out.new at result 25 (ending n) }
{
    let m = put(out, at, b"END ");
    field(out, m, n, b'\n')
}
