// The lines of a vector, one for each subcarrier.
ghost use Rattle.std.specs.Prelude.{◌≡◌, ◌+◌, ◌≤◌, length, take};
ghost use Rattle.io.specs.Counts.{IsPrefixLen};
ghost use Rattle.text.specs.Put.{Put};
ghost use Rattle.vector_step.specs.Printed.{line, lines, source_text, subcarrier};
ghost use Rattle.vector_step.specs.Shown.{Printable, Shows, times_at};

use crate::numbers::put_part;
use subcarriers::Source;
use text::{field, put};

// Puts the number of the subcarrier of element k.
fn put_subcarrier(out: &mut [u8], at: usize, k: usize) -> usize
    requires { at + 22 ≤ length out.old }
    ensures { Put out.old out.new at result 22 (subcarrier k) }
{
    if k < 546 {
        let m = put(out, at, b"-");
        return field(out, m, (546 - k) as u64, b' ');
    }
    field(out, at, (k - 546) as u64, b' ')
}

// Puts what a subcarrier carries.
fn put_source(out: &mut [u8], at: usize, source: Source) -> usize
    requires { at + 25 ≤ length out.old }
    ensures { Put out.old out.new at result 25 (source_text source) }
{
    match source {
        Source::Unused => put(out, at, b"-\n"),
        Source::Pm(c) => {
            let m = put(out, at, b"PM ");
            field(out, m, c as u64, b'\n')
        }
        Source::Px1(c) => {
            let m = put(out, at, b"PX1 ");
            field(out, m, c as u64, b'\n')
        }
        Source::Px2(c) => {
            let m = put(out, at, b"PX2 ");
            field(out, m, c as u64, b'\n')
        }
        Source::Control(c) => {
            let m = put(out, at, b"R ");
            field(out, m, c as u64, b'\n')
        }
    }
}

// Puts the line of element k, whose parts are zero or, with either sign, so many times 2^-16.
fn put_line(out: &mut [u8], at: usize, mode: u8, k: usize, re: f32, im: f32, times: u64) -> usize
    requires { Shows times re × Shows times im × (at + 125 ≤ length out.old) }
    ensures { Put out.old out.new at result 125 (line mode k re im) }
{
    let a = put_subcarrier(out, at, k);
    let b = put_part(out, a, re, times);
    let c = put(out, b, b" ");
    let d = put_part(out, c, im, times);
    let e = put(out, d, b" ");
    put_source(out, e, subcarriers::source_at(mode, k))
}

// How many times 2^-16 the scale of element k's sideband is.
fn times_at(lower: u32, upper: u32, k: usize) -> u64
    ensures { result ≡ times_at lower upper k }
{
    if k < 546 {
        return lower as u64;
    }
    upper as u64
}

// Puts the line of each element.
pub fn put_lines(out: &mut [u8], mode: u8, lower: u32, upper: u32, re: &[f32], im: &[f32]) -> usize
    requires { (length re.now ≡ 1093) × (length im.now ≡ 1093) × Printable lower upper re.now im.now × (136625 ≤ length out.old) }
    ensures { IsPrefixLen result out.new × (take result out.new ≡ lines mode re.now im.now 1093) }
{
    let mut end: usize = 0;
    for k in 0..1093 {
        end = put_line(out, end, mode, k, re[k], im[k], times_at(lower, upper, k));
    }
    end
}
