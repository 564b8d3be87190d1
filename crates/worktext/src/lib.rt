// The working of a coded bit as a line of text, put behind what a buffer holds: each function answers where the text ends.
#![tactic(auto)]

ghost use Rattle.std.specs.Prelude.{◌≡◌, ◌++◌, ◌+◌, ◌≤◌, length};
ghost use Rattle.text.specs.Letters.{ascii};
ghost use Rattle.text.specs.Numbers.{decimal};
ghost use Rattle.text.specs.Put.{Put};
ghost use Rattle.worktext.specs.Texts.{octal as «octal-of», place_text, sum_text, words, work_line, writing_text};

use locating::Writing;
use pm::Position;
use text::{field, put};
use workings::Worked;

// The number whose decimal digits are a generator's octal digits.
fn octal(generator: u8) -> u64
    ensures { result ≡ «octal-of» generator }
{
    let g = generator as u64;
    100 * (g / 64) + 10 * (g / 8 % 8) + g % 8
}

// Puts a field: its name, its number and a space.
fn put_named(out: &mut [u8], at: usize, name: &[u8], n: u64) -> usize
    requires { at + (length name.now + 21) ≤ length out.old }
    ensures { Put out.old out.new at result (length name.now + 21) (name.now ++ (decimal n ++ ascii " ")) }
{
    let m = put(out, at, name);
    field(out, m, n, b' ')
}

// Puts a bit and a space.
fn put_bit(out: &mut [u8], at: usize, bit: u8) -> usize
    requires { at + 21 ≤ length out.old }
    ensures { Put out.old out.new at result 21 (decimal bit ++ ascii " ") }
{
    field(out, at, bit as u64, b' ')
}

// Puts seven bits, the first of the list first.
fn put_seven(out: &mut [u8], at: usize, seven: &[u8]) -> usize
    requires { (at + 147 ≤ length out.old) × (length seven.now ≡ 7) }
    ensures { Put out.old out.new at result 147 (words seven.now) }
{
    let b = put_bit(out, at, seven[0]);
    let c = put_bit(out, b, seven[1]);
    let d = put_bit(out, c, seven[2]);
    let e = put_bit(out, d, seven[3]);
    let f = put_bit(out, e, seven[4]);
    let g = put_bit(out, f, seven[5]);
    put_bit(out, g, seven[6])
}

// Puts a position and its cell, which end the line.
fn put_place(out: &mut [u8], at: usize, position: Position, cell: usize) -> usize
    requires { at + 137 ≤ length out.old }
    ensures { Put out.old out.new at result 137 (place_text position cell) }
{
    let b = put_named(out, at, b"BLOCK ", position.block as u64);
    let c = put_named(out, b, b"PARTITION ", position.partition as u64);
    let d = put_named(out, c, b"ROW ", position.row as u64);
    let e = put_named(out, d, b"COLUMN ", position.column as u64);
    let f = put(out, e, b"CELL ");
    field(out, f, cell as u64, b'\n')
}

// Puts how the interleaver writes the bit.
fn put_writing(out: &mut [u8], at: usize, writing: Writing) -> usize
    requires { at + 186 ≤ length out.old }
    ensures { Put out.old out.new at result 186 (writing_text writing) }
{
    let b = put_named(out, at, b"STEP ", writing.step as u64);
    let c = put_named(out, b, b"K ", writing.k as u64);
    let position = writing.position;
    put_place(out, c, position, writing.cell)
}

// Puts the bits that the generator takes, and their sum.
fn put_sum(out: &mut [u8], at: usize, bits: [u8; 7], scrambling: [u8; 7], sum: u8) -> usize
    requires { at + 335 ≤ length out.old }
    ensures { Put out.old out.new at result 335 (sum_text bits scrambling sum) }
{
    let b = put(out, at, b"FRAME ");
    let c = put_seven(out, b, &bits);
    let d = put(out, c, b"SCRAMBLER ");
    let e = put_seven(out, d, &scrambling);
    put_named(out, e, b"SUM ", sum as u64)
}

// Puts the line of a working.
pub fn put_work(out: &mut [u8], at: usize, worked: Worked) -> usize
    requires { at + 582 ≤ length out.old }
    ensures { Put out.old out.new at result 582 (work_line worked) }
{
    let b = put_named(out, at, b"WORK BIT ", worked.number as u64);
    let c = put_named(out, b, b"GENERATOR ", octal(worked.generator));
    let bits = worked.bits;
    let scrambling = worked.scrambling;
    let d = put_sum(out, c, bits, scrambling, worked.sum);
    let writing = worked.writing;
    put_writing(out, d, writing)
}
