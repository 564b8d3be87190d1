// Text put behind what a buffer holds: each function answers where the text ends.
ghost use Rattle.std.specs.Prelude.{◌≡◌, ℕ, ◌+◌, ◌≤◌, List, [], ◌∷◌, ◌++◌, length};
ghost use Rattle.interleaving.specs.TableI.{ks};
ghost use Rattle.text.specs.Letters.{ascii};
ghost use Rattle.text.specs.Numbers.{decimal};
ghost use Rattle.text.specs.Put.{Put};
ghost use Rattle.listing.specs.Printed.{cell as «cell-of», printed};
ghost use Rattle.listing.specs.Running.{line_of, shown};

use crate::parsing::Line;
use queries::Found;
use text::{field, put, refuse};

// Puts two numbers with a space between, and the byte that ends them.
fn pair(out: &mut [u8], at: usize, a: usize, b: usize, end: u8) -> usize
    requires { at + 42 ≤ length out.old }
    ensures { Put out.old out.new at result 42 (decimal a ++ ascii " " ++ (decimal b ++ (end ∷ []))) }
{
    let m = field(out, at, a as u64, 32);
    field(out, m, b as u64, end)
}

// Puts a cell's line; the channel's name comes with the space after it.
fn cell(
    out: &mut [u8],
    at: usize,
    row: usize,
    column: usize,
    channel: &[u8],
    frame: usize,
    bit: usize,
) -> usize
    requires { (at + 92 ≤ length out.old) × (length channel.now ≤ 8) }
    ensures { (name : List ℕ) → channel.now ≡ name ++ ascii " " → Put out.old out.new at result 92 («cell-of» row column name frame bit) }
{
    let m = pair(out, at, row, column, 32);
    let n = put(out, m, channel);
    pair(out, n, frame, bit, 10)
}

// Puts what a line means.
pub fn print(table: &[u16; 1152], out: &mut [u8], at: usize, line: Line, number: u64) -> usize
    requires { (table.now ≡ ks) × (at + 92 ≤ length out.old) }
    ensures put { Put out.old out.new at result 92 (shown number line) }
    ensures by_index { (bytes : List ℕ) → line ≡ line_of bytes → shown number line ≡ printed number bytes }
{
    let row = line.row.unwrap_or(1000);
    let column = line.column.unwrap_or(None).unwrap_or(1000);
    match queries::find_by(table, row, column) {
        Ok(Found::P1 { bit }) => cell(out, at, row, column, b"P1 ", 0, bit),
        Ok(Found::Pids { frame, bit }) => cell(out, at, row, column, b"PIDS ", frame, bit),
        Err(_) => refuse(out, at, number),
    }
}
