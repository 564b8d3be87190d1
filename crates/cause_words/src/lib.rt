// What a refusal's number means, and why there is no sheet, in the words of causes.tsv.
#![tactic(auto)]

mod cuts;
mod no_sheet;
mod table;

ghost use Rattle.std.specs.Prelude.{◌+◌, ◌≤◌, ◌<◌, get_or, length, []};
ghost use Rattle.text.specs.Put.{Put};
ghost use Rattle.cause_words.specs.Table.{count};
ghost use Rattle.cause_words.specs.Rows.{rows};
ghost use Rattle.cause_words.specs.Words.{words};

pub use no_sheet::{begins, put_why};
use table::{CAUSES, put_part, start_of};

// Puts a row of the table.
fn put_row(out: &mut [u8], at: usize, row: usize) -> usize
    requires { (row < count) × (at + 160 ≤ length out.old) }
    ensures { Put out.old out.new at result 160 (get_or rows row []) }
{
    let start = start_of(row);
    let end = start_of(row + 1);
    put_part(out, at, start, end)
}

// Puts the words of a cause, as a line.
pub fn put_words(out: &mut [u8], at: usize, number: u64) -> usize
    requires { at + 160 ≤ length out.old }
    ensures { Put out.old out.new at result 160 (words number) }
{
    if number < CAUSES as u64 {
        return put_row(out, at, number as usize + 1);
    }
    put_row(out, at, 0)
}
