// What is said of a line without its bit's value.
ghost use Rattle.std.specs.Prelude.{◌≡◌, ◌+◌, ◌≤◌, length};
ghost use Rattle.interleaving.specs.TableI.{ks};
ghost use Rattle.text.specs.Put.{Put};
ghost use Rattle.sheettext.specs.Owners.{owner_line};

use crate::lines::{is_refused, put_names};

// Puts whose bit stands in the cell that a line asks for, or in which cell the bit stands, without its value; or that the line is refused, by its number.
pub fn put_owner_line(
    table: &[u16; 1152],
    out: &mut [u8],
    at: usize,
    mode: u8,
    number: u64,
    line: &[u8],
) -> usize
    requires { (table.now ≡ ks) × (at + 200 ≤ length out.old) }
    ensures { Put out.old out.new at result 200 (owner_line mode number line.now) }
{
    let question = sheetlines::asked(line);
    let entry = sheetlines::entry_for(table, mode, 4294967296, question);
    if is_refused(entry) {
        return text::refuse(out, at, number);
    }
    let m = put_names(out, at, question, entry);
    text::put(out, m, b"\n")
}
