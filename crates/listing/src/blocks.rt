// The whole list, block by block of the input.
ghost use Rattle.std.specs.Prelude.{◌≡◌, ℕ, ◌+◌, ◌*◌, ◌^◌, ◌≤◌, ◌<◌, List, [], ◌∷◌, ◌++◌, length, take};
ghost use Rattle.interleaving.specs.TableI.{ks};
ghost use Rattle.io.specs.Counts.{IsPrefixLen};
ghost use Rattle.listing.specs.Printed.{output};
ghost use Rattle.listing.specs.Running.{Reached};

use crate::parsing::{Line, empty, is_begun, step};
use crate::printing::print;
use text::put;

// The open line, its number, and where the text in the buffer ends.
#[derive(Clone, Copy)]
pub struct Progress {
    pub line: Line,
    pub number: u64,
    pub end: usize,
}

// Puts the header.
pub fn start(out: &mut [u8]) -> Progress
    requires { 26 ≤ length out.old }
    ensures { (result.number ≡ 1) × (IsPrefixLen result.end out.new) × (length out.new ≡ length out.old) × Reached [] (take result.end out.new) result }
{
    let end = put(out, 0, b"ROW COL CHANNEL FRAME BIT\n");
    let line = empty();
    Progress {
        line: line,
        number: 1,
        end: end,
    }
}

// Takes one byte of the input: a newline puts the open line's meaning behind the buffer's text.
fn take_byte(table: &[u16; 1152], p: Progress, b: u8, out: &mut [u8]) -> Progress
    requires { (table.now ≡ ks) × (p.end + 92 ≤ length out.old) × (p.number + 1 < 2 ^ 64) }
    ensures end_bound { (result.end ≤ p.end + 92) × (result.number ≤ p.number + 1) × (length out.new ≡ length out.old) }
    ensures by_index { (seen text : List ℕ) → Reached seen (text ++ take p.end out.old) p → Reached (seen ++ (b ∷ [])) (text ++ take result.end out.new) result }
{
    let line = p.line;
    let number = p.number;
    let end = p.end;
    if b == 10 {
        let after = print(table, out, end, line, number);
        let none = empty();
        return Progress {
            line: none,
            number: number + 1,
            end: after,
        };
    }
    let longer = step(line, b);
    Progress {
        line: longer,
        number: number,
        end: end,
    }
}

// Takes a block of the input, and puts the meaning of each line that ends in it. Left open, here and in `finish`: what is put for a progress that no input reaches.
pub fn list(p: Progress, block: &[u8], out: &mut [u8]) -> Progress
    requires { (92 * length block.now ≤ length out.old) × (p.number + length block.now < 2 ^ 64) }
    ensures prefix_len { (IsPrefixLen result.end out.new) × (result.number ≤ p.number + length block.now) × (length out.new ≡ length out.old) }
    ensures by_index { (seen text : List ℕ) → Reached seen text p → Reached (seen ++ block.now) (text ++ take result.end out.new) result }
{
    let table = pm::index_table();
    let line = p.line;
    let mut q = Progress {
        line: line,
        number: p.number,
        end: 0,
    };
    for b in block {
        q = take_byte(&table, q, *b, out);
    }
    q
}

// At the end of the input: puts the meaning of a last line that no newline ended.
pub fn finish(p: Progress, out: &mut [u8]) -> usize
    requires { 92 ≤ length out.old }
    ensures prefix_len { (IsPrefixLen result out.new) × (length out.new ≡ length out.old) }
    ensures by_index { (seen text : List ℕ) → Reached seen text p → output seen ≡ text ++ take result out.new }
{
    let line = p.line;
    if !is_begun(line) {
        return 0;
    }
    let table = pm::index_table();
    print(&table, out, 0, line, p.number)
}
