// What the program `owners` prints, as functions on bytes: `start`, `answer` for each block of the input, `finish`.
// The open line is held in a buffer of 4,096 bytes that the caller lends.
#![tactic(auto)]

ghost use Rattle.std.specs.Prelude.{◌≡◌, ℕ, ◌+◌, ◌*◌, ◌^◌, ◌≤◌, ◌<◌, List, [], ◌∷◌, ◌++◌, length, take};
ghost use Rattle.interleaving.specs.TableI.{ks};
ghost use Rattle.io.specs.Counts.{IsPrefixLen};
ghost use Rattle.text.specs.Put.{Put};
ghost use Rattle.ownerlines.specs.Printed.{output, printed};
ghost use Rattle.ownerlines.specs.Running.{Reached, held_of};

// How many bytes of the open line are held, its number, and where the text in the buffer ends.
#[derive(Clone, Copy)]
pub struct Progress {
    pub held: usize,
    pub number: u64,
    pub end: usize,
}

// Before the first byte of the input.
pub fn start() -> Progress
    ensures { (result.held ≤ 4096) × (result.number ≡ 1) × ((mode : ℕ) (line : List ℕ) → Reached mode [] [] line result) }
{
    Progress {
        held: 0,
        number: 1,
        end: 0,
    }
}

// Holds one more byte of a line that has n held: its first 4,096 bytes, and of a longer one no more.
fn hold(line: &mut [u8], n: usize, b: u8) -> usize
    requires { (length line.old ≡ 4096) × (n ≤ 4096) }
    ensures upper_bound { (result ≤ 4096) × (length line.new ≡ length line.old) }
    ensures by_index { (bytes : List ℕ) → take n line.old ≡ held_of bytes → take result line.new ≡ held_of (bytes ++ (b ∷ [])) }
{
    if n < 4096 {
        line[n] = b;
        return n + 1;
    }
    n
}

// Puts what is printed for a line that has n bytes held.
fn print(
    table: &[u16; 1152],
    out: &mut [u8],
    at: usize,
    mode: u8,
    number: u64,
    line: &[u8],
    n: usize,
) -> usize
    requires { (table.now ≡ ks) × (at + 200 ≤ length out.old) × (length line.now ≡ 4096) × (n ≤ 4096) }
    ensures { Put out.old out.new at result 200 (printed mode number (take n line.now)) }
{
    if n < 4096 {
        return sheettext::put_owner_line(table, out, at, mode, number, &line[..n]);
    }
    text::refuse(out, at, number)
}

// Takes one byte of the input: a newline puts what is printed for the open line behind the buffer's text.
fn take_byte(
    table: &[u16; 1152],
    mode: u8,
    p: Progress,
    b: u8,
    line: &mut [u8],
    out: &mut [u8],
) -> Progress
    requires { (table.now ≡ ks) × (p.held ≤ 4096) × (length line.old ≡ 4096) × (p.end + 200 ≤ length out.old) × (p.number + 1 < 2 ^ 64) }
    ensures held_bound { (result.held ≤ 4096) × (length line.new ≡ length line.old) × (result.end ≤ p.end + 200)
        × (result.number ≤ p.number + 1) × (length out.new ≡ length out.old) }
    ensures by_index { (seen text : List ℕ) → Reached mode seen (text ++ take p.end out.old) line.old p
        → Reached mode (seen ++ (b ∷ [])) (text ++ take result.end out.new) line.new result }
{
    let held = p.held;
    let number = p.number;
    let end = p.end;
    if b == 10 {
        let after = print(table, out, end, mode, number, line, held);
        return Progress {
            held: 0,
            number: number + 1,
            end: after,
        };
    }
    let longer = hold(line, held, b);
    Progress {
        held: longer,
        number: number,
        end: end,
    }
}

// Takes a block of the input, and puts what is printed for each line that ends in it.
// Left open, here and in `finish`: what is put for a progress that no input reaches.
pub fn answer(mode: u8, p: Progress, block: &[u8], line: &mut [u8], out: &mut [u8]) -> Progress
    requires { (p.held ≤ 4096) × (length line.old ≡ 4096) × (200 * length block.now ≤ length out.old) × (p.number + length block.now < 2 ^ 64) }
    ensures held_bound { (result.held ≤ 4096) × (length line.new ≡ length line.old) × (IsPrefixLen result.end out.new)
        × (result.number ≤ p.number + length block.now) × (length out.new ≡ length out.old) }
    ensures by_index { (seen text : List ℕ) → Reached mode seen text line.old p
        → Reached mode (seen ++ block.now) (text ++ take result.end out.new) line.new result }
{
    let table = pm::index_table();
    let mut q = Progress {
        held: p.held,
        number: p.number,
        end: 0,
    };
    for b in block {
        q = take_byte(&table, mode, q, *b, line, out);
    }
    q
}

// At the end of the input: puts what is printed for a last line that no newline ended.
pub fn finish(mode: u8, p: Progress, line: &[u8], out: &mut [u8]) -> usize
    requires { (p.held ≤ 4096) × (length line.now ≡ 4096) × (200 ≤ length out.old) }
    ensures prefix_len { (IsPrefixLen result out.new) × (length out.new ≡ length out.old) }
    ensures by_index { (seen text : List ℕ) → Reached mode seen text line.now p → output mode seen ≡ text ++ take result out.new }
{
    let held = p.held;
    if held == 0 {
        return 0;
    }
    let table = pm::index_table();
    print(&table, out, 0, mode, p.number, line, held)
}
