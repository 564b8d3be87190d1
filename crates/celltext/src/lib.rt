// House matter: the cells of one PIDS frame as a line of text, and the line that is printed for the frame that is found or restored.
#![tactic(auto)]

ghost use Rattle.std.specs.Prelude.{◌≡◌, [], ◌∷◌, ◌++◌, ◌+◌, ◌*◌, ◌/◌, ◌%◌, ◌<◌, ◌≤◌, length, get_or, take};
ghost use Rattle.bits.specs.Tests.{all};
ghost use Rattle.runs.specs.Answers.{number_of};
ghost use Rattle.io.specs.Counts.{IsPrefixLen};
ghost use Rattle.text.specs.Letters.{ascii};
ghost use Rattle.text.specs.Put.{Put};
ghost use Rattle.celltext.specs.Found.{digit as «digit-of», found, hexadecimal};
ghost use Rattle.celltext.specs.Lines.{cell_of, CellsOf, is_cell, Read};
ghost use Rattle.celltext.specs.Nearest.{NearestLine};
ghost use Rattle.celltext.specs.Restored.{RestoredLine, told};

use runs::Answer;

// Whether a character stands for a cell.
#[tactic(auto, unfolding(crate::specs::Lines::is_cell))]
fn is_cell(b: u8) -> bool
    ensures { result ≡ is_cell b }
{
    matches!(b, b'0' | b'1' | b'?')
}

// Its byte.
#[tactic(auto, unfolding(crate::specs::Lines::cell_of))]
fn cell_of(b: u8) -> u8
    ensures { result ≡ cell_of b }
{
    match b {
        b'0' => 0,
        b'1' => 1,
        _ => 2,
    }
}

// Whether each of 200 characters stands for a cell.
fn are_cells(line: &[u8]) -> bool
    requires { length line.now ≡ 200 }
    ensures { result ≡ all 200 (λ n. is_cell (get_or line.now n 0)) }
{
    for b in line {
        if !is_cell(*b) {
            return false;
        }
    }
    true
}

// Writes the cells that 200 characters stand for.
fn write_cells(line: &[u8], cells: &mut [u8])
    requires { (length line.now ≡ 200) × (length cells.old ≡ 200) }
    ensures { CellsOf line.now cells.new }
{
    for (i, b) in line.iter().enumerate() {
        cells[i] = cell_of(*b);
    }
}

// Reads the cells of a line, and answers whether it has those of a frame.
pub fn read_cells(line: &[u8], cells: &mut [u8]) -> bool
    requires { length cells.old ≡ 200 }
    ensures { Read result line.now cells.old cells.new }
{
    if line.len() != 200 {
        return false;
    }
    if !are_cells(line) {
        return false;
    }
    write_cells(line, cells);
    true
}

fn digit(n: u8) -> u8
    requires { n < 16 }
    ensures { result ≡ «digit-of» n }
{
    if n < 10 {
        return 48 + n;
    }
    55 + n
}

// Puts a byte in hexadecimal.
fn put_byte(out: &mut [u8], at: usize, b: u8) -> usize
    requires { at + 2 ≤ length out.old }
    ensures { Put out.old out.new at result 2 («digit-of» (b / 16) ∷ «digit-of» (b % 16) ∷ []) }
{
    out[at] = digit(b / 16);
    let next = at + 1;
    out[next] = digit(b % 16);
    next + 1
}

// Puts bytes in hexadecimal.
pub fn put_hexadecimal(out: &mut [u8], at: usize, bytes: &[u8]) -> usize
    requires { at + 2 * length bytes.now ≤ length out.old }
    ensures { Put out.old out.new at result (2 * length bytes.now) (hexadecimal bytes.now) }
{
    let mut end = at;
    for b in bytes {
        end = put_byte(out, end, *b);
    }
    end
}

// Puts the line of a frame that was found.
pub fn put_found(out: &mut [u8], frame: &[u8], distance: u16, margin: u16) -> usize
    requires { (length frame.now ≡ 10) × (63 ≤ length out.old) }
    ensures { Put out.old out.new 0 result 63 (found frame.now distance margin) }
{
    let a = put_hexadecimal(out, 0, frame);
    let b = text::put(out, a, b" ");
    let c = text::field(out, b, distance as u64, b' ');
    text::field(out, c, margin as u64, b'\n')
}

// S-12: puts what is printed for line `number`: its nearest frame, or that it is refused.
pub fn print_nearest(budget: usize, number: u64, line: &[u8], out: &mut [u8]) -> usize
    requires { 92 ≤ length out.old }
    ensures { IsPrefixLen result out.new × NearestLine budget number line.now (take result out.new) }
{
    let mut cells = [0u8; 200];
    if !read_cells(line, &mut cells) {
        return text::refuse(out, 0, number);
    }
    let mut frame = [0u8; 10];
    let nearest = decoding::nearest(&cells, &mut frame, budget);
    put_found(out, &frame, nearest.distance, nearest.margin)
}

// Puts a frame's line.
fn put_frame(out: &mut [u8], frame: &[u8]) -> usize
    requires { (length frame.now ≡ 10) × (21 ≤ length out.old) }
    ensures { Put out.old out.new 0 result 21 (hexadecimal frame.now ++ ascii "\n") }
{
    let end = put_hexadecimal(out, 0, frame);
    text::put(out, end, b"\n")
}

// Puts the line of a frame that was restored, or why there is none.
fn put_restored(out: &mut [u8], frame: &[u8], answer: Answer) -> usize
    requires { (length frame.now ≡ 10) × (21 ≤ length out.old) }
    ensures { Put out.old out.new 0 result 21 (told (number_of answer) frame.now) }
{
    match answer {
        Answer::Success => put_frame(out, frame),
        Answer::NoFrameFits => text::put(out, 0, b"NO FRAME FITS\n"),
        _ => text::put(out, 0, b"SEVERAL FRAMES FIT\n"),
    }
}

// S-11: puts what is printed for line `number`: the frame that fits, why there is none, or that the line is refused.
pub fn print_restored(number: u64, line: &[u8], out: &mut [u8]) -> usize
    requires { 92 ≤ length out.old }
    ensures { IsPrefixLen result out.new × RestoredLine number line.now (take result out.new) }
{
    let mut cells = [0u8; 200];
    if !read_cells(line, &mut cells) {
        return text::refuse(out, 0, number);
    }
    let mut frame = [0u8; 10];
    let answer = restoring::restore(&cells, &mut frame);
    put_restored(out, &frame, answer)
}
