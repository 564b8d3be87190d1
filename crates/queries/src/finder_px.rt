// The cell finder for PX1 and PX2.
ghost use Rattle.std.specs.Prelude.{◌≡◌, ◌+◌, ◌*◌, ◌<◌, ◌≤◌};
ghost use Rattle.interleaving.specs.PX.{coded_bits};
ghost use Rattle.interleaving.specs.FinderPX.{origin as «origin-of»};
ghost use Rattle.runs.specs.Lengths.{table_row};
ghost use Rattle.queries.specs.FinderPX.{kind_of_number, columns_of, told, found_px, values};

use runs::{Answer, Extended, Kind, State};

// Whose coded bit stands in a cell of PX1 or PX2: so many L1 frames earlier it was coded, as this bit of this transfer frame of the eight; or the zero fill.
#[derive(Clone, Copy)]
pub enum FoundPx {
    Coded {
        earlier: usize,
        frame: usize,
        bit: usize,
    },
    Fill,
}

// How a mode sends the channel of a number, 3 for P3 and 4 for P4. The finder keeps to the older modes: MP5's P3 it does not know, and MP6 has neither.
pub fn kind_of_number(mode: u8, channel: u8) -> Kind
    ensures { result ≡ kind_of_number mode channel }
{
    if mode == 5 {
        return Kind::Unused;
    }
    if channel == 3 {
        return modes::kind_of(mode, Extended::P3);
    }
    if channel == 4 {
        return modes::kind_of(mode, Extended::P4);
    }
    Kind::Unused
}

// The cells of a row.
pub fn columns(kind: Kind) -> usize
    ensures { (result ≡ columns_of kind) × (result ≤ 144) }
{
    match kind {
        Kind::Unused => 0,
        Kind::Narrow => 72,
        Kind::Wide => 144,
    }
}

// The coded bit that stands in a cell, counted from the first one of the L1 frame two earlier: n coded bits are an L1 frame's.
// Where the step that writes the cell is later than the one that reads it, the bit is from the time before, 2 * n steps back.
fn origin(kind: usize, n: usize, half: usize, cell: usize) -> usize
    requires { (kind < 2) × (n ≡ coded_bits kind) × (half < 2) × (cell < coded_bits kind) }
    ensures { (result ≡ «origin-of» kind half cell) × (result < 3 * coded_bits kind) }
{
    let i = half * n + cell;
    let s = px::source(kind, i);
    if i < s {
        return cell + (s - i);
    }
    2 * n + cell - (i - s)
}

// What stands in the column of the row y, counted through the eight matrices, of a channel that the mode sends. An L1 frame's coded bits fill their 512 rows, and a transfer frame's are an eighth of them.
fn content(kind: Kind, half: usize, age: usize, y: usize, column: usize) -> FoundPx
    requires { (table_row kind < 2) × (half < 2) × (y < 512) × (column < columns_of kind) }
    ensures { result ≡ told kind half age (y * columns_of kind + column) }
{
    let x = columns(kind);
    let coded = 64 * x;
    let n = 8 * coded;
    let o = origin(modes::table_row(kind), n, half, y * x + column);
    let earlier = 2 - o / n;
    if age < earlier {
        return FoundPx::Fill;
    }
    let j = o % n;
    let frame = j / coded;
    let bit = j % coded;
    FoundPx::Coded {
        earlier,
        frame,
        bit,
    }
}

// Finds how many L1 frames earlier the coded bit was sent that stands in a cell of PX1 (channel 3) or PX2 (channel 4) of the L1 frame that comes next, and its transfer frame and coded bit in it.
pub fn find_px(
    state: State,
    channel: u8,
    pair: usize,
    row: usize,
    column: usize,
) -> Result<FoundPx, Answer>
    ensures { (result ≡ found_px state channel pair row column) × (values result ≡ values (found_px state channel pair row column)) }
{
    if !calls::is_valid(state) {
        return Err(Answer::StateNotValid);
    }
    let kind = kind_of_number(state.mode, channel);
    let n = columns(kind);
    if n == 0 {
        return Err(Answer::WrongLength(0));
    }
    if pair >= 8 {
        return Err(Answer::WrongLength(1));
    }
    if row >= 64 {
        return Err(Answer::WrongLength(2));
    }
    if column >= n {
        return Err(Answer::WrongLength(3));
    }
    let half = state.half as usize;
    let age = state.age as usize;
    Ok(content(kind, half, age, pair * 64 + row, column))
}
