// P1' in PX2 (sections 10.4.2.3 and 10.4.2.4): Interleaver I turned round.
ghost use Rattle.std.specs.Prelude.{◌≡◌, ◌<◌, ◌≤◌};
ghost use Rattle.interleaving.specs.InverseI.{k_at};
ghost use Rattle.interleaving.specs.Matrix.{position_at};
ghost use Rattle.runs.specs.MainChannels.{delay_frames, p1'_row};
ghost use Rattle.runs.specs.declared.Main.TheVariants.{Mp5, Mp6};
ghost use Rattle.finding_px.specs.Second.{bit_of, columns_of, named};

use crate::writing::partition;
use runs::Main;

// Whether a channel is the one of this number, in a mode that has P1'.
pub fn is_named(main: Main, channel: u8, number: u8) -> bool
    ensures { result ≡ named main channel number }
{
    match main {
        Main::Plain => false,
        Main::Mp5 => channel == number,
        Main::Mp6 => channel == number,
    }
}

// The cells of a row of its matrices; 0 in a mode that does not have it.
pub fn columns(main: Main) -> usize
    ensures { (result ≡ columns_of main) × (result ≤ 288) }
{
    match main {
        Main::Plain => 0,
        Main::Mp5 => 144,
        Main::Mp6 => 288,
    }
}

// The L1 frames by which it is delayed (section 9.2).
pub fn delay(main: Main) -> usize
    ensures { result ≡ delay_frames main }
{
    match main {
        Main::Plain => 0,
        Main::Mp5 => 3,
        Main::Mp6 => 3,
    }
}

// Its row of Tables 10-17 and 10-19.
pub fn row_of(main: Main) -> usize
    ensures { result ≡ p1'_row main }
{
    match main {
        Main::Mp5 => 0,
        Main::Mp6 => 1,
        Main::Plain => 2,
    }
}

// 10.2.3.3: the k of a row and a column of an interleaver block.
fn index_of(row: usize, column: usize) -> usize
    requires { (row < 32) × (column < 36) }
    ensures { (result ≡ k_at 4 row column) × (result < 1152) }
{
    let turn = (column + 32 - row) % 4;
    288 * turn + (99 * row + 32 * column + 256 * turn) % 288
}

// MP5: the coded bit of a P1' frame that stands in a row and a column of its matrix.
fn narrow_bit(row: usize, column: usize) -> usize
    requires { (row < 64) × (column < 144) }
    ensures { result ≡ bit_of Mp5 (position_at 36 row column) }
{
    let k = index_of(row % 32, column % 36);
    8 * k + 2 * (column / 36) + (row / 32 + k) % 2
}

// MP6: the same. v is its own inverse, so that it gives the turn of a partition too.
fn wide_bit(row: usize, column: usize) -> usize
    requires { (row < 64) × (column < 288) }
    ensures { result ≡ bit_of Mp6 (position_at 36 row column) }
{
    let p = column / 36;
    let k = index_of(row % 32, column % 36);
    let turn = partition(p);
    16 * k + 8 * ((row / 32 + p) % 2) + turn
}

// The coded bit of a P1' frame that stands in a row and a column of its matrix.
pub fn bit_of(main: Main, row: usize, column: usize) -> usize
    requires { (row < 64) × (column < columns_of main) }
    ensures { result ≡ bit_of main (position_at 36 row column) }
{
    match main {
        Main::Plain => 0,
        Main::Mp5 => narrow_bit(row, column),
        Main::Mp6 => wide_bit(row, column),
    }
}
