// Into which cell of PX1 or PX2 a coded bit goes, and how many L1 frames later it is sent.
ghost use Rattle.std.specs.Prelude.{◌≡◌, ◌+◌, ◌*◌, ◌<◌};
ghost use Rattle.interleaving.specs.PX.{coded_bits, later as «Later-of»};
ghost use Rattle.runs.specs.Lengths.{table_row};
ghost use Rattle.queries.specs.FinderPX.{frame_coded};
ghost use Rattle.locating.specs.LocatorPX.{standing as «standing-of», located_px, values};

use crate::writing::write_px;
use runs::{Answer, Kind, State};

// The cell of a coded bit of P3 or P4: so many L1 frames later than its own, in the matrix of this block pair.
#[derive(Clone, Copy)]
pub struct LocatedPx {
    pub later: usize,
    pub pair: usize,
    pub row: usize,
    pub column: usize,
}

// Where the coded bit j of an L1 frame stands in its matrix and the two that follow, laid end to end: n coded bits are an L1 frame's.
fn later(kind: usize, n: usize, half: usize, j: usize) -> usize
    requires { (kind < 2) × (n ≡ coded_bits kind) × (half < 2) × (j < coded_bits kind) }
    ensures { (result ≡ «Later-of» kind half j) × (result < 3 * coded_bits kind) }
{
    let i = half * n + j;
    let c = write_px(kind, i).cell;
    if c < i {
        return j + (2 * n + c - i);
    }
    j + (c - i)
}

// The cell of the coded bit of a transfer frame, of a channel that the mode sends.
fn standing(kind: Kind, half: usize, frame: usize, bit: usize) -> LocatedPx
    requires { (table_row kind < 2) × (half < 2) × (frame < 8) × (bit < frame_coded kind) }
    ensures { result ≡ «standing-of» kind («Later-of» (table_row kind) half (frame * frame_coded kind + bit)) }
{
    let c = queries::columns(kind);
    let coded = 64 * c;
    let n = 8 * coded;
    let x = later(modes::table_row(kind), n, half, frame * coded + bit);
    let cell = x % n;
    let y = cell / c;
    LocatedPx {
        later: x / n,
        pair: y / 64,
        row: y % 64,
        column: cell % c,
    }
}

// Tells in which matrix of PX1 (channel 3) or PX2 (channel 4) a coded bit of P3 or P4 is sent, and in which cell of it: of this transfer frame of the L1 frame that comes next.
pub fn locate_px(state: State, channel: u8, frame: usize, bit: usize) -> Result<LocatedPx, Answer>
    ensures { (result ≡ located_px state channel frame bit) × (values result ≡ values (located_px state channel frame bit)) }
{
    if !calls::is_valid(state) {
        return Err(Answer::StateNotValid);
    }
    let kind = queries::kind_of_number(state.mode, channel);
    let c = queries::columns(kind);
    if c == 0 {
        return Err(Answer::WrongLength(0));
    }
    if frame >= 8 {
        return Err(Answer::WrongLength(1));
    }
    if bit >= 64 * c {
        return Err(Answer::WrongLength(2));
    }
    let half = state.half as usize;
    Ok(standing(kind, half, frame, bit))
}
