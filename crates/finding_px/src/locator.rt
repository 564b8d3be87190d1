// Into which cell of PX1 or PX2 a coded bit goes.
ghost use Rattle.std.specs.Prelude.{◌≡◌, ◌<◌};
ghost use Rattle.locating.specs.LocatorPX.{values};
ghost use Rattle.finding_px.specs.Second.{coded_of};
ghost use Rattle.finding_px.specs.Locator.{located_px_in, second_at, standing as «standing-of»};

use crate::older::as_older;
use crate::second::{columns, delay, is_named, row_of};
use crate::writing::write_second;
use locating::LocatedPx;
use runs::{Answer, Main, State};

// The cell of a coded bit of a P1' frame.
fn standing(main: Main, frame: usize, bit: usize) -> LocatedPx
    requires { (frame < 8) × (bit < coded_of main) }
    ensures { result ≡ «standing-of» main frame bit }
{
    let w = columns(main);
    let cell = write_second(row_of(main), frame, bit).cell;
    let y = cell / w;
    LocatedPx {
        later: delay(main),
        pair: y / 64,
        row: y % 64,
        column: cell % w,
    }
}

// Into which cell of PX2 a coded bit of P1' goes, of this P1 frame of the L1 frame.
fn locate_second(main: Main, frame: usize, bit: usize) -> Result<LocatedPx, Answer>
    ensures { result ≡ second_at main frame bit }
{
    if frame >= 8 {
        return Err(Answer::WrongLength(1));
    }
    if bit >= 64 * columns(main) {
        return Err(Answer::WrongLength(2));
    }
    Ok(standing(main, frame, bit))
}

// Tells in which matrix of PX1 or PX2 a coded bit of P3 (channel 3), P4 (4) or P1' (6) is sent, and in which cell of it, in any mode: of this transfer frame of the L1 frame that comes next.
pub fn locate_px_in(
    state: State,
    channel: u8,
    frame: usize,
    bit: usize,
) -> Result<LocatedPx, Answer>
    ensures { (result ≡ located_px_in state channel frame bit) × (values result ≡ values (located_px_in state channel frame bit)) }
{
    if !calls::is_valid(state) {
        return Err(Answer::StateNotValid);
    }
    let main = modes::main_of(state.mode);
    if is_named(main, channel, 6) {
        return locate_second(main, frame, bit);
    }
    locating::locate_px(as_older(main, state), channel, frame, bit)
}
