// Whose coded bit stands in a cell of PX1 or PX2.
ghost use Rattle.std.specs.Prelude.{◌≡◌};
ghost use Rattle.finding_px.specs.Finder.{found_px_in, in_second, named_in, values};

use crate::older::as_older;
use crate::second::{bit_of, columns, delay, is_named};
use queries::FoundPx;
use runs::{Answer, Main, State};

// So many L1 frames earlier it was coded, as this bit of this transfer frame of the eight; or the zero fill. Of P1' this coded bit of this P1 frame of the L1 frame three earlier; or the zeros of the diversity delay.
#[derive(Clone, Copy)]
pub enum FoundPxIn {
    Coded {
        earlier: usize,
        frame: usize,
        bit: usize,
    },
    Fill,
    Second {
        frame: usize,
        bit: usize,
    },
    DelayZero,
}

// What the finder of the older modes names.
impl From<FoundPx> for FoundPxIn {
    ghost from_gives = { λ found named. named ≡ named_in found };

    fn from(found: FoundPx) -> FoundPxIn {
        match found {
            FoundPx::Coded {
                earlier,
                frame,
                bit,
            } => FoundPxIn::Coded {
                earlier,
                frame,
                bit,
            },
            FoundPx::Fill => FoundPxIn::Fill,
        }
    }
}

// What stands in a cell of PX2 in a mode that has P1'.
fn find_second(
    main: Main,
    age: usize,
    pair: usize,
    row: usize,
    column: usize,
) -> Result<FoundPxIn, Answer>
    ensures { result ≡ in_second main age pair row column }
{
    if pair >= 8 {
        return Err(Answer::WrongLength(1));
    }
    if row >= 64 {
        return Err(Answer::WrongLength(2));
    }
    if column >= columns(main) {
        return Err(Answer::WrongLength(3));
    }
    if age < delay(main) {
        return Ok(FoundPxIn::DelayZero);
    }
    let bit = bit_of(main, row, column);
    Ok(FoundPxIn::Second { frame: pair, bit })
}

// Finds whose coded bit stands in a cell of PX1 (channel 3) or PX2 (channel 4) of the L1 frame that comes next, in any mode.
pub fn find_px_in(
    state: State,
    channel: u8,
    pair: usize,
    row: usize,
    column: usize,
) -> Result<FoundPxIn, Answer>
    ensures { (result ≡ found_px_in state channel pair row column) × (values result ≡ values (found_px_in state channel pair row column)) }
{
    if !calls::is_valid(state) {
        return Err(Answer::StateNotValid);
    }
    let main = modes::main_of(state.mode);
    if is_named(main, channel, 4) {
        let age = state.age as usize;
        return find_second(main, age, pair, row, column);
    }
    let found = queries::find_px(as_older(main, state), channel, pair, row, column)?;
    Ok(FoundPxIn::from(found))
}
