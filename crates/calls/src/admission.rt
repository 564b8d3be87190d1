// Documents 01 and 02, the causes that a sending and a reading meet first: the state, the number handed in, the lengths.
ghost use Rattle.std.specs.Prelude.{◌≡◌, length};
ghost use Rattle.runs.specs.Causes.{wrong};
ghost use Rattle.calls.specs.Admitted.{admitted, first_cause};
ghost use Rattle.modes.specs.Sizes.{placed, sizes};

use crate::states::is_valid;
use modes::first_wrong;
use runs::{Answer, State};

// The first cause that applies: the state before the number handed in, and that before the lengths.
fn first_cause(is_valid: bool, reserved: u8, place: usize, places: usize) -> Answer
    ensures { result ≡ first_cause is_valid reserved (placed places place) }
{
    if !is_valid {
        return Answer::StateNotValid;
    }
    if reserved > 7 {
        return Answer::ReservedTooHigh;
    }
    if place < places {
        return Answer::WrongLength(place);
    }
    Answer::Success
}

// The answer from the state, the number handed in, and the lengths lent, beside those wanted. A reading is handed no number, and 0 stands for it.
pub fn admit(state: State, reserved: u8, have: &[usize], want: &[usize]) -> Answer
    requires { length have.now ≡ length want.now }
    ensures { result ≡ admitted state reserved (wrong 0 (sizes have.now want.now)) }
{
    let valid = is_valid(state);
    let place = first_wrong(have, want);
    first_cause(valid, reserved, place, have.len())
}
