// Into which cell of PM a coded bit goes.
ghost use Rattle.std.specs.Prelude.{◌≡◌};
ghost use Rattle.interleaving.specs.Matrix.{Inside};
ghost use Rattle.locating.specs.Locator.{standing as «standing-of», in_p1, in_pids, located, values};

use pm::Position;
use runs::Answer;

// The position of a coded bit of P1 or PIDS, and its row and column of PM.
#[derive(Clone, Copy)]
pub struct Located {
    pub position: Position,
    pub row: usize,
    pub column: usize,
}

// A position with its row and column of the matrix.
fn standing(position: Position) -> Located
    requires { Inside 20 16 36 position }
    ensures { result ≡ «standing-of» position }
{
    let row = 32 * position.block + position.row;
    let column = 36 * position.partition + position.column;
    Located {
        position,
        row,
        column,
    }
}

// A coded bit of P1, whose one transfer frame is frame 0.
fn locate_p1(frame: usize, bit: usize) -> Result<Located, Answer>
    ensures { result ≡ in_p1 frame bit }
{
    if frame >= 1 {
        return Err(Answer::WrongLength(1));
    }
    if bit >= 365440 {
        return Err(Answer::WrongLength(2));
    }
    Ok(standing(pm::p1_position(bit)))
}

// A coded bit of one of the sixteen PIDS frames.
fn locate_pids(frame: usize, bit: usize) -> Result<Located, Answer>
    ensures { result ≡ in_pids frame bit }
{
    if frame >= 16 {
        return Err(Answer::WrongLength(1));
    }
    if bit >= 200 {
        return Err(Answer::WrongLength(2));
    }
    Ok(standing(pm::pids_position(frame * 200 + bit)))
}

// Tells into which cell of PM a coded bit goes: of P1 (channel 1) or PIDS (channel 2), of this transfer frame of the L1 frame.
pub fn locate(channel: u8, frame: usize, bit: usize) -> Result<Located, Answer>
    ensures { (result ≡ located channel frame bit) × (values result ≡ values (located channel frame bit)) }
{
    if channel == 1 {
        return locate_p1(frame, bit);
    }
    if channel == 2 {
        return locate_pids(frame, bit);
    }
    Err(Answer::WrongLength(0))
}
