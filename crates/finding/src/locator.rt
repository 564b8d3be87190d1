// Into which cell of PM a coded bit goes.
ghost use Rattle.std.specs.Prelude.{◌≡◌};
ghost use Rattle.locating.specs.Locator.{values};
ghost use Rattle.finding.specs.Locator.{located_in, p1_in, p2_in};

use crate::vector_u::{frame_coded, p1_coded, p2_coded};
use locating::Located;
use runs::{Answer, Main};

// A coded bit of a P1 frame.
fn locate_p1(main: Main, frame: usize, bit: usize) -> Result<Located, Answer>
    ensures { result ≡ p1_in main frame bit }
{
    let n = frame_coded(main);
    if frame >= p1_coded(main) / n {
        return Err(Answer::WrongLength(1));
    }
    if bit >= n {
        return Err(Answer::WrongLength(2));
    }
    locating::locate(1, 0, frame * n + bit)
}

// A coded bit of P2, whose one transfer frame is frame 0.
fn locate_p2(main: Main, frame: usize, bit: usize) -> Result<Located, Answer>
    ensures { result ≡ p2_in main frame bit }
{
    let n = p2_coded(main);
    if n == 0 {
        return Err(Answer::WrongLength(0));
    }
    if frame >= 1 {
        return Err(Answer::WrongLength(1));
    }
    if bit >= n {
        return Err(Answer::WrongLength(2));
    }
    locating::locate(1, 0, p1_coded(main) + bit)
}

// Tells into which cell of PM a coded bit goes, in any mode: of P1 (channel 1), PIDS (2) or P2 (5), of this transfer frame of the L1 frame.
pub fn locate_in(mode: u8, channel: u8, frame: usize, bit: usize) -> Result<Located, Answer>
    ensures { (result ≡ located_in mode channel frame bit) × (values result ≡ values (located_in mode channel frame bit)) }
{
    if !control::is_covered(mode) {
        return Err(Answer::ModeNotCovered);
    }
    if channel == 1 {
        return locate_p1(modes::main_of(mode), frame, bit);
    }
    if channel == 5 {
        return locate_p2(modes::main_of(mode), frame, bit);
    }
    locating::locate(channel, frame, bit)
}
