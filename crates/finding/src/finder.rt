// Whose coded bit stands in a cell of PM.
ghost use Rattle.std.specs.Prelude.{◌≡◌};
ghost use Rattle.interleaving.specs.TableI.{ks};
ghost use Rattle.finding.specs.Finder.{found_in, owner_in, values};

use crate::vector_u::{frame_coded, p1_coded};
use queries::Found;
use runs::{Answer, Main};

// A coded bit of a P1 frame, of P2 or of a PIDS frame of the L1 frame.
#[derive(Clone, Copy)]
pub enum Owner {
    P1 { frame: usize, bit: usize },
    P2 { bit: usize },
    Pids { frame: usize, bit: usize },
}

// Whose bit i of U is.
fn owner_of(main: Main, i: usize) -> Owner
    ensures { result ≡ owner_in main i }
{
    let all = p1_coded(main);
    let n = frame_coded(main);
    if i < all {
        return Owner::P1 {
            frame: i / n,
            bit: i % n,
        };
    }
    Owner::P2 { bit: i - all }
}

// Finds the channel, the transfer frame and the coded bit in it of a cell of PM, in any mode.
pub fn find_in(mode: u8, row: usize, column: usize) -> Result<Owner, Answer>
    ensures { (result ≡ found_in mode row column) × (values result ≡ values (found_in mode row column)) }
{
    let table = pm::index_table();
    find_in_by(&table, mode, row, column)
}

// The same by the table of S-1, lent: who finds many cells reads it once.
pub fn find_in_by(table: &[u16; 1152], mode: u8, row: usize, column: usize) -> Result<Owner, Answer>
    requires { table.now ≡ ks }
    ensures { (result ≡ found_in mode row column) × (values result ≡ values (found_in mode row column)) }
{
    if !control::is_covered(mode) {
        return Err(Answer::ModeNotCovered);
    }
    let found = queries::find_by(table, row, column)?;
    match found {
        Found::P1 { bit } => Ok(owner_of(modes::main_of(mode), bit)),
        Found::Pids { frame, bit } => Ok(Owner::Pids { frame, bit }),
    }
}
