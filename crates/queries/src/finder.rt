// Document 01: the cell finder.
ghost use Rattle.std.specs.Prelude.{◌≡◌};
ghost use Rattle.interleaving.specs.TableI.{ks};
ghost use Rattle.queries.specs.Finder.{found, values};

use crate::places::place_of;
use pm::Bit;
use runs::Answer;

// Whose coded bit stands in a cell of PM.
#[derive(Clone, Copy)]
pub enum Found {
    P1 { bit: usize },
    Pids { frame: usize, bit: usize },
}

// Finds the channel, the transfer frame and the coded bit in it of a cell of PM.
pub fn find(row: usize, column: usize) -> Result<Found, Answer>
    ensures { (result ≡ found row column) × (values result ≡ values (found row column)) }
{
    let table = pm::index_table();
    find_by(&table, row, column)
}

// The same by the table of S-1, lent: who finds many cells reads it once.
pub fn find_by(table: &[u16; 1152], row: usize, column: usize) -> Result<Found, Answer>
    requires { table.now ≡ ks }
    ensures { (result ≡ found row column) × (values result ≡ values (found row column)) }
{
    let position = place_of(row, column)?;
    match pm::find_by(table, position) {
        Bit::P1(bit) => Ok(Found::P1 { bit }),
        Bit::Pids(i) => Ok(Found::Pids {
            frame: i / 200,
            bit: i % 200,
        }),
    }
}
