// Document 02, S-3: where a row and a column of PM stand.
ghost use Rattle.std.specs.Prelude.{◌≡◌};
ghost use Rattle.queries.specs.Places.{placed, values};

use pm::Position;
use runs::Answer;

// Gives block, row in the block, partition and column in the partition of a row and a column of PM, or the cell finder's refusal.
pub fn place_of(row: usize, column: usize) -> Result<Position, Answer>
    ensures { (result ≡ placed row column) × (values result ≡ values (placed row column)) }
{
    if row >= 512 {
        return Err(Answer::WrongLength(0));
    }
    if column >= 720 {
        return Err(Answer::WrongLength(1));
    }
    Ok(pm::position_of(row, column))
}
