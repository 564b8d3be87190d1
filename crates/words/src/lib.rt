// The words that the entry points of the C library return. Every place, frame and bit is small enough for its field, by the definitions.
#![tactic(auto)]

ghost use Rattle.std.specs.Prelude.{cond, ◌≡◌, ◌^◌, ◌<◌, eqb, length};
ghost use Rattle.runs.specs.Answers.{number_of, place_of};
ghost use Rattle.queries.specs.Finder.{values};
ghost use Rattle.queries.specs.Places.{values as valuesOfPlace};
ghost use Rattle.interleaving.specs.Matrix.{Inside};
ghost use Rattle.queries.specs.FinderPX.{values as values_px};
ghost use Rattle.locating.specs.Locator.{values as valuesOfBit};
ghost use Rattle.locating.specs.LocatorPX.{values as valuesOfBitPX};
ghost use Rattle.queries.specs.Lookup.{values as values_of_block};
ghost use Rattle.queries.specs.LookupFrame.{values as values_of_frame};
ghost use Rattle.words.specs.Words.{answer_word, decoded_word, eight_of, found_px_word, found_word, located_px_word, located_word, looked_up_frame_word, looked_up_word, number_read, outcome_word, placed_word, row_word, verdict_word};

use causes::{number, place};
use decoding::Decoded;
use dumps::Verdict;
use locating::{Located, LocatedPx};
use pm::Position;
use queries::{BlockNumbers, Found, FoundPx, FrameNumbers};
use runs::{Answer, State};

// The word of an answer alone, and so of any refusal.
pub fn answer_word(answer: Answer) -> u64
    requires { place_of answer < 2 ^ 32 }
    ensures { result ≡ answer_word answer }
{
    let cause = number(answer) as u64;
    let at = place(answer) as u64;
    cause + 4294967296 * at
}

// The word of a start, a sending or a reading.
pub fn outcome_word(answer: Answer, state: State) -> u64
    requires { place_of answer < 2 ^ 24 }
    ensures { (result ≡ outcome_word answer state) × (number_read result ≡ cond (eqb (number_of answer) 0) state.reserved 0) }
{
    let low = number(answer) as u64 + 256 * (state.mode as u64);
    let high = 65536 * (state.half as u64) + 16777216 * (state.age as u64);
    let top = 72057594037927936 * (state.reserved as u64);
    low + high + 4294967296 * (place(answer) as u64) + top
}

// The word of a finding in PM.
pub fn found_word(cell: Result<Found, Answer>) -> u64
    requires { ((values cell).place < 2 ^ 8) × ((values cell).frame < 2 ^ 8) × ((values cell).bit < 2 ^ 24) }
    ensures { result ≡ found_word (values cell) }
{
    match cell {
        Ok(Found::P1 { bit }) => 256 + 1099511627776 * (bit as u64),
        Ok(Found::Pids { frame, bit }) => {
            512 + 65536 * (frame as u64) + 1099511627776 * (bit as u64)
        }
        Err(answer) => answer_word(answer),
    }
}

// The word of a position.
pub fn placed_word(found: Result<Position, Answer>) -> u64
    requires { ((valuesOfPlace found).place < 2 ^ 8) × Inside 20 16 36 (valuesOfPlace found).position }
    ensures { result ≡ placed_word (valuesOfPlace found) }
{
    match found {
        Ok(position) => {
            let low = 256 * (position.block as u64) + 65536 * (position.row as u64);
            let high = 16777216 * (position.partition as u64);
            low + high + 1099511627776 * (position.column as u64)
        }
        Err(answer) => answer_word(answer),
    }
}

// The word of a finding in PX1 or PX2.
pub fn found_px_word(cell: Result<FoundPx, Answer>) -> u64
    requires { ((values_px cell).place < 2 ^ 8) × ((values_px cell).frame < 2 ^ 8) × ((values_px cell).before < 2 ^ 8) × ((values_px cell).bit < 2 ^ 24) }
    ensures { result ≡ found_px_word (values_px cell) }
{
    match cell {
        Ok(
            FoundPx::Coded {
                earlier,
                frame,
                bit,
            },
        ) => {
            let low = 256 + 65536 * (frame as u64) + 16777216 * (earlier as u64);
            low + 1099511627776 * (bit as u64)
        }
        Ok(FoundPx::Fill) => 512,
        Err(answer) => answer_word(answer),
    }
}

// The word of where a coded bit of P1 or PIDS goes.
pub fn located_word(cell: Result<Located, Answer>) -> u64
    requires { ((valuesOfBit cell).place < 2 ^ 8) × Inside 20 16 36 (valuesOfBit cell).position }
    ensures { result ≡ located_word (valuesOfBit cell) }
{
    match cell {
        Ok(cell) => placed_word(Ok(cell.position)),
        Err(answer) => answer_word(answer),
    }
}

// The word of where a coded bit of P3 or P4 goes.
pub fn located_px_word(cell: Result<LocatedPx, Answer>) -> u64
    requires { ((valuesOfBitPX cell).place < 2 ^ 8) × ((valuesOfBitPX cell).after < 2 ^ 8) × ((valuesOfBitPX cell).pair < 2 ^ 8)
        × ((valuesOfBitPX cell).row < 2 ^ 8) × ((valuesOfBitPX cell).column < 2 ^ 24) }
    ensures { result ≡ located_px_word (valuesOfBitPX cell) }
{
    match cell {
        Ok(
            LocatedPx {
                later,
                pair,
                row,
                column,
            },
        ) => {
            let low = 256 * (pair as u64) + 65536 * (row as u64) + 16777216 * (later as u64);
            low + 1099511627776 * (column as u64)
        }
        Err(answer) => answer_word(answer),
    }
}

// The word of a lookup.
pub fn looked_up_word(said: Result<BlockNumbers, Answer>) -> u64
    requires { (values_of_block said).place < 2 ^ 8 }
    ensures { result ≡ looked_up_word (values_of_block said) }
{
    match said {
        Ok(block) => {
            256 * (block.mode as u64)
                + 65536 * (block.count as u64)
                + 16777216 * (block.reserved as u64)
        }
        Err(answer) => answer_word(answer),
    }
}

// The word of a lookup of an L1 frame's control.
pub fn looked_up_frame_word(said: Result<FrameNumbers, Answer>) -> u64
    requires { (values_of_frame said).place < 2 ^ 8 }
    ensures { result ≡ looked_up_frame_word (values_of_frame said) }
{
    match said {
        Ok(frame) => { 256 * (frame.mode as u64) + 16777216 * (frame.reserved as u64) }
        Err(answer) => answer_word(answer),
    }
}

// The word of a search for the nearest frame.
pub fn decoded_word(decoded: Decoded) -> u64
    requires { (decoded.distance < 2 ^ 8) × (decoded.margin < 2 ^ 8) × (place_of decoded.answer < 2 ^ 32) }
    ensures { result ≡ decoded_word decoded }
{
    let answer = decoded.answer;
    let low = number(answer) as u64 + 256 * (decoded.distance as u64);
    let high = 65536 * (decoded.margin as u64);
    low + high + 4294967296 * (place(answer) as u64)
}

// The word of a verdict.
pub fn verdict_word(verdict: Verdict) -> u64
    requires { (verdict.frame < 2 ^ 16) × (place_of verdict.answer < 2 ^ 24) }
    ensures { result ≡ verdict_word verdict }
{
    let answer = verdict.answer;
    let low = number(answer) as u64 + 65536 * (verdict.frame as u64);
    low + 4294967296 * (place(answer) as u64)
}

// The word of a row of n bytes.
pub fn row_word(n: usize, row: usize, part: &[u8]) -> u64
    requires { (n < 256) × (length part.now < 256) × (0 < length part.now → row < 512) }
    ensures { result ≡ row_word n row part.now }
{
    if part.len() == 0 {
        return 0;
    }
    (row * n) as u64 + 4294967296 * (part.len() as u64)
}

// The eight numbers that cross in a word.
pub fn eight(word: u64) -> [u8; 8]
    ensures { result ≡ eight_of word }
{
    let mut numbers = [0u8; 8];
    for d in 0..8 {
        numbers[d] = ((word >> (8 * d)) % 256) as u8;
    }
    numbers
}
