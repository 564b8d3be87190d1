// Whose coded bit stands in a cell, in all six modes.
ghost use Rattle.std.specs.Prelude.{◌≡◌};
ghost use Rattle.finding.specs.Finder.{found_in, values};
ghost use Rattle.finding_px.specs.Finder.{found_px_in, values as values_px};
ghost use Rattle.words.specs.Words.{state_of};
ghost use Rattle.exported_places.specs.Found.{SmallFound, SmallFoundPX, found_in_word, found_px_in_word};

use finding::Owner;
use finding_px::FoundPxIn;
use runs::{Answer, State};
use words::answer_word;

// The word of a finding in PM.
fn found_in_word(cell: Result<Owner, Answer>) -> u64
    requires { SmallFound (values cell) }
    ensures { result ≡ found_in_word (values cell) }
{
    match cell {
        Ok(Owner::P1 { frame, bit }) => 256 + 65536 * (frame as u64) + 1099511627776 * (bit as u64),
        Ok(Owner::P2 { bit }) => 1280 + 1099511627776 * (bit as u64),
        Ok(Owner::Pids { frame, bit }) => {
            512 + 65536 * (frame as u64) + 1099511627776 * (bit as u64)
        }
        Err(answer) => answer_word(answer),
    }
}

// The word of a finding in PX1 or PX2.
fn found_px_in_word(cell: Result<FoundPxIn, Answer>) -> u64
    requires { SmallFoundPX (values_px cell) }
    ensures { result ≡ found_px_in_word (values_px cell) }
{
    match cell {
        Ok(
            FoundPxIn::Coded {
                earlier,
                frame,
                bit,
            },
        ) => {
            let low = 256 + 65536 * (frame as u64) + 16777216 * (earlier as u64);
            low + 1099511627776 * (bit as u64)
        }
        Ok(FoundPxIn::Fill) => 512,
        Ok(FoundPxIn::Second { frame, bit }) => {
            50332416 + 65536 * (frame as u64) + 1099511627776 * (bit as u64)
        }
        Ok(FoundPxIn::DelayZero) => 1024,
        Err(answer) => answer_word(answer),
    }
}

// Whose coded bit stands in a cell of PM, in any mode.
#[unsafe(no_mangle)]
pub extern "C" fn layer1_find_in(mode: u8, row: usize, column: usize) -> u64
    ensures { result ≡ found_in_word (values (found_in mode row column)) }
{
    let cell = finding::find_in(mode, row, column);
    found_in_word(cell)
}

// Whose coded bit stands in a cell of PX1 (channel 3) or PX2 (channel 4) of the L1 frame that a state comes before, in any mode.
#[unsafe(no_mangle)]
pub extern "C" fn layer1_find_px_in(
    mode: u8,
    half: u8,
    age: u8,
    last: u8,
    channel: u8,
    pair: usize,
    row: usize,
    column: usize,
) -> u64
    ensures { result ≡ found_px_in_word (values_px (found_px_in (state_of mode half age last) channel pair row column)) }
{
    let state = State {
        mode,
        half,
        age,
        reserved: last,
    };
    let cell = finding_px::find_px_in(state, channel, pair, row, column);
    found_px_in_word(cell)
}
