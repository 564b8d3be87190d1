// Whose coded bit stands in a cell, in all six modes.
ghost use Rattle.std.specs.Prelude.{◌≡◌};
ghost use Rattle.finding.specs.Finder.{found_in, values};
ghost use Rattle.finding_px.specs.Finder.{found_px_in, values as values_px};
ghost use Rattle.words.specs.Words.{state_of};
ghost use Rattle.exported_places.specs.Found.{found_in_word, found_px_in_word};

// Whose coded bit stands in a cell of PM, in any mode.
#[unsafe(no_mangle)]
pub extern "C" fn layer1_find_in(mode: u8, row: usize, column: usize) -> u64
    ensures { result ≡ found_in_word (values (found_in mode row column)) }
{
    exported_places::layer1_find_in(mode, row, column)
}

// Whose coded bit stands in a cell of PX1 (channel 3) or PX2 (channel 4) of the L1 frame that a state comes before, in any mode.
#[unsafe(no_mangle)]
pub extern "C" fn layer1_find_px_in(
    mode: u8,
    half: u8,
    age: u8,
    last: u8,
    channel: u8,
    pair: usize,
    row: usize,
    column: usize,
) -> u64
    ensures { result ≡ found_px_in_word (values_px (found_px_in (state_of mode half age last) channel pair row column)) }
{
    exported_places::layer1_find_px_in(mode, half, age, last, channel, pair, row, column)
}
