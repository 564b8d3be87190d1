// Documents 01 and 02: the cell finders, where a row and a column of PM stand, and what a control block or the sixteen of an L1 frame say.
ghost use Rattle.std.specs.Prelude.{◌≡◌};
ghost use Rattle.queries.specs.Finder.{found, values};
ghost use Rattle.queries.specs.Places.{placed, values as valuesOfPlace};
ghost use Rattle.queries.specs.FinderPX.{found_px, values as values_px};
ghost use Rattle.queries.specs.Lookup.{lookup_of, values as values_of_block};
ghost use Rattle.queries.specs.LookupFrame.{lookup_frame_of, values as values_of_frame};
ghost use Rattle.words.specs.Words.{found_px_word, found_word, looked_up_frame_word, looked_up_word, placed_word, state_of};

// Whose coded bit stands in a cell of PM.
#[unsafe(no_mangle)]
pub extern "C" fn layer1_find(row: usize, column: usize) -> u64
    ensures { result ≡ found_word (values (found row column)) }
{
    exported::layer1_find(row, column)
}

// Where a row and a column of PM stand.
#[unsafe(no_mangle)]
pub extern "C" fn layer1_place_of(row: usize, column: usize) -> u64
    ensures { result ≡ placed_word (valuesOfPlace (placed row column)) }
{
    exported::layer1_place_of(row, column)
}

// Whose coded bit stands in a cell of PX1 (channel 3) or PX2 (channel 4) of the L1 frame that a state comes before.
#[unsafe(no_mangle)]
pub extern "C" fn layer1_find_px(
    mode: u8,
    half: u8,
    age: u8,
    last: u8,
    channel: u8,
    pair: usize,
    row: usize,
    column: usize,
) -> u64
    ensures { result ≡ found_px_word (values_px (found_px (state_of mode half age last) channel pair row column)) }
{
    exported::layer1_find_px(mode, half, age, last, channel, pair, row, column)
}

// The mode, the block count and the number of one control block.
#[unsafe(no_mangle)]
pub extern "C" fn layer1_lookup(block: &[u8]) -> u64
    ensures { result ≡ looked_up_word (values_of_block (lookup_of block.now)) }
{
    exported::layer1_lookup(block)
}

// The mode and the number of the sixteen control blocks of an L1 frame.
#[unsafe(no_mangle)]
pub extern "C" fn layer1_lookup_frame(control: &[u8]) -> u64
    ensures { result ≡ looked_up_frame_word (values_of_frame (lookup_frame_of control.now)) }
{
    exported::layer1_lookup_frame(control)
}
