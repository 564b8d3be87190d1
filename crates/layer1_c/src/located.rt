// Into which cell a coded bit goes.
ghost use Rattle.std.specs.Prelude.{◌≡◌};
ghost use Rattle.locating.specs.Locator.{located, values};
ghost use Rattle.locating.specs.LocatorPX.{located_px, values as values_px};
ghost use Rattle.finding.specs.Locator.{located_in};
ghost use Rattle.finding_px.specs.Locator.{located_px_in};
ghost use Rattle.words.specs.Words.{located_px_word, located_word, state_of};

// Into which cell of PM a coded bit of P1 (channel 1) or PIDS (channel 2) goes.
#[unsafe(no_mangle)]
pub extern "C" fn layer1_locate(channel: u8, frame: usize, bit: usize) -> u64
    ensures { result ≡ located_word (values (located channel frame bit)) }
{
    exported_places::layer1_locate(channel, frame, bit)
}

// Into which cell of PX1 (channel 3) or PX2 (channel 4) a coded bit of P3 or P4 goes, of the L1 frame that a state comes before.
#[unsafe(no_mangle)]
pub extern "C" fn layer1_locate_px(
    mode: u8,
    half: u8,
    age: u8,
    last: u8,
    channel: u8,
    frame: usize,
    bit: usize,
) -> u64
    ensures { result ≡ located_px_word (values_px (located_px (state_of mode half age last) channel frame bit)) }
{
    exported_places::layer1_locate_px(mode, half, age, last, channel, frame, bit)
}

// Into which cell of PM a coded bit of P1 (channel 1), PIDS (2) or P2 (5) goes, in any mode.
#[unsafe(no_mangle)]
pub extern "C" fn layer1_locate_in(mode: u8, channel: u8, frame: usize, bit: usize) -> u64
    ensures { result ≡ located_word (values (located_in mode channel frame bit)) }
{
    exported_places::layer1_locate_in(mode, channel, frame, bit)
}

// Into which cell of PX1 or PX2 a coded bit of P3 (channel 3), P4 (4) or P1' (6) goes, of the L1 frame that a state comes before, in any mode.
#[unsafe(no_mangle)]
pub extern "C" fn layer1_locate_px_in(
    mode: u8,
    half: u8,
    age: u8,
    last: u8,
    channel: u8,
    frame: usize,
    bit: usize,
) -> u64
    ensures { result ≡ located_px_word (values_px (located_px_in (state_of mode half age last) channel frame bit)) }
{
    exported_places::layer1_locate_px_in(mode, half, age, last, channel, frame, bit)
}
