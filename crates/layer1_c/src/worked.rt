// The working of a coded bit, as numbers in a row.
ghost use Rattle.std.specs.Prelude.{◌≡◌};
ghost use Rattle.workings.specs.Shown.{worked};
ghost use Rattle.workings_in.specs.Shown.{worked_in};
ghost use Rattle.words.specs.Words.{state_of};
ghost use Rattle.exported_places.specs.Left.{working_left, working_left_by};

// The working of a coded bit of P1 (channel 1), PIDS (2), P3 (3) or P4 (4), of the L1 frame that a state comes before, as 25 numbers.
#[unsafe(no_mangle)]
pub extern "C" fn layer1_working(
    mode: u8,
    half: u8,
    age: u8,
    last: u8,
    channel: u8,
    frames: &[u8],
    frame: usize,
    bit: usize,
    out: &mut [u64],
) -> u64
    ensures { working_left result out.new
        ≡ working_left_by (worked (state_of mode half age last) channel frames.now frame bit) out.old }
{
    exported_places::layer1_working(mode, half, age, last, channel, frames, frame, bit, out)
}

// The working of a coded bit of P1 (channel 1), PIDS (2), P3 (3), P4 (4), P2 (5) or P1' (6), of the L1 frame that a state comes before, in any mode.
#[unsafe(no_mangle)]
pub extern "C" fn layer1_working_in(
    mode: u8,
    half: u8,
    age: u8,
    last: u8,
    channel: u8,
    frames: &[u8],
    frame: usize,
    bit: usize,
    out: &mut [u64],
) -> u64
    ensures { working_left result out.new
        ≡ working_left_by (worked_in (state_of mode half age last) channel frames.now frame bit) out.old }
{
    exported_places::layer1_working_in(mode, half, age, last, channel, frames, frame, bit, out)
}
