// Document 01: reading an L1 frame.
ghost use Rattle.std.specs.Prelude.{◌≡◌};
ghost use Rattle.runs.specs.Reading.{read_step};
ghost use Rattle.calls.specs.Called.{lent, memory};
ghost use Rattle.exported_runs.specs.Left.{left, left_by};
ghost use Rattle.words.specs.Words.{number_read, state_of};

// Reads an L1 frame. Its reserved number is in the word.
#[unsafe(no_mangle)]
pub extern "C" fn layer1_read(
    mode: u8,
    half: u8,
    age: u8,
    last: u8,
    p1: &mut [u8],
    pids: &mut [u8],
    p2: &mut [u8],
    p3: &mut [u8],
    p4: &mut [u8],
    pm: &[u8],
    px1: &[u8],
    px2: &[u8],
    control: &[u8],
    memory3: &mut [u8],
    memory4: &mut [u8],
    delay: &mut [u8],
) -> u64
    ensures { left result (memory memory3.new memory4.new delay.new)
        (lent (number_read result) p1.new pids.new p2.new p3.new p4.new pm.now px1.now px2.now control.now)
        ≡ left_by (read_step (state_of mode half age last) (memory memory3.old memory4.old delay.old)
        (lent 0 p1.old pids.old p2.old p3.old p4.old pm.now px1.now px2.now control.now)) }
{
    exported_runs::layer1_read(
        mode, half, age, last, p1, pids, p2, p3, p4, pm, px1, px2, control, memory3, memory4, delay,
    )
}
