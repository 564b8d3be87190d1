// Document 01: sending an L1 frame.
ghost use Rattle.std.specs.Prelude.{◌≡◌};
ghost use Rattle.runs.specs.Sending.{send_step};
ghost use Rattle.calls.specs.Called.{lent, memory};
ghost use Rattle.exported_runs.specs.Left.{left, left_by};
ghost use Rattle.words.specs.Words.{state_of};

// Sends an L1 frame: the state is mode, half, age and the last number sent, and `reserved` the number of this L1 frame.
#[unsafe(no_mangle)]
pub extern "C" fn layer1_send(
    mode: u8,
    half: u8,
    age: u8,
    last: u8,
    reserved: u8,
    p1: &[u8],
    pids: &[u8],
    p2: &[u8],
    p3: &[u8],
    p4: &[u8],
    pm: &mut [u8],
    px1: &mut [u8],
    px2: &mut [u8],
    control: &mut [u8],
    memory3: &mut [u8],
    memory4: &mut [u8],
    delay: &mut [u8],
) -> u64
    ensures { left result (memory memory3.new memory4.new delay.new)
        (lent reserved p1.now pids.now p2.now p3.now p4.now pm.new px1.new px2.new control.new)
        ≡ left_by (send_step (state_of mode half age last) (memory memory3.old memory4.old delay.old)
        (lent reserved p1.now pids.now p2.now p3.now p4.now pm.old px1.old px2.old control.old)) }
{
    exported_runs::layer1_send(
        mode, half, age, last, reserved, p1, pids, p2, p3, p4, pm, px1, px2, control, memory3,
        memory4, delay,
    )
}
