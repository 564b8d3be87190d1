// Documents 01 and 02: sending an L1 frame.
#![tactic(auto)]

ghost use Rattle.std.specs.Prelude.{◌≡◌};
ghost use Rattle.runs.specs.Lengths.{sender_len};
ghost use Rattle.runs.specs.Lent.{filled, meant, memory_next, signal_of};
ghost use Rattle.runs.specs.Sending.{send_step};
ghost use Rattle.calls.specs.Fits.{Fits};
ghost use Rattle.calls.specs.Called.{frames, gave, lent, memory, signal};

use calls::{Outcome, admit, next_of};
use causes::is_success;
use modes::{kind_of, main_of, meant_len, sender_lengths};
use runs::{Extended, State};

// Writes the matrices and control sequences of an L1 frame, and the sender's memory.
fn write(
    state: State,
    reserved: u8,
    p1: &[u8],
    pids: &[u8],
    p2: &[u8],
    p3: &[u8],
    p4: &[u8],
    pm: &mut [u8],
    px1: &mut [u8],
    px2: &mut [u8],
    control: &mut [u8],
    memory3: &mut [u8],
    memory4: &mut [u8],
    delay: &mut [u8],
)
    requires { Fits sender_len state (memory memory3.old memory4.old delay.old) (meant state.mode (lent reserved p1.now pids.now p2.now p3.now p4.now pm.old px1.old px2.old control.old)) }
    ensures control_after { signal pm.new px1.new px2.new control.new ≡ signal_of state.mode state.half (memory memory3.old memory4.old delay.old) (filled state.mode (frames reserved p1.now pids.now p2.now p3.now p4.now)) }
    ensures delay_after { memory memory3.new memory4.new delay.new ≡ memory_next state.mode state.half (memory memory3.old memory4.old delay.old) (filled state.mode (frames reserved p1.now pids.now p2.now p3.now p4.now)) }
{
    let main = main_of(state.mode);
    let half = state.half;
    chain::write_px2(
        main,
        kind_of(state.mode, Extended::P4),
        half,
        p4,
        delay,
        px2,
        memory4,
    );
    chain::write_pm(main, p1, p2, pids, delay, pm);
    chain::write_px(kind_of(state.mode, Extended::P3), half, p3, px1, memory3);
    control::fill_control(state.mode, reserved, control);
}

// Sends an L1 frame: writes its matrices and control sequences from the transfer frames lent and its reserved number, and the sender's memory. Nothing lent for P3 or P4 stands for eight frames of zeros (document 02, S-5).
pub fn send(
    state: State,
    reserved: u8,
    p1: &[u8],
    pids: &[u8],
    p2: &[u8],
    p3: &[u8],
    p4: &[u8],
    pm: &mut [u8],
    px1: &mut [u8],
    px2: &mut [u8],
    control: &mut [u8],
    memory3: &mut [u8],
    memory4: &mut [u8],
    delay: &mut [u8],
) -> Outcome
    ensures { gave result (memory memory3.new memory4.new delay.new) (lent reserved p1.now pids.now p2.now p3.now p4.now pm.new px1.new px2.new control.new)
        ≡ send_step state (memory memory3.old memory4.old delay.old) (lent reserved p1.now pids.now p2.now p3.now p4.now pm.old px1.old px2.old control.old) }
{
    let want = sender_lengths(state.mode);
    let have = [
        p1.len(),
        pids.len(),
        p2.len(),
        meant_len(p3.len(), want[3]),
        meant_len(p4.len(), want[4]),
        pm.len(),
        px1.len(),
        px2.len(),
        control.len(),
        memory3.len(),
        memory4.len(),
        delay.len(),
    ];
    let answer = admit(state, reserved, &have, &want);
    let next = next_of(state, reserved);
    if !is_success(answer) {
        return Outcome { answer, state };
    }
    write(
        state, reserved, p1, pids, p2, p3, p4, pm, px1, px2, control, memory3, memory4, delay,
    );
    Outcome {
        answer,
        state: next,
    }
}
