// Documents 01 and 02: reading an L1 frame.
#![tactic(auto)]

ghost use Rattle.std.specs.Prelude.{◌≡◌};
ghost use Rattle.runs.specs.Reading.{read_step};
ghost use Rattle.calls.specs.Called.{lent, memory, read_gave};

use calls::{FramesMut, MemoryMut, ReadOutcome, Signal, admit};
use causes::is_success;
use modes::reader_lengths;
use runs::State;

// Reads an L1 frame: returns its reserved number, its PIDS and P2 frames; its P1 frame, in MP5 and MP6 from the fourth on the P1 frames of the one three earlier; and from the third on the P3 and P4 frames of the one two earlier.
pub fn read(
    state: State,
    p1: &mut [u8],
    pids: &mut [u8],
    p2: &mut [u8],
    p3: &mut [u8],
    p4: &mut [u8],
    pm: &[u8],
    px1: &[u8],
    px2: &[u8],
    control: &[u8],
    memory3: &mut [u8],
    memory4: &mut [u8],
    delay: &mut [u8],
) -> ReadOutcome
    ensures { read_gave result (memory memory3.new memory4.new delay.new)
        (lent result.reserved p1.new pids.new p2.new p3.new p4.new pm.now px1.now px2.now control.now)
        ≡ read_step state (memory memory3.old memory4.old delay.old)
        (lent 0 p1.old pids.old p2.old p3.old p4.old pm.now px1.now px2.now control.now) }
{
    let have = [
        p1.len(),
        pids.len(),
        p2.len(),
        p3.len(),
        p4.len(),
        pm.len(),
        px1.len(),
        px2.len(),
        control.len(),
        memory3.len(),
        memory4.len(),
        delay.len(),
    ];
    let want = reader_lengths(state.mode);
    let answer = admit(state, 0, &have, &want);
    if !is_success(answer) {
        return ReadOutcome {
            answer,
            state,
            reserved: 0,
        };
    }
    let n1 = p1.len();
    let n2 = p2.len();
    let n3 = p3.len();
    let n4 = p4.len();
    let mut own1 = [0u8; 18272];
    let mut own16 = [0u8; 160];
    let mut own2 = [0u8; 13664];
    let mut own3 = [0u8; 4608];
    let mut own4 = [0u8; 4608];
    let mut frames = FramesMut {
        p1,
        pids,
        p2,
        p3,
        p4,
    };
    let signal = Signal {
        pm,
        px1,
        px2,
        control,
    };
    let mut memory = MemoryMut {
        for3: memory3,
        for4: memory4,
        delayed: delay,
    };
    let mut own = FramesMut {
        p1: &mut own1[..n1],
        pids: &mut own16,
        p2: &mut own2[..n2],
        p3: &mut own3[..n3],
        p4: &mut own4[..n4],
    };
    receiving::receive(state, &mut frames, &signal, &mut memory, &mut own)
}
