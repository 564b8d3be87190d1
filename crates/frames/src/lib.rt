// Reading an L1 frame of a dump, or of a reader's input: PM, PX1, PX2 and control end to end.
#![tactic(auto)]

ghost use Rattle.std.specs.Prelude.{◌≡◌};
ghost use Rattle.runs.specs.Reading.{read_step};
ghost use Rattle.calls.specs.Called.{frames, memory, read_gave};
ghost use Rattle.layout.specs.Layout.{signal_in};
ghost use Rattle.frames.specs.Read.{handed, read_frame};

use calls::ReadOutcome;
use layout::end_of;
use modes::reader_lengths;
use runs::State;

// Reads the L1 frame that lies in these bytes. Where they end early, a buffer is lent that is too short, and refused.
pub fn read_bytes(
    mode: u8,
    state: State,
    bytes: &[u8],
    p1: &mut [u8],
    pids: &mut [u8],
    p2: &mut [u8],
    p3: &mut [u8],
    p4: &mut [u8],
    memory3: &mut [u8],
    memory4: &mut [u8],
    delay: &mut [u8],
) -> ReadOutcome
    ensures { read_gave result (memory memory3.new memory4.new delay.new) (handed (frames result.reserved p1.new pids.new p2.new p3.new p4.new) (signal_in mode bytes.now))
        ≡ read_step state (memory memory3.old memory4.old delay.old) (handed (frames 0 p1.old pids.old p2.old p3.old p4.old) (signal_in mode bytes.now)) }
{
    let n = bytes.len();
    let want = reader_lengths(mode);
    let a = end_of(0, want[5], n);
    let b = end_of(a, want[6], n);
    let c = end_of(b, want[7], n);
    let d = end_of(c, want[8], n);
    reading::read(
        state,
        p1,
        pids,
        p2,
        p3,
        p4,
        &bytes[..a],
        &bytes[a..b],
        &bytes[b..c],
        &bytes[c..d],
        memory3,
        memory4,
        delay,
    )
}

// Reads an L1 frame of a dump into frames of its own, which nobody is shown.
pub fn read_frame(
    mode: u8,
    state: State,
    bytes: &[u8],
    memory3: &mut [u8],
    memory4: &mut [u8],
    delay: &mut [u8],
) -> ReadOutcome
    ensures { (result.answer ≡ (read_frame mode state (memory memory3.old memory4.old delay.old) bytes.now).answer)
        × (result.state ≡ (read_frame mode state (memory memory3.old memory4.old delay.old) bytes.now).state)
        × (memory memory3.new memory4.new delay.new ≡ (read_frame mode state (memory memory3.old memory4.old delay.old) bytes.now).memory)
        × (result.reserved ≡ (read_frame mode state (memory memory3.old memory4.old delay.old) bytes.now).lent.frames.reserved) }
{
    let want = reader_lengths(mode);
    let n1 = want[0];
    let n2 = want[2];
    let n3 = want[3];
    let n4 = want[4];
    let mut p1 = [0u8; 18272];
    let mut pids = [0u8; 160];
    let mut p2 = [0u8; 13664];
    let mut p3 = [0u8; 4608];
    let mut p4 = [0u8; 4608];
    read_bytes(
        mode,
        state,
        bytes,
        &mut p1[..n1],
        &mut pids,
        &mut p2[..n2],
        &mut p3[..n3],
        &mut p4[..n4],
        memory3,
        memory4,
        delay,
    )
}
