// An L1 frame to be sent from a program's input, in which its number and its transfer frames lie end to end.
ghost use Rattle.std.specs.Prelude.{◌≡◌, ◌+◌, ◌≤◌, min, get_or};
ghost use Rattle.runs.specs.MainChannels.{main_of, p1_len, p2_len};
ghost use Rattle.runs.specs.Lengths.{pids_len};
ghost use Rattle.runs.specs.Sending.{send_step};
ghost use Rattle.calls.specs.Called.{gave, memory, signal};
ghost use Rattle.layout.specs.Inputs.{handed};
ghost use Rattle.run_input.specs.Inputs.{frames_in, input_step, whole_answer};
ghost use Rattle.run_input.specs.Ends.{EndsIn};

use calls::Outcome;
use layout::end_of;
use runs::{Answer, State};

// The bytes of a channel's eight frames, of which no mode has more than these.
fn capped(n: usize) -> usize
    ensures { (result ≡ min 4608 n) × (result ≤ 4608) }
{
    if n < 4608 {
        return n;
    }
    4608
}

// The bytes of an L1 frame's number and transfer frames, P1, PIDS, P2, P3 and P4, in this mode; of P3 and P4 there are n3 and n4.
pub fn frames_length(mode: u8, n3: usize, n4: usize) -> usize
    ensures { result ≡ 1 + p1_len (main_of mode) + pids_len + p2_len (main_of mode) + min 4608 n3 + min 4608 n4 }
{
    let want = modes::sender_lengths(mode);
    let p3 = capped(n3);
    let p4 = capped(n4);
    1 + want[0] + want[1] + want[2] + p3 + p4
}

// The number of the L1 frame in the input.
pub fn number_of(input: &[u8]) -> u8
    ensures { result ≡ get_or input.now 0 0 }
{
    if input.len() == 0 {
        return 0;
    }
    input[0]
}

// Where the number and the transfer frames of an L1 frame end in an input, one behind the other.
#[derive(Clone, Copy)]
struct Ends {
    number: usize,
    p1: usize,
    pids: usize,
    p2: usize,
    p3: usize,
    p4: usize,
}

// Where they end in n bytes, with these many bytes of P3 and P4.
fn ends_in(mode: u8, n3: usize, n4: usize, n: usize) -> Ends
    ensures { EndsIn mode n3 n4 n result }
{
    let want = modes::sender_lengths(mode);
    let number = end_of(0, 1, n);
    let p1 = end_of(number, want[0], n);
    let pids = end_of(p1, want[1], n);
    let p2 = end_of(pids, want[2], n);
    let p3 = end_of(p2, n3, n);
    let p4 = end_of(p3, n4, n);
    Ends {
        number,
        p1,
        pids,
        p2,
        p3,
        p4,
    }
}

// Sends the L1 frame whose number and transfer frames lie in the input, with these many bytes of P3 and P4, none of a channel without data (document 02, S-5).
pub fn send_frame(
    state: State,
    n3: usize,
    n4: usize,
    input: &[u8],
    pm: &mut [u8],
    px1: &mut [u8],
    px2: &mut [u8],
    control: &mut [u8],
    memory3: &mut [u8],
    memory4: &mut [u8],
    delay: &mut [u8],
) -> Outcome
    ensures { gave result (memory memory3.new memory4.new delay.new) (handed (frames_in state.mode n3 n4 input.now) (signal pm.new px1.new px2.new control.new))
        ≡ send_step state (memory memory3.old memory4.old delay.old) (handed (frames_in state.mode n3 n4 input.now) (signal pm.old px1.old px2.old control.old)) }
{
    let ends = ends_in(state.mode, n3, n4, input.len());
    let z = ends.number;
    let a = ends.p1;
    let b = ends.pids;
    let c = ends.p2;
    let d = ends.p3;
    let e = ends.p4;
    sending::send(
        state,
        number_of(input),
        &input[z..a],
        &input[a..b],
        &input[b..c],
        &input[c..d],
        &input[d..e],
        pm,
        px1,
        px2,
        control,
        memory3,
        memory4,
        delay,
    )
}

// What a sending of an input looks at first: state, number, and whether the input's end has cut off any of the transfer frames.
fn whole_answer(state: State, n3: usize, n4: usize, input: &[u8]) -> Answer
    ensures { result ≡ whole_answer n3 n4 state (frames_in state.mode n3 n4 input.now) }
{
    let want = modes::sender_lengths(state.mode);
    let ends = ends_in(state.mode, n3, n4, input.len());
    let have = [
        ends.p1 - ends.number,
        ends.pids - ends.p1,
        ends.p2 - ends.pids,
        ends.p3 - ends.p2,
        ends.p4 - ends.p3,
    ];
    let whole = [want[0], want[1], want[2], n3, n4];
    calls::admit(state, number_of(input), &have, &whole)
}

// Sends it as `send_frame` does, but what the input's end has cut off is refused, and never taken for no data.
pub fn send_input(
    state: State,
    n3: usize,
    n4: usize,
    input: &[u8],
    pm: &mut [u8],
    px1: &mut [u8],
    px2: &mut [u8],
    control: &mut [u8],
    memory3: &mut [u8],
    memory4: &mut [u8],
    delay: &mut [u8],
) -> Outcome
    ensures { gave result (memory memory3.new memory4.new delay.new) (handed (frames_in state.mode n3 n4 input.now) (signal pm.new px1.new px2.new control.new))
        ≡ input_step n3 n4 state (memory memory3.old memory4.old delay.old) (handed (frames_in state.mode n3 n4 input.now) (signal pm.old px1.old px2.old control.old)) }
{
    let answer = whole_answer(state, n3, n4, input);
    if !causes::is_success(answer) {
        return Outcome { answer, state };
    }
    send_frame(
        state, n3, n4, input, pm, px1, px2, control, memory3, memory4, delay,
    )
}
