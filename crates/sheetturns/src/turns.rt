// An L1 frame sent, and its answers put.
ghost use Rattle.std.specs.Prelude.{◌≡◌, true};
ghost use Rattle.runs.specs.Sending.{send_step};
ghost use Rattle.calls.specs.Called.{memory, signal};
ghost use Rattle.layout.specs.Inputs.{frames_in, handed};
ghost use Rattle.sheetworks.specs.Works.{work_text};
ghost use Rattle.sheetinputs.specs.Inputs.{older};
ghost use Rattle.sheetinputs.specs.Run.{blank};
ghost use Rattle.sheetturns.specs.Turned.{Asks, Turned};

use runs::{Answer, State};

// The answer of a sending, the state after it, and where the text ends.
#[derive(Clone, Copy)]
pub struct Turn {
    pub answer: Answer,
    pub state: State,
    pub end: usize,
}

// Sends L1 frame t, and puts its answers, with workings from the bytes of all L1 frames; refused, it puts none.
fn send_and_put(
    mode: u8,
    count: u64,
    t: u64,
    state: State,
    n3: usize,
    n4: usize,
    bytes: &[u8],
    list: &[u8],
    work: bool,
    all: &[u8],
    pm: &mut [u8],
    px1: &mut [u8],
    px2: &mut [u8],
    control: &mut [u8],
    memory3: &mut [u8],
    memory4: &mut [u8],
    delay: &mut [u8],
    out: &mut [u8],
    at: usize,
) -> Turn
    requires { Asks mode count t n3 n4 list.now all.now out.old at }
    ensures { Turned (send_step state (memory memory3.old memory4.old delay.old) (handed (frames_in state.mode n3 n4 bytes.now) (signal pm.old px1.old px2.old control.old)))
        (work_text work mode n3 n4 all.now) mode count t list.now out.old out.new at result (memory memory3.new memory4.new delay.new) }
{
    let sent = run_input::send_frame(
        state, n3, n4, bytes, pm, px1, px2, control, memory3, memory4, delay,
    );
    let answer = sent.answer;
    let next = sent.state;
    if !causes::is_success(answer) {
        return Turn {
            answer,
            state: next,
            end: at,
        };
    }
    let end = sheetlists::put_answers(
        out, at, mode, count, t, list, pm, px1, px2, work, n3, n4, all,
    );
    Turn {
        answer,
        state: next,
        end,
    }
}

// The same, upon matrices of zeros, each of its length in this mode.
pub fn take_turn(
    mode: u8,
    count: u64,
    t: u64,
    state: State,
    n3: usize,
    n4: usize,
    bytes: &[u8],
    list: &[u8],
    work: bool,
    all: &[u8],
    memory3: &mut [u8],
    memory4: &mut [u8],
    delay: &mut [u8],
    out: &mut [u8],
    at: usize,
) -> Turn
    requires { (state.mode ≡ mode) × (older mode ≡ true) × Asks mode count t n3 n4 list.now all.now out.old at }
    ensures { Turned (send_step state (memory memory3.old memory4.old delay.old) (handed (frames_in mode n3 n4 bytes.now) (blank mode)))
        (work_text work mode n3 n4 all.now) mode count t list.now out.old out.new at result (memory memory3.new memory4.new delay.new) }
{
    let want = modes::sender_lengths(mode);
    let c = want[6];
    let d = want[7];
    let mut pm = [0u8; 46080];
    let mut px1 = [0u8; 9216];
    let mut px2 = [0u8; 9216];
    let mut control = [0u8; 4096];
    send_and_put(
        mode,
        count,
        t,
        state,
        n3,
        n4,
        bytes,
        list,
        work,
        all,
        &mut pm,
        &mut px1[..c],
        &mut px2[..d],
        &mut control,
        memory3,
        memory4,
        delay,
        out,
        at,
    )
}
