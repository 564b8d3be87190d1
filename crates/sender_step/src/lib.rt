// An L1 frame of the program `sender`, from the bytes of its input to the bytes that are written.
#![tactic(auto)]

ghost use Rattle.std.specs.Prelude.{◌≡◌, ◌+◌, ◌≤◌, length, take};
ghost use Rattle.io.specs.Counts.{IsPrefixLen};
ghost use Rattle.calls.specs.Called.{memory, signal};
ghost use Rattle.layout.specs.Inputs.{frames_in, handed};
ghost use Rattle.layout.specs.Layout.{bytes_of};
ghost use Rattle.run_input.specs.Inputs.{input_step};
ghost use Rattle.steps.specs.Steps.{step, step_of};
ghost use Rattle.sender_step.specs.Written.{send_bytes, signal_bytes};

use runs::State;
use steps::Stepped;

// Puts PM, PX1, PX2 and control.
fn put_signal(out: &mut [u8], pm: &[u8], px1: &[u8], px2: &[u8], control: &[u8]) -> usize
    requires { length pm.now + length px1.now + length px2.now + length control.now ≤ length out.old }
    ensures { IsPrefixLen result out.new × (take result out.new ≡ bytes_of (signal pm.now px1.now px2.now control.now)) }
{
    let a = text::put(out, 0, pm);
    let b = text::put(out, a, px1);
    let c = text::put(out, b, px2);
    text::put(out, c, control)
}

// Sends L1 frame `frame` into buffers of its signal, and puts what is written: PM, PX1, PX2 and control, or the lines of the refusal.
fn send_lent(
    state: State,
    n3: usize,
    n4: usize,
    frame: u64,
    input: &[u8],
    out: &mut [u8],
    pm: &mut [u8],
    px1: &mut [u8],
    px2: &mut [u8],
    control: &mut [u8],
    memory3: &mut [u8],
    memory4: &mut [u8],
    delay: &mut [u8],
) -> Stepped
    requires { (251 ≤ length out.old) × (length pm.old + length px1.old + length px2.old + length control.old ≤ length out.old) }
    ensures { IsPrefixLen result.length out.new
        × (step result.state (memory memory3.new memory4.new delay.new) result.done (take result.length out.new)
        ≡ step_of signal_bytes frame (input_step n3 n4 state (memory memory3.old memory4.old delay.old)
        (handed (frames_in state.mode n3 n4 input.now) (signal pm.old px1.old px2.old control.old)))) }
{
    let sent = run_input::send_input(
        state, n3, n4, input, pm, px1, px2, control, memory3, memory4, delay,
    );
    let answer = sent.answer;
    let next = sent.state;
    if !causes::is_success(answer) {
        let number = causes::number(answer);
        let place = causes::place(answer);
        let length = messages::put_in_words(out, number, place, frame);
        return Stepped {
            state: next,
            done: false,
            length,
        };
    }
    let length = put_signal(out, pm, px1, px2, control);
    Stepped {
        state: next,
        done: true,
        length,
    }
}

// Sends L1 frame `frame`, whose input has n3 and n4 bytes of P3 and P4, and puts what is written for it.
pub fn send_bytes(
    state: State,
    n3: usize,
    n4: usize,
    frame: u64,
    input: &[u8],
    out: &mut [u8],
    memory3: &mut [u8],
    memory4: &mut [u8],
    delay: &mut [u8],
) -> Stepped
    requires { 77824 ≤ length out.old }
    ensures { IsPrefixLen result.length out.new
        × (step result.state (memory memory3.new memory4.new delay.new) result.done (take result.length out.new)
        ≡ send_bytes n3 n4 frame state (memory memory3.old memory4.old delay.old) input.now) }
{
    let want = modes::sender_lengths(state.mode);
    let c = want[6];
    let d = want[7];
    let mut pm = [0u8; 46080];
    let mut px1 = [0u8; 9216];
    let mut px2 = [0u8; 18432];
    let mut control = [0u8; 4096];
    send_lent(
        state,
        n3,
        n4,
        frame,
        input,
        out,
        &mut pm,
        &mut px1[..c],
        &mut px2[..d],
        &mut control,
        memory3,
        memory4,
        delay,
    )
}
