// An L1 frame of the program `reader`, from the bytes of its input to the bytes that are written.
#![tactic(auto)]

ghost use Rattle.std.specs.Prelude.{◌≡◌, ◌+◌, ◌≤◌, ltb, length, take};
ghost use Rattle.io.specs.Counts.{IsPrefixLen};
ghost use Rattle.runs.specs.Reading.{read_step};
ghost use Rattle.calls.specs.Called.{frames, memory};
ghost use Rattle.layout.specs.Layout.{signal_in};
ghost use Rattle.frames.specs.Read.{handed};
ghost use Rattle.text.specs.Put.{Put};
ghost use Rattle.steps.specs.Steps.{step, step_of};
ghost use Rattle.reader_step.specs.Returned.{frame_bytes, p1_waits, read_bytes, returned, unless};

use runs::State;
use steps::Stepped;

// Whether P1 waits.
fn p1_waits(age: u8, delay: &[u8]) -> bool
    ensures { result ≡ p1_waits age delay.now }
{
    if age < 3 {
        return 0 < delay.len();
    }
    false
}

// Whether P3 and P4 wait.
fn extended_wait(age: u8) -> bool
    ensures { result ≡ ltb age 2 }
{
    age < 2
}

// Puts a frame, unless it waits.
fn put_unless(waits: bool, out: &mut [u8], at: usize, frame: &[u8]) -> usize
    requires { at + length frame.now ≤ length out.old }
    ensures { Put out.old out.new at result (length frame.now) (unless waits frame.now) }
{
    if waits {
        return text::put(out, at, b"");
    }
    text::put(out, at, frame)
}

// Puts what a reading returns.
fn put_returned(
    out: &mut [u8],
    age: u8,
    reserved: u8,
    p1: &[u8],
    pids: &[u8],
    p2: &[u8],
    p3: &[u8],
    p4: &[u8],
    delay: &[u8],
) -> usize
    requires { 1 + length p1.now + length pids.now + length p2.now + length p3.now + length p4.now ≤ length out.old }
    ensures { IsPrefixLen result out.new × (take result out.new
        ≡ returned age delay.now (frames reserved p1.now pids.now p2.now p3.now p4.now)) }
{
    let late1 = p1_waits(age, delay);
    let late3 = extended_wait(age);
    let a = text::put(out, 0, &[reserved; 1]);
    let b = put_unless(late1, out, a, p1);
    let c = text::put(out, b, pids);
    let d = text::put(out, c, p2);
    let e = put_unless(late3, out, d, p3);
    put_unless(late3, out, e, p4)
}

// Reads L1 frame `frame` into buffers of its frames, and puts what is written: what it returns, or the lines of the refusal.
fn read_lent(
    state: State,
    frame: u64,
    input: &[u8],
    out: &mut [u8],
    p1: &mut [u8],
    pids: &mut [u8],
    p2: &mut [u8],
    p3: &mut [u8],
    p4: &mut [u8],
    memory3: &mut [u8],
    memory4: &mut [u8],
    delay: &mut [u8],
) -> Stepped
    requires { (251 ≤ length out.old)
        × (1 + length p1.old + length pids.old + length p2.old + length p3.old + length p4.old ≤ length out.old) }
    ensures { IsPrefixLen result.length out.new
        × (step result.state (memory memory3.new memory4.new delay.new) result.done (take result.length out.new)
        ≡ step_of (frame_bytes state.age) frame (read_step state (memory memory3.old memory4.old delay.old)
        (handed (frames 0 p1.old pids.old p2.old p3.old p4.old) (signal_in state.mode input.now)))) }
{
    let age = state.age;
    let mode = state.mode;
    let read = frames::read_bytes(
        mode, state, input, p1, pids, p2, p3, p4, memory3, memory4, delay,
    );
    let answer = read.answer;
    let next = read.state;
    let reserved = read.reserved;
    if !causes::is_success(answer) {
        let number = causes::number(answer);
        let place = causes::place(answer);
        let length = messages::put_in_words(out, number, place, frame);
        return Stepped {
            state: next,
            done: false,
            length,
        };
    }
    let length = put_returned(out, age, reserved, p1, pids, p2, p3, p4, delay);
    Stepped {
        state: next,
        done: true,
        length,
    }
}

// Reads L1 frame `frame` from the bytes of its input, and puts what is written for it. Bytes that end early are refused.
pub fn read_bytes(
    state: State,
    frame: u64,
    input: &[u8],
    out: &mut [u8],
    memory3: &mut [u8],
    memory4: &mut [u8],
    delay: &mut [u8],
) -> Stepped
    requires { 41313 ≤ length out.old }
    ensures { IsPrefixLen result.length out.new
        × (step result.state (memory memory3.new memory4.new delay.new) result.done (take result.length out.new)
        ≡ read_bytes frame state (memory memory3.old memory4.old delay.old) input.now) }
{
    let want = modes::reader_lengths(state.mode);
    let n1 = want[0];
    let n2 = want[2];
    let n3 = want[3];
    let n4 = want[4];
    let mut p1 = [0u8; 18272];
    let mut pids = [0u8; 160];
    let mut p2 = [0u8; 13664];
    let mut p3 = [0u8; 4608];
    let mut p4 = [0u8; 4608];
    read_lent(
        state,
        frame,
        input,
        out,
        &mut p1[..n1],
        &mut pids,
        &mut p2[..n2],
        &mut p3[..n3],
        &mut p4[..n4],
        memory3,
        memory4,
        delay,
    )
}
