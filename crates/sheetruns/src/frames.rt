// The L1 frames of an input sent one after the other, and their answers put.
ghost use Rattle.std.specs.Prelude.{◌≡◌, true, ◌++◌, ◌+◌, ◌*◌, ◌^◌, ◌≤◌, ◌<◌, length, take};
ghost use Rattle.runs.specs.Lengths.{sender_len};
ghost use Rattle.runs.specs.Starting.{zeros};
ghost use Rattle.calls.specs.Called.{memory};
ghost use Rattle.text.specs.Lines.{lines};
ghost use Rattle.text.specs.Put.{Put};
ghost use Rattle.sheettext.specs.Texts.{ending};
ghost use Rattle.sheetworks.specs.Works.{work_text};
ghost use Rattle.sheetlists.specs.Lists.{answered, asking};
ghost use Rattle.sheetinputs.specs.Inputs.{frame_size, older};
ghost use Rattle.sheetinputs.specs.Run.{sent};
ghost use Rattle.sheetruns.specs.Told.{no_frame, told, unsent};

use runs::Answer;
use sheetinputs::frame_size;
use sheetturns::take_turn;
use text::{field, put};

// Puts that an L1 frame is refused, and its answer.
pub fn put_no_frame(out: &mut [u8], t: u64, answer: Answer) -> usize
    requires { 91 ≤ length out.old }
    ensures { Put out.old out.new 0 result 91 (no_frame t answer) }
{
    let k = put(out, 0, b"NO SHEET FRAME ");
    let l = field(out, k, t, b' ');
    let m = put(out, l, b"NUMBER ");
    let n = field(out, m, causes::number(answer) as u64, b' ');
    let o = put(out, n, b"PLACE ");
    field(out, o, causes::place(answer) as u64, b'\n')
}

// Puts the answers that say LATER, and the last line.
fn put_last(
    out: &mut [u8],
    at: usize,
    mode: u8,
    count: u64,
    list: &[u8],
    work: bool,
    n3: usize,
    n4: usize,
    bytes: &[u8],
) -> usize
    requires { (count ≤ 64) × (at + 782 * asking mode count count (lines list.now) + 807 ≤ length out.old) × (length list.now < 4096) × (n3 ≤ 4608) × (n4 ≤ 4608) × (length bytes.now < 2 ^ 32) }
    ensures { Put out.old out.new at result (782 * asking mode count count (lines list.now) + 25)
        (unsent (work_text work mode n3 n4 bytes.now) mode count (lines list.now) ++ ending (answered mode count (lines list.now))) }
{
    let none = [0u8; 0];
    let m = sheetlists::put_answers(
        out, at, mode, count, count, list, &none, &none, &none, work, n3, n4, bytes,
    );
    let n = sheetlists::count_answers(mode, count, list);
    sheettext::put_end(out, m, n)
}

// Sends the L1 frames from a fresh start, puts the answers of each, those that say LATER, and the last line; where one is refused, that alone.
fn put_frames(
    mode: u8,
    count: u64,
    work: bool,
    n3: usize,
    n4: usize,
    list: &[u8],
    bytes: &[u8],
    memory3: &mut [u8],
    memory4: &mut [u8],
    delay: &mut [u8],
    out: &mut [u8],
    at: usize,
) -> usize
    requires { (older mode ≡ true) × (n3 ≤ 4608) × (n4 ≤ 4608) × (count ≤ 64) × (length bytes.now ≡ count * frame_size mode n3 n4) × (length list.now < 4096) × (at + 819400 ≤ length out.old)
        × (memory memory3.old memory4.old delay.old ≡ zeros sender_len mode) }
    ensures { (result ≤ length out.new) × (take result out.new ≡ told (work_text work mode n3 n4 bytes.now) mode count (lines list.now) 0 (take at out.old) (sent mode count n3 n4 bytes.now)) }
{
    let begun = calls::start_sender(mode, memory3, memory4, delay);
    let n = frame_size(mode, n3, n4);
    let mut state = begun.state;
    let mut end = at;
    let mut from: usize = 0;
    for t in 0..count {
        let to = from + n;
        let turned = take_turn(
            mode,
            count,
            t,
            state,
            n3,
            n4,
            &bytes[from..to],
            list,
            work,
            bytes,
            memory3,
            memory4,
            delay,
            out,
            end,
        );
        let answer = turned.answer;
        if !causes::is_success(answer) {
            return put_no_frame(out, t, answer);
        }
        state = turned.state;
        end = turned.end;
        from = to;
    }
    put_last(out, end, mode, count, list, work, n3, n4, bytes)
}

// The same, upon a memory of zeros of its lengths in this mode.
pub fn put_run(
    mode: u8,
    count: u64,
    work: bool,
    n3: usize,
    n4: usize,
    list: &[u8],
    bytes: &[u8],
    out: &mut [u8],
    at: usize,
) -> usize
    requires { (older mode ≡ true) × (n3 ≤ 4608) × (n4 ≤ 4608) × (count ≤ 64) × (length bytes.now ≡ count * frame_size mode n3 n4) × (length list.now < 4096) × (at + 819400 ≤ length out.old) }
    ensures { (result ≤ length out.new) × (take result out.new ≡ told (work_text work mode n3 n4 bytes.now) mode count (lines list.now) 0 (take at out.old) (sent mode count n3 n4 bytes.now)) }
{
    let want = modes::sender_lengths(mode);
    let c = want[9];
    let d = want[10];
    let mut memory3 = [0u8; 18432];
    let mut memory4 = [0u8; 18432];
    let mut delay = [0u8; 0];
    put_frames(
        mode,
        count,
        work,
        n3,
        n4,
        list,
        bytes,
        &mut memory3[..c],
        &mut memory4[..d],
        &mut delay,
        out,
        at,
    )
}
