// The working of a coded bit, as numbers in a row.
ghost use Rattle.std.specs.Prelude.{◌≡◌, length};
ghost use Rattle.workings.specs.Shown.{worked};
ghost use Rattle.workings_in.specs.Shown.{worked_in};
ghost use Rattle.words.specs.Words.{state_of};
ghost use Rattle.exported_places.specs.Left.{SmallWorked, numbers_of, working_left, working_left_by};

use runs::{Answer, State};
use words::answer_word;
use workings::Worked;

// The numbers of a working, in the order of the header's `layer1_worked`.
fn numbers(w: Worked) -> [u64; 25]
    requires { (length w.bits ≡ 7) × (length w.scrambling ≡ 7) }
    ensures { result ≡ numbers_of w }
{
    let b = w.bits;
    let s = w.scrambling;
    let writing = w.writing;
    let p = writing.position;
    [
        w.number as u64,
        w.generator as u64,
        u64::from(b[0]),
        u64::from(b[1]),
        u64::from(b[2]),
        u64::from(b[3]),
        u64::from(b[4]),
        u64::from(b[5]),
        u64::from(b[6]),
        u64::from(s[0]),
        u64::from(s[1]),
        u64::from(s[2]),
        u64::from(s[3]),
        u64::from(s[4]),
        u64::from(s[5]),
        u64::from(s[6]),
        w.sum as u64,
        w.coded as u64,
        writing.step as u64,
        writing.k as u64,
        p.block as u64,
        p.row as u64,
        p.partition as u64,
        p.column as u64,
        writing.cell as u64,
    ]
}

// Copies src to dst. By the library's method a call for C copies the whole working once more.
fn copy(src: &[u64], dst: &mut [u64])
    requires { length src.now ≡ length dst.old }
    ensures { dst.new ≡ src.now }
{
    for i in 0..src.len() {
        dst[i] = src[i];
    }
}

// Leaves the numbers of a working in the buffer, and gives its word.
fn leave(w: Worked, out: &mut [u64]) -> u64
    requires { SmallWorked w }
    ensures { working_left result out.new ≡ working_left_by w out.old }
{
    let answer = w.answer;
    if !causes::is_success(answer) {
        return answer_word(answer);
    }
    if out.len() != 25 {
        return answer_word(Answer::WrongLength(4));
    }
    let told = numbers(w);
    copy(&told, out);
    0
}

// The working of a coded bit of P1 (channel 1), PIDS (2), P3 (3) or P4 (4), of the L1 frame that a state comes before, as 25 numbers.
#[unsafe(no_mangle)]
pub extern "C" fn layer1_working(
    mode: u8,
    half: u8,
    age: u8,
    last: u8,
    channel: u8,
    frames: &[u8],
    frame: usize,
    bit: usize,
    out: &mut [u64],
) -> u64
    ensures { working_left result out.new
        ≡ working_left_by (worked (state_of mode half age last) channel frames.now frame bit) out.old }
{
    let state = State {
        mode,
        half,
        age,
        reserved: last,
    };
    let w = workings::working(state, channel, frames, frame, bit);
    leave(w, out)
}

// The working of a coded bit of P1 (channel 1), PIDS (2), P3 (3), P4 (4), P2 (5) or P1' (6), of the L1 frame that a state comes before, in any mode.
#[unsafe(no_mangle)]
pub extern "C" fn layer1_working_in(
    mode: u8,
    half: u8,
    age: u8,
    last: u8,
    channel: u8,
    frames: &[u8],
    frame: usize,
    bit: usize,
    out: &mut [u64],
) -> u64
    ensures { working_left result out.new
        ≡ working_left_by (worked_in (state_of mode half age last) channel frames.now frame bit) out.old }
{
    let state = State {
        mode,
        half,
        age,
        reserved: last,
    };
    let w = workings_in::working_in(state, channel, frames, frame, bit);
    leave(w, out)
}
