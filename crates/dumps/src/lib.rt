// Document 02, S-13: judging a dump.
#![tactic(auto)]

ghost use Rattle.std.specs.Prelude.{◌≡◌};
ghost use Rattle.runs.specs.Lengths.{reader_len};
ghost use Rattle.runs.specs.Starting.{zeros};
ghost use Rattle.calls.specs.Called.{memory};
ghost use Rattle.dumps.specs.Next.{judged_one, next};
ghost use Rattle.dumps.specs.Judged.{judged, judged_fresh, verdict};

use calls::start_reader;
use causes::is_success;
use frames::read_frame;
use layout::{frame_bytes, head_answer, word_at};
use modes::reader_lengths;
use runs::{Answer, State};

// An answer, and the number of the L1 frame that it is given for.
#[derive(Clone, Copy)]
pub struct Verdict {
    pub answer: Answer,
    pub frame: usize,
}

pub fn judged_as(answer: Answer, frame: usize) -> Verdict
    ensures { result ≡ verdict answer frame }
{
    Verdict { answer, frame }
}

// What is said of an L1 frame, and the state after it.
#[derive(Clone, Copy)]
pub struct Judged {
    pub verdict: Verdict,
    pub state: State,
}

// Judges L1 frame t of a dump from the bytes that are left: cut short, refused, or, with the number 0, accepted.
pub fn judge_frame(
    mode: u8,
    t: usize,
    state: State,
    bytes: &[u8],
    memory3: &mut [u8],
    memory4: &mut [u8],
    delay: &mut [u8],
) -> Judged
    ensures { next result (memory memory3.new memory4.new delay.new)
        ≡ judged_one mode t state (memory memory3.old memory4.old delay.old) bytes.now }
{
    let n = frame_bytes(mode);
    if bytes.len() < n {
        return Judged {
            verdict: judged_as(Answer::WrongEnd, t),
            state,
        };
    }
    let read = read_frame(mode, state, &bytes[..n], memory3, memory4, delay);
    let answer = read.answer;
    let next = read.state;
    Judged {
        verdict: judged_as(answer, t),
        state: next,
    }
}

// Judges the L1 frames of a dump, which follow its header.
fn judge_frames(
    mode: u8,
    count: usize,
    frames: &[u8],
    memory3: &mut [u8],
    memory4: &mut [u8],
    delay: &mut [u8],
) -> Verdict
    requires { memory memory3.old memory4.old delay.old ≡ zeros reader_len mode }
    ensures { result ≡ judged_fresh mode count frames.now }
{
    let begun = start_reader(mode, memory3, memory4, delay);
    let n = frame_bytes(mode);
    let mut state = begun.state;
    let mut at: usize = 0;
    for t in 0..count {
        let judged = judge_frame(mode, t, state, &frames[at..], memory3, memory4, delay);
        let verdict = judged.verdict;
        let answer = verdict.answer;
        if !is_success(answer) {
            return verdict;
        }
        state = judged.state;
        at += n;
    }
    if at < frames.len() {
        return judged_as(Answer::WrongEnd, count);
    }
    judged_as(Answer::Success, 0)
}

// Judges a dump: its header, then its L1 frames in order, as a reader begun fresh reads them.
pub fn judge(dump: &[u8]) -> Verdict
    ensures { result ≡ judged dump.now }
{
    let head = head_answer(dump);
    if !is_success(head) {
        return judged_as(head, 0);
    }
    let mode = dump[5];
    let count = word_at(dump, 6);
    let want = reader_lengths(mode);
    let n3 = want[9];
    let n4 = want[10];
    let nd = want[11];
    let mut memory3 = [0u8; 27648];
    let mut memory4 = [0u8; 27648];
    let mut delay = [0u8; 27648];
    judge_frames(
        mode,
        count,
        &dump[8..],
        &mut memory3[..n3],
        &mut memory4[..n4],
        &mut delay[..nd],
    )
}
