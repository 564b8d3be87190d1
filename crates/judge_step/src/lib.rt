// The program `judge`: an L1 frame of a dump from its bytes to the bytes that are printed, and the line of a verdict.
#![tactic(auto)]

ghost use Rattle.std.specs.Prelude.{◌≡◌, ◌≤◌, length, take};
ghost use Rattle.io.specs.Counts.{IsPrefixLen};
ghost use Rattle.calls.specs.Called.{memory};
ghost use Rattle.judge_step.specs.Said.{after_last, judge_bytes, line_of, said};

use dumps::Verdict;
use runs::{Answer, State};

// Puts the line of a verdict, and behind a refusal the cause in words.
pub fn put_line(verdict: Verdict, out: &mut [u8]) -> usize
    requires { 251 ≤ length out.old }
    ensures { IsPrefixLen result out.new × (take result out.new ≡ line_of verdict) }
{
    let answer = verdict.answer;
    if causes::is_success(answer) {
        return text::put(out, 0, b"accepted\n");
    }
    let number = causes::number(answer);
    let place = causes::place(answer);
    let frame = verdict.frame;
    messages::put_in_words(out, number, place, frame as u64)
}

// The verdict after the last of `count` L1 frames.
fn after_last(more: bool, count: usize) -> Verdict
    ensures { result ≡ after_last more count }
{
    if more {
        return dumps::judged_as(Answer::WrongEnd, count);
    }
    dumps::judged_as(Answer::Success, 0)
}

// Puts the line after the last of `count` L1 frames.
pub fn put_last(more: bool, count: usize, out: &mut [u8]) -> usize
    requires { 251 ≤ length out.old }
    ensures { IsPrefixLen result out.new × (take result out.new ≡ line_of (after_last more count)) }
{
    put_line(after_last(more, count), out)
}

// The state after an L1 frame, and how many bytes are printed: none where the dump goes on.
#[derive(Clone, Copy)]
pub struct Judged {
    pub state: State,
    pub length: usize,
}

// Judges L1 frame t in these bytes, and puts what is printed for it.
pub fn judge_bytes(
    mode: u8,
    t: usize,
    state: State,
    bytes: &[u8],
    memory3: &mut [u8],
    memory4: &mut [u8],
    delay: &mut [u8],
    out: &mut [u8],
) -> Judged
    requires { 251 ≤ length out.old }
    ensures { IsPrefixLen result.length out.new
        × (said result.state (memory memory3.new memory4.new delay.new) (take result.length out.new)
        ≡ judge_bytes mode t state (memory memory3.old memory4.old delay.old) bytes.now) }
{
    let judged = dumps::judge_frame(mode, t, state, bytes, memory3, memory4, delay);
    let next = judged.state;
    let verdict = judged.verdict;
    let answer = verdict.answer;
    if causes::is_success(answer) {
        return Judged {
            state: next,
            length: 0,
        };
    }
    Judged {
        state: next,
        length: put_line(verdict, out),
    }
}
