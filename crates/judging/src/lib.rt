// Documents 01 and 02, causes 4 to 8 of a reading: an L1 frame is judged, and its transfer frames are recovered.
#![tactic(auto)]

ghost use Rattle.std.specs.Prelude.{◌≡◌, ◌+◌, ◌≤◌, ◌<◌, length};
ghost use Rattle.bits.specs.Tests.{lowest};
ghost use Rattle.runs.specs.declared.Extended.TheVariants.{P3, P4};
ghost use Rattle.runs.specs.Answers.{number_of};
ghost use Rattle.runs.specs.MainChannels.{main_of, delay_len, p1_frames};
ghost use Rattle.runs.specs.Chain.{Buffer, frame_bad, frames_of, p1_of, p2_of};
ghost use Rattle.runs.specs.Paths.{oldest};
ghost use Rattle.runs.specs.Lengths.{kind_of, frame_len, matrix_len, px2_len, reader_len};
ghost use Rattle.runs.specs.Judged.{counted_first, main_bad};
ghost use Rattle.runs.specs.Lent.{p1'_in};
ghost use Rattle.runs.specs.Reading.{push};
ghost use Rattle.calls.specs.Called.{SameFrames, frames_behind_mut, lent_to_read, memory_behind, signal_behind};
ghost use Rattle.calls.specs.Fits.{Fits};
ghost use Rattle.recover.specs.Rooms.{late_bad};
ghost use Rattle.judging.specs.Stages.{Brought, Extends, Recovered, after, fill_answer, fill_cells, fill_row, fourth, frames_answer, lower as «lower_of», pm_answer, px_answer, signal_answer};

use calls::{FramesMut, Memory, Signal};
use causes::is_success;
use modes::{kind_of, main_of, matrix_len};
use recover::past;
use runs::{Answer, Extended, Main, State};

// The lower of two places, where 8 is none of the second.
fn lower(place: usize, late: usize) -> usize
    ensures { result ≡ «lower_of» place late }
{
    if late == 8 {
        return place;
    }
    if late < place {
        return late;
    }
    place
}

// The lowest P1 frame whose second path has come, and is no coded frame or disagrees; 8 where there is none.
fn late_place(state: State, signal: &Signal, memory: &Memory) -> usize
    requires { (length signal.now.px2.now ≡ px2_len state.mode) × (length memory.now.delayed.now ≡ delay_len (main_of state.mode)) }
    ensures { (s : Buffer) → result ≡ lowest 8 (late_bad (main_of state.mode) state.age (p1'_in state.mode (signal_behind signal.now).matrices) (oldest (main_of state.mode) memory.now.delayed.now s)) }
{
    let age = state.age;
    let main = main_of(state.mode);
    let n = matrix_len(kind_of(state.mode, Extended::P4));
    recover::first_late(main, age, &signal.px2[n..], memory.delayed)
}

// 5: recovers the scrambled P1 frames and P2 from PM, and answers the lowest place that is bad, or one more than there are P1 frames.
fn main_place(state: State, signal: &Signal, memory: &Memory, own: &mut FramesMut) -> usize
    requires { Fits reader_len state (memory_behind memory.now) (lent_to_read 0 own.old signal.now) }
    ensures value { result ≡ lowest (p1_frames (main_of state.mode) + 1) (main_bad state (memory_behind memory.now) (signal_behind signal.now).matrices) }
    ensures p1_after { own.new.p1.now ≡ p1_of (main_of state.mode) signal.now.pm.now }
    ensures p2_after { own.new.p2.now ≡ p2_of (main_of state.mode) signal.now.pm.now }
    ensures same { SameFrames own.old own.new }
{
    let place = recover::recover_main(main_of(state.mode), signal.pm, own.p1, own.p2);
    lower(place, late_place(state, signal, memory))
}

// 5 and 6: recovers the scrambled P1 frames, P2 and PIDS from PM.
fn judge_pm(state: State, signal: &Signal, memory: &Memory, own: &mut FramesMut) -> Answer
    requires { Fits reader_len state (memory_behind memory.now) (lent_to_read 0 own.old signal.now) }
    ensures value { result ≡ pm_answer state (memory_behind memory.now) (signal_behind signal.now).matrices }
    ensures brought { number_of result ≡ 0 → Brought state (signal_behind signal.now).matrices (frames_behind_mut 0 own.new) }
    ensures same { SameFrames own.old own.new }
{
    let place = main_place(state, signal, memory, own);
    if place <= recover::p1_frames(main_of(state.mode)) {
        return Answer::MainNotCoded(place);
    }
    let frame = recover::recover_pids(signal.pm, own.pids);
    if frame < 16 {
        return Answer::PidsNotCoded(frame);
    }
    Answer::Success
}

// How many cells are counted before PX1's under 7: those of PM in MP5 and MP6.
fn counted_first(main: Main) -> usize
    ensures { (result ≡ counted_first main) × (result ≤ 368640) }
{
    match main {
        Main::Plain => 0,
        Main::Mp5 => 368640,
        Main::Mp6 => 368640,
    }
}

// The lowest cell of PX1, then of PX2, that is bad under 7; as many as there are where there is none.
fn fill_cell(state: State, signal: &Signal) -> usize
    requires { (length signal.now.px1.now ≡ matrix_len (kind_of state.mode P3)) × (length signal.now.px2.now ≡ px2_len state.mode) }
    ensures { result ≡ lowest (fill_cells state) (fill_row state (signal_behind signal.now).matrices) }
{
    let age = state.age;
    let kind3 = kind_of(state.mode, Extended::P3);
    let kind4 = kind_of(state.mode, Extended::P4);
    let n = matrix_len(kind4);
    let cell3 = recover::first_fill(kind3, age, signal.px1);
    let cell4 = recover::first_fill(kind4, age, &signal.px2[..n]);
    let cell = recover::first_delayed(main_of(state.mode), age, &signal.px2[n..]);
    past(signal.px1.len() * 8, cell3, past(n * 8, cell4, cell))
}

// 7: the zero fill of PX1, then of PX2, or the delay's zeros there.
fn judge_fill(state: State, signal: &Signal) -> Answer
    requires { (length signal.now.px1.now ≡ matrix_len (kind_of state.mode P3)) × (length signal.now.px2.now ≡ px2_len state.mode) }
    ensures { result ≡ fill_answer state (signal_behind signal.now).matrices }
{
    let cell = fill_cell(state, signal);
    let before = counted_first(main_of(state.mode));
    if cell < (signal.px1.len() + signal.px2.len()) * 8 {
        return Answer::FillNotZero(before + cell);
    }
    Answer::Success
}

// Recovers the eight P4 frames of the L1 frame two earlier, and answers the lowest whose coded bits are no coding, or 8.
fn recover_p4(state: State, px2: &[u8], memory4: &[u8], p4: &mut [u8]) -> usize
    requires { (state.half < 2) × (length px2.now ≡ px2_len state.mode) × (length memory4.now ≡ reader_len (kind_of state.mode P4)) × (length p4.old ≡ frame_len (kind_of state.mode P4)) }
    ensures { (result ≡ lowest 8 (frame_bad (kind_of state.mode P4) state.half (push memory4.now (fourth state px2.now)))) × (p4.new ≡ frames_of (kind_of state.mode P4) state.half (push memory4.now (fourth state px2.now))) }
{
    let half = state.half;
    let kind = kind_of(state.mode, Extended::P4);
    let n = matrix_len(kind);
    recover::recover_px(kind, half, memory4, &px2[..n], p4)
}

// 8: recovers P3, then P4, of the L1 frame two earlier.
fn judge_frames(state: State, signal: &Signal, memory: &Memory, own: &mut FramesMut) -> Answer
    requires { Extends state (memory_behind memory.now) (signal_behind signal.now).matrices (frames_behind_mut 0 own.old) }
    ensures value { result ≡ frames_answer state (after state (memory_behind memory.now) (signal_behind signal.now).matrices) }
    ensures recovered { number_of result ≡ 0 → Recovered state (after state (memory_behind memory.now) (signal_behind signal.now).matrices) (frames_behind_mut 0 own.new) }
    ensures same { SameFrames own.old own.new }
    ensures others { (own.new.p1.now ≡ own.old.p1.now) × (own.new.pids.now ≡ own.old.pids.now) × (own.new.p2.now ≡ own.old.p2.now) }
{
    let half = state.half;
    let kind3 = kind_of(state.mode, Extended::P3);
    let frame = recover::recover_px(kind3, half, memory.for3, signal.px1, own.p3);
    if frame < 8 {
        return Answer::ExtendedNotCoded(frame);
    }
    let beside = recover_p4(state, signal.px2, memory.for4, own.p4);
    if beside < 8 {
        return Answer::ExtendedNotCoded(8 + beside);
    }
    Answer::Success
}

// 7, and from age 2 on 8.
fn judge_px(state: State, signal: &Signal, memory: &Memory, own: &mut FramesMut) -> Answer
    requires { Extends state (memory_behind memory.now) (signal_behind signal.now).matrices (frames_behind_mut 0 own.old) }
    ensures value { result ≡ px_answer state (memory_behind memory.now) (signal_behind signal.now).matrices }
    ensures recovered { number_of result ≡ 0 → 2 ≤ state.age → Recovered state (after state (memory_behind memory.now) (signal_behind signal.now).matrices) (frames_behind_mut 0 own.new) }
    ensures same { SameFrames own.old own.new }
    ensures others { (own.new.p1.now ≡ own.old.p1.now) × (own.new.pids.now ≡ own.old.pids.now) × (own.new.p2.now ≡ own.old.p2.now) }
{
    let answer = judge_fill(state, signal);
    if !is_success(answer) {
        return answer;
    }
    if state.age < 2 {
        return answer;
    }
    judge_frames(state, signal, memory, own)
}

// Judges what came for an L1 frame, and recovers its P1 frames, still scrambled, PIDS and P2 and, from age 2 on, P3 and P4 of the one two earlier. Left open: what
// `own`, the reader's own frames, holds after a refusal, and its P3 and P4 before age 2. Their lengths are kept.
pub fn judge_signal(state: State, signal: &Signal, memory: &Memory, own: &mut FramesMut) -> Answer
    requires { Fits reader_len state (memory_behind memory.now) (lent_to_read 0 own.old signal.now) }
    ensures value { result ≡ signal_answer state (memory_behind memory.now) (signal_behind signal.now) }
    ensures brought { number_of result ≡ 0 → Brought state (signal_behind signal.now).matrices (frames_behind_mut 0 own.new) }
    ensures recovered { number_of result ≡ 0 → 2 ≤ state.age → Recovered state (after state (memory_behind memory.now) (signal_behind signal.now).matrices) (frames_behind_mut 0 own.new) }
    ensures same { SameFrames own.old own.new }
{
    if let Some(block) = control::first_departing(state.mode, signal.control) {
        return Answer::WrongControl(block as usize);
    }
    let answer = judge_pm(state, signal, memory, own);
    if !is_success(answer) {
        return answer;
    }
    judge_px(state, signal, memory, own)
}
