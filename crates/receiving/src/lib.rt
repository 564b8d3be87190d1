// Reading an L1 frame whose state and lengths are right: it is judged, and the frames that it returns and the reader's memory are written.
#![tactic(auto)]

ghost use Rattle.std.specs.Prelude.{cond, ◌≡◌, ◌≤◌, ltb, length};
ghost use Rattle.runs.specs.declared.Extended.TheVariants.{P4};
ghost use Rattle.runs.specs.MainChannels.{main_of, delay_frames, delay_len, p1_len};
ghost use Rattle.runs.specs.Lengths.{kind_of, matrix_len, px2_len, reader_len};
ghost use Rattle.runs.specs.Paths.{oldest, scrambled_of, waiting};
ghost use Rattle.runs.specs.Reading.{push};
ghost use Rattle.calls.specs.Called.{SameFrames, SameMemory, frames_behind_mut, lent_to_read, memory_behind_mut, read_gave, signal_behind};
ghost use Rattle.calls.specs.Fits.{Fits};
ghost use Rattle.runs.specs.Answers.{number_of};
ghost use Rattle.judging.specs.Stages.{Brought, Recovered, after, fourth, signal_answer};
ghost use Rattle.receiving.specs.Received.{SameLengths, receive_step};

use calls::{FramesMut, Memory, MemoryMut, ReadOutcome, Signal, next_of};
use causes::is_success;
use modes::{kind_of, main_of, matrix_len};
use runs::{Answer, Extended, Main, State};

// Returns the P1 frames whose second path has come: those of this L1 frame where there is no delay, and else those that have waited longest.
fn return_p1(main: Main, age: u8, memory: &MemoryMut, own: &FramesMut, p1: &mut [u8])
    requires { (length memory.now.delayed.now ≡ delay_len main) × (length own.now.p1.now ≡ p1_len main) × (length p1.old ≡ p1_len main) }
    ensures { p1.new ≡ cond (ltb age (delay_frames main)) p1.old (scrambled_of main (oldest main memory.now.delayed.now own.now.p1.now)) }
{
    if memory.delayed.len() == 0 {
        scrambling::scramble_each(18272, own.p1, p1);
        return;
    }
    if age < 3 {
        return;
    }
    let n = p1.len();
    scrambling::scramble_each(n / 8, &memory.delayed[..n], p1);
}

// Hands out the other frames that were judged: PIDS and P2, and P3 and P4, which the first two L1 frames do not give.
fn hand_out(age: u8, own: &FramesMut, frames: &mut FramesMut)
    requires { SameLengths (frames_behind_mut 0 own.now) (frames_behind_mut 0 frames.old) }
    ensures p1_after { frames.new.p1.now ≡ frames.old.p1.now }
    ensures pids_after { (frames.new.pids.now ≡ own.now.pids.now) × (frames.new.p2.now ≡ own.now.p2.now) }
    ensures p3_after { (frames.new.p3.now ≡ cond (ltb age 2) frames.old.p3.now own.now.p3.now) × (frames.new.p4.now ≡ cond (ltb age 2) frames.old.p4.now own.now.p4.now) }
    ensures same { SameFrames frames.old frames.new }
{
    bits::copy(own.pids, frames.pids);
    bits::copy(own.p2, frames.p2);
    if age < 2 {
        return;
    }
    bits::copy(own.p3, frames.p3);
    bits::copy(own.p4, frames.p4);
}

// The reader's memory after one more L1 frame.
fn keep(state: State, signal: &Signal, own: &FramesMut, memory: &mut MemoryMut)
    requires { (length signal.now.px1.now ≤ length memory.old.for3.now) × (length signal.now.px2.now ≡ px2_len state.mode) × (matrix_len (kind_of state.mode P4) ≤ length memory.old.for4.now) × (length own.now.p1.now ≡ p1_len (main_of state.mode)) × (length memory.old.delayed.now ≡ delay_len (main_of state.mode)) }
    ensures kept { (memory.new.for3.now ≡ push memory.old.for3.now signal.now.px1.now) × (memory.new.for4.now ≡ push memory.old.for4.now (fourth state signal.now.px2.now)) × (memory.new.delayed.now ≡ waiting (main_of state.mode) memory.old.delayed.now own.now.p1.now) }
    ensures same { SameMemory memory.old memory.new }
{
    let n = matrix_len(kind_of(state.mode, Extended::P4));
    diversity::push(memory.for3, signal.px1);
    diversity::push(memory.for4, &signal.px2[..n]);
    diversity::push_delay(main_of(state.mode), own.p1, memory.delayed);
}

// Judges by the memory as it stands. A function of its own: of a field that is lent on from behind `&mut` a proof knows the length alone afterwards.
fn judge(state: State, signal: &Signal, memory: &MemoryMut, own: &mut FramesMut) -> Answer
    requires { Fits reader_len state (memory_behind_mut memory.now) (lent_to_read 0 own.old signal.now) }
    ensures value { result ≡ signal_answer state (memory_behind_mut memory.now) (signal_behind signal.now) }
    ensures brought { number_of result ≡ 0 → Brought state (signal_behind signal.now).matrices (frames_behind_mut 0 own.new) }
    ensures recovered { number_of result ≡ 0 → 2 ≤ state.age → Recovered state (after state (memory_behind_mut memory.now) (signal_behind signal.now).matrices) (frames_behind_mut 0 own.new) }
    ensures same { SameFrames own.old own.new }
{
    let shown = Memory {
        for3: memory.for3,
        for4: memory.for4,
        delayed: memory.delayed,
    };
    judging::judge_signal(state, signal, &shown, own)
}

// Reads an L1 frame whose state and lengths are right. It is judged on frames of its own before the first lent byte is written.
pub fn receive(
    state: State,
    frames: &mut FramesMut,
    signal: &Signal,
    memory: &mut MemoryMut,
    own: &mut FramesMut,
) -> ReadOutcome
    requires { Fits reader_len state (memory_behind_mut memory.old) (lent_to_read 0 frames.old signal.now)
        × Fits reader_len state (memory_behind_mut memory.old) (lent_to_read 0 own.old signal.now) }
    ensures received { read_gave result (memory_behind_mut memory.new) (lent_to_read result.reserved frames.new signal.now)
        ≡ receive_step state (memory_behind_mut memory.old) (lent_to_read 0 frames.old signal.now) }
    ensures same { SameFrames frames.old frames.new × SameMemory memory.old memory.new × SameFrames own.old own.new }
{
    let answer = judge(state, signal, memory, own);
    let reserved = control::number_in(state.mode, signal.control);
    let next = next_of(state, reserved);
    if !is_success(answer) {
        return ReadOutcome {
            answer,
            state,
            reserved: 0,
        };
    }
    let age = state.age;
    return_p1(main_of(state.mode), age, memory, own, frames.p1);
    hand_out(age, own, frames);
    keep(state, signal, own, memory);
    ReadOutcome {
        answer,
        state: next,
        reserved,
    }
}
