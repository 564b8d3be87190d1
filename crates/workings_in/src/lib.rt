// The working of a coded bit in all six modes.
#![tactic(auto)]

ghost use Rattle.std.specs.Prelude.{◌≡◌, ◌<◌, ◌≤◌};
ghost use Rattle.coding.specs.Rates.{coded_length};
ghost use Rattle.workings_in.specs.Shown.{bits_in, frames_in, of_three, own_of, rate_in, worked_in, writing_in};

use coding::Rate;
use locating::Writing;
use runs::{Answer, Main, State};
use workings::Worked;

// The rate of P1, P2 and P1'.
fn rate_in(channel: u8) -> Rate
    ensures { result ≡ rate_in channel }
{
    if channel == 6 {
        return Rate::Half;
    }
    Rate::TwoFifths
}

// Their transfer frames in an L1 frame.
fn frames_in(channel: u8) -> usize
    ensures { (result ≡ frames_in channel) × (result ≤ 8) }
{
    if channel == 5 {
        return 1;
    }
    8
}

// That of three numbers which is the channel's; 0 for any other channel.
fn of_three(channel: u8, p1: usize, p2: usize, second: usize) -> usize
    ensures { result ≡ of_three channel p1 p2 second }
{
    if channel == 1 {
        return p1;
    }
    if channel == 5 {
        return p2;
    }
    if channel == 6 {
        return second;
    }
    0
}

// The bits of a transfer frame of P1, P2 or P1' in MP5 and MP6; else 0.
fn bits_in(main: Main, channel: u8) -> usize
    ensures { (result ≡ bits_in main channel) × (result ≤ 146176) }
{
    match main {
        Main::Plain => 0,
        Main::Mp5 => of_three(channel, 4608, 109312, 4608),
        Main::Mp6 => of_three(channel, 9216, 72448, 9216),
    }
}

// How Interleaver I writes a coded bit of a transfer frame of n coded bits.
fn write(main: Main, channel: u8, n: usize, frame: usize, bit: usize) -> Writing
    requires { (frame < frames_in channel) × (n ≡ coded_length (rate_in channel) (bits_in main channel)) × (bit < n) }
    ensures { result ≡ writing_in main channel frame bit }
{
    if channel == 5 {
        return locating::write_p1(finding::p1_coded(main) + bit);
    }
    if channel == 6 {
        return finding_px::write_second(finding_px::row_of(main), frame, bit);
    }
    locating::write_p1(frame * n + bit)
}

// The working of a coded bit of P1, P2 or P1' in MP5 and MP6, from transfer frames of n bits.
fn work_out(main: Main, channel: u8, n: usize, frames: &[u8], frame: usize, bit: usize) -> Worked
    requires { (n ≡ bits_in main channel) × (0 < n) }
    ensures { result ≡ own_of main channel frames.now frame bit }
{
    let count = frames_in(channel);
    if frames.len() != count * n / 8 {
        return workings::refused(Answer::WrongLength(1));
    }
    if frame >= count {
        return workings::refused(Answer::WrongLength(2));
    }
    let rate = rate_in(channel);
    let coded = workings::coded_length(rate, n);
    if bit >= coded {
        return workings::refused(Answer::WrongLength(3));
    }
    let writing = write(main, channel, coded, frame, bit);
    workings::show(rate, n, frames, frame, bit, writing)
}

// The working of a coded bit of P1 (channel 1), PIDS (2), P3 (3), P4 (4), P2 (5) or P1' (6), in any mode, of this transfer frame
// of the L1 frame that comes next. The transfer frames of P1' are its P1 frames, and it is sent three L1 frames later.
pub fn working_in(state: State, channel: u8, frames: &[u8], frame: usize, bit: usize) -> Worked
    ensures { result ≡ worked_in state channel frames.now frame bit }
{
    if !calls::is_valid(state) {
        return workings::refused(Answer::StateNotValid);
    }
    let main = modes::main_of(state.mode);
    let n = bits_in(main, channel);
    if n == 0 {
        return workings::working(
            finding_px::as_older(main, state),
            channel,
            frames,
            frame,
            bit,
        );
    }
    work_out(main, channel, n, frames, frame, bit)
}
