// Evidence: drawn transfer frames of each channel scrambled, coded and decoded, and the control of each mode, to be held against a second program's.
#![tactic(auto)]

ghost use Rattle.std.specs.Prelude.{◌≡◌, ◌<◌, length};
ghost use Rattle.coding.specs.Buffers.{Buffers};

use coding::Rate;
use programs::Streams;

// Reads the frames of a channel, and writes them scrambled, the scrambled frames coded, and what those decode to.
fn channel(
    rt: &impl Streams,
    rate: Rate,
    n: usize,
    count: usize,
    frames: &mut [u8],
    between: &mut [u8],
    coded: &mut [u8],
)
    requires { Buffers rate n count frames.old coded.old × (length between.old ≡ length frames.old) }
{
    programs::read_full(rt, frames);
    coding::encode_channel(rate, n, count, frames, between, coded);
    let _ = rt.write(between);
    let _ = rt.write(coded);
    coding::judge_channel(rate, n, count, coded, between);
    scrambling::scramble_each(n, between, frames);
    let _ = rt.write(frames);
}

fn p1(rt: &impl Streams) {
    let mut frames = [0u8; 18272];
    let mut between = [0u8; 18272];
    let mut coded = [0u8; 45680];
    channel(
        rt,
        Rate::TwoFifths,
        18272,
        1,
        &mut frames,
        &mut between,
        &mut coded,
    );
}

fn pids(rt: &impl Streams) {
    let mut frames = [0u8; 160];
    let mut between = [0u8; 160];
    let mut coded = [0u8; 400];
    channel(
        rt,
        Rate::TwoFifths,
        10,
        16,
        &mut frames,
        &mut between,
        &mut coded,
    );
}

fn p3_of_mp2(rt: &impl Streams) {
    let mut frames = [0u8; 2304];
    let mut between = [0u8; 2304];
    let mut coded = [0u8; 4608];
    channel(
        rt,
        Rate::Half,
        288,
        8,
        &mut frames,
        &mut between,
        &mut coded,
    );
}

fn p3_of_mp3(rt: &impl Streams) {
    let mut frames = [0u8; 4608];
    let mut between = [0u8; 4608];
    let mut coded = [0u8; 9216];
    channel(
        rt,
        Rate::Half,
        576,
        8,
        &mut frames,
        &mut between,
        &mut coded,
    );
}

fn control_of(rt: &impl Streams, mode: u8)
    requires { mode < 64 }
{
    let mut control = [0u8; 4096];
    control::fill_control(mode, 0, &mut control);
    let _ = rt.write(&control);
}

fn main(rt: HostRuntime) {
    p1(&rt);
    pids(&rt);
    p3_of_mp2(&rt);
    p3_of_mp3(&rt);
    control_of(&rt, 1);
    control_of(&rt, 2);
    control_of(&rt, 3);
    control_of(&rt, 11);
}
