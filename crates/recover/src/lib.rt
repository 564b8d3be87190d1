// The transfer frames of an L1 frame from its matrices: sections 10, 9 and 8 turned round.
#![tactic(auto)]

ghost use Rattle.std.specs.Prelude.{◌≡◌, List, ℕ, ◌+◌, ◌*◌, ◌<◌, ◌≤◌, length, get_or};
ghost use Rattle.bits.specs.Bits.{packed};
ghost use Rattle.bits.specs.Tests.{lowest};
ghost use Rattle.coding.specs.declared.Rate.TheVariants.{TwoFifths};
ghost use Rattle.coding.specs.Buffers.{Buffers, uncoded_each};
ghost use Rattle.coding.specs.Channel.{no_frame, unchannel};
ghost use Rattle.runs.specs.MainChannels.{delay_frames, delay_len, p1_bits, p1_frames, p1_len, p2_bits, p2_len, p1'_len};
ghost use Rattle.runs.specs.Chain.{fill_bad, frame_bad, frames_of, gathered, p1_coded, p1_of, p2_of, pids_bad, pids_of};
ghost use Rattle.runs.specs.Paths.{delay_bad, oldest};
ghost use Rattle.runs.specs.Lengths.{frame_len, matrix_len, reader_len, table_row};
ghost use Rattle.runs.specs.Reading.{push as «push-of»};
ghost use Rattle.recover.specs.Rooms.{Room, coded_bytes, is_one, late_bad, p1_bytes, past as «past_of», pm_bad};

use coding::Rate;
use modes::table_row;
use runs::{Kind, Main};

// The transfer frames of n bytes whose channel's coded bits are y, and the lowest whose coded bits are no coding, or `count`; `scrambled` is for the work between.
fn decode_channel(
    rate: Rate,
    n: usize,
    count: usize,
    coded: &[u8],
    scrambled: &mut [u8],
    frames: &mut [u8],
) -> usize
    requires { Buffers rate n count frames.old coded.now × (length scrambled.old ≡ length frames.old) }
    ensures { (y : ℕ → ℕ) → ((i : ℕ) → y i < 2) → coded.now ≡ packed (length coded.now) y → (result ≡ lowest count (no_frame rate (8 * n) y)) × (frames.new ≡ packed (length frames.old) (unchannel rate (8 * n) y)) }
{
    let bad = coding::judge_channel(rate, n, count, coded, scrambled);
    scrambling::scramble_each(n, scrambled, frames);
    bad
}

// The P1 frames of an L1 frame; the bytes of each; the bytes of their coded bits.
pub fn p1_frames(main: Main) -> usize
    ensures { (result ≡ p1_frames main) × (result ≤ 8) }
{
    match main {
        Main::Plain => 1,
        Main::Mp5 => 8,
        Main::Mp6 => 8,
    }
}

fn p1_bytes(main: Main) -> usize
    ensures { result ≡ p1_bytes main }
{
    match main {
        Main::Plain => 18272,
        Main::Mp5 => 576,
        Main::Mp6 => 1152,
    }
}

fn coded_bytes(main: Main) -> usize
    ensures { (result ≡ coded_bytes main) × (result ≤ 45680) }
{
    match main {
        Main::Plain => 45680,
        Main::Mp5 => 11520,
        Main::Mp6 => 23040,
    }
}

// 9.2: the L1 frames by which P1' is delayed.
pub fn delay_frames(main: Main) -> u8
    ensures { result ≡ delay_frames main }
{
    match main {
        Main::Plain => 0,
        Main::Mp5 => 3,
        Main::Mp6 => 3,
    }
}

// The lowest bad place of two rows, of which the first has n, from the lowest of each.
pub fn past(n: usize, r: usize, rest: usize) -> usize
    requires { (n ≤ 1000000) × (rest ≤ 1000000) }
    ensures { result ≡ «past_of» n r rest }
{
    if r < n {
        return r;
    }
    n + rest
}

// The scrambled P1 frames whose coded bits are the first of y, and the lowest whose coded bits are no coding.
fn judge_p1(main: Main, coded: &[u8], scrambled: &mut [u8]) -> usize
    requires { (length coded.now ≡ 45680) × (length scrambled.old ≡ p1_len main) }
    ensures { (y : ℕ → ℕ) → ((i : ℕ) → y i < 2) → coded.now ≡ packed 45680 y → (result ≡ lowest (p1_frames main) (no_frame TwoFifths (p1_bits main) y)) × (scrambled.new ≡ packed (p1_len main) (uncoded_each TwoFifths (p1_bits main) y)) }
{
    let n = p1_bytes(main);
    let count = p1_frames(main);
    let k = coded_bytes(main);
    coding::judge_channel(Rate::TwoFifths, n, count, &coded[..k], scrambled)
}

// The P2 frame whose coded bits stand behind those of P1, and 0 where they are no coding, or 1.
fn decode_p2(main: Main, coded: &[u8], p2: &mut [u8]) -> usize
    requires { (length coded.now ≡ 45680) × (length p2.old ≡ p2_len main) }
    ensures { (y : ℕ → ℕ) → ((i : ℕ) → y i < 2) → coded.now ≡ packed 45680 y → (result ≡ lowest 1 (no_frame TwoFifths (p2_bits main) (λ i. y (p1_coded main + i)))) × (p2.new ≡ packed (p2_len main) (unchannel TwoFifths (p2_bits main) (λ i. y (p1_coded main + i)))) }
{
    let n = p2.len();
    if n == 0 {
        return 1;
    }
    let k = coded_bytes(main);
    let mut scrambled = [0u8; 13664];
    decode_channel(Rate::TwoFifths, n, 1, &coded[k..], &mut scrambled[..n], p2)
}

// Recovers the P1 frames of PM, still scrambled, and P2, and answers the lowest P1 frame, and then P2, whose coded bits are no coding (section 10.4.1 turned round).
pub fn recover_main(main: Main, pm: &[u8], scrambled: &mut [u8], p2: &mut [u8]) -> usize
    requires { (length pm.now ≡ 46080) × (length scrambled.old ≡ p1_len main) × (length p2.old ≡ p2_len main) }
    ensures value { result ≡ lowest (p1_frames main + 1) (pm_bad main pm.now) }
    ensures scrambled_after { (scrambled.new ≡ p1_of main pm.now) × (p2.new ≡ p2_of main pm.now) }
{
    let mut coded = [0u8; 45680];
    pm::gather_p1(pm, &mut coded);
    let frame = judge_p1(main, &coded, scrambled);
    let beside = decode_p2(main, &coded, p2);
    past(p1_frames(main), frame, beside)
}

// The lowest P1 frame whose second path has come, and is no coded frame or disagrees; 8 where there is none.
pub fn first_late(main: Main, age: u8, second: &[u8], delay: &[u8]) -> usize
    requires { (length second.now ≡ p1'_len main) × (length delay.now ≡ delay_len main) }
    ensures { (s : List ℕ) → result ≡ lowest 8 (late_bad main age second.now (oldest main delay.now s)) }
{
    if delay.len() == 0 {
        return 8;
    }
    if age < 3 {
        return 8;
    }
    let n = delay.len() / 3;
    diversity::first_second(main, second, &delay[..n])
}

// Recovers the sixteen PIDS frames of PM, and answers the lowest whose coded bits are no coding, or 16.
pub fn recover_pids(pm: &[u8], pids: &mut [u8]) -> usize
    requires { (length pm.now ≡ 46080) × (length pids.old ≡ 160) }
    ensures { (result ≡ lowest 16 (pids_bad pm.now)) × (pids.new ≡ pids_of pm.now) }
{
    let mut coded = [0u8; 400];
    pm::gather_pids(pm, &mut coded);
    let mut scrambled = [0u8; 160];
    decode_channel(Rate::TwoFifths, 10, 16, &coded, &mut scrambled, pids)
}

// The coded bits of an extended channel that the mode uses, out of the last three matrices; `three` is for these.
fn gather_px(kind: Kind, half: u8, memory: &[u8], px: &[u8], three: &mut [u8], coded: &mut [u8])
    requires { (half < 2) × (table_row kind < 2) × (length memory.now ≡ reader_len kind) × (length px.now ≡ matrix_len kind) × (length three.old ≡ reader_len kind) × (length coded.old ≡ matrix_len kind) }
    ensures { coded.new ≡ packed (matrix_len kind) (gathered kind half («push-of» memory.now px.now)) }
{
    bits::copy(memory, three);
    diversity::push(three, px);
    px::gather(table_row(kind), half as usize, three, coded);
}

// Recovers the frames of an extended channel that the mode uses; `three`, `coded` and `scrambled` are for the work between.
fn decode_px(
    kind: Kind,
    half: u8,
    memory: &[u8],
    px: &[u8],
    three: &mut [u8],
    coded: &mut [u8],
    scrambled: &mut [u8],
    frames: &mut [u8],
) -> usize
    requires { (half < 2) × (length memory.now ≡ reader_len kind) × (length px.now ≡ matrix_len kind) × Room kind three.old coded.old scrambled.old frames.old }
    ensures { (result ≡ lowest 8 (frame_bad kind half («push-of» memory.now px.now))) × (frames.new ≡ frames_of kind half («push-of» memory.now px.now)) }
{
    gather_px(kind, half, memory, px, three, coded);
    decode_channel(Rate::Half, frames.len() / 8, 8, coded, scrambled, frames)
}

// The frames of a channel, by work arrays of its lengths. Each width calls an instance of its own, so that the arrays of both share the stack.
fn recover_by<const MATRICES: usize, const CODED: usize, const SCRAMBLED: usize>(
    kind: Kind,
    half: u8,
    memory: &[u8],
    px: &[u8],
    frames: &mut [u8],
) -> usize
    requires { (table_row kind < 2) × (MATRICES ≡ reader_len kind) × (CODED ≡ matrix_len kind) × (SCRAMBLED ≡ frame_len kind) × (half < 2) × (length memory.now ≡ reader_len kind) × (length px.now ≡ matrix_len kind) × (length frames.old ≡ frame_len kind) }
    ensures { (result ≡ lowest 8 (frame_bad kind half («push-of» memory.now px.now))) × (frames.new ≡ frames_of kind half («push-of» memory.now px.now)) }
{
    let mut three = [0u8; MATRICES];
    let mut coded = [0u8; CODED];
    let mut scrambled = [0u8; SCRAMBLED];
    decode_px(
        kind,
        half,
        memory,
        px,
        &mut three,
        &mut coded,
        &mut scrambled,
        frames,
    )
}

// Recovers the eight frames of an extended channel of the L1 frame two earlier, and answers the lowest whose coded bits are no coding, or 8.
pub fn recover_px(kind: Kind, half: u8, memory: &[u8], px: &[u8], frames: &mut [u8]) -> usize
    requires { (half < 2) × (length memory.now ≡ reader_len kind) × (length px.now ≡ matrix_len kind) × (length frames.old ≡ frame_len kind) }
    ensures { (result ≡ lowest 8 (frame_bad kind half («push-of» memory.now px.now))) × (frames.new ≡ frames_of kind half («push-of» memory.now px.now)) }
{
    match kind {
        Kind::Unused => 8,
        Kind::Narrow => recover_by::<13824, 4608, 2304>(kind, half, memory, px, frames),
        Kind::Wide => recover_by::<27648, 9216, 4608>(kind, half, memory, px, frames),
    }
}

// The lowest cell of an extended channel's matrix that can show only the zero fill and is 1; as many as there are where there is none.
pub fn first_fill(kind: Kind, age: u8, px: &[u8]) -> usize
    requires { length px.now ≡ matrix_len kind }
    ensures { result ≡ lowest (8 * matrix_len kind) (fill_bad kind age px.now) }
{
    let row = table_row(kind);
    if row == 2 {
        return 0;
    }
    if age >= 2 {
        return px.len() * 8;
    }
    px::first_fill(row, age as usize, px)
}

// The bytes of zeros with which x begins.
fn zero_bytes(x: &[u8]) -> usize
    ensures { (result ≤ length x.now) × ((j : ℕ) → j < result → get_or x.now j 0 ≡ 0) }
{
    for (j, b) in x.iter().enumerate() {
        if *b != 0 {
            return j;
        }
    }
    x.len()
}

// The lowest cell that is 1; as many as there are where there is none. Bytes of zeros are gone past at once.
fn first_one(x: &[u8]) -> usize
    requires { length x.now ≤ 100000 }
    ensures { result ≡ lowest (8 * length x.now) (is_one x.now) }
{
    let n = x.len() * 8;
    for c in zero_bytes(x) * 8..n {
        if bits::get(x, c) == 1 {
            return c;
        }
    }
    n
}

// The lowest cell of PX2 that can show only the delay's zeros and is 1; as many as there are where there is none.
pub fn first_delayed(main: Main, age: u8, second: &[u8]) -> usize
    requires { length second.now ≡ p1'_len main }
    ensures { result ≡ lowest (8 * p1'_len main) (delay_bad main age second.now) }
{
    if age < delay_frames(main) {
        return first_one(second);
    }
    second.len() * 8
}
