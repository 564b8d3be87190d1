// The digital diversity delay of section 9.2, and P1', the delayed path of P1, in PX2.
#![tactic(auto)]

ghost use Rattle.std.specs.Prelude.{◌≡◌, List, ℕ, ◌+◌, ◌*◌, ◌≤◌, length};
ghost use Rattle.bits.specs.Tests.{lowest};
ghost use Rattle.runs.specs.MainChannels.{delay_len, p1_len, p1'_len, p1'_row};
ghost use Rattle.runs.specs.Paths.{oldest, p1'_bad, p1'_of, waiting};
ghost use Rattle.runs.specs.Reading.{push as «push-of»};
ghost use Rattle.diversity.specs.Rooms.{apart, Second};

use coding::Rate;
use runs::Main;

// The last pieces of a memory, after one more.
pub fn push(memory: &mut [u8], px: &[u8])
    requires { length px.now ≤ length memory.old }
    ensures { memory.new ≡ «push-of» memory.old px.now }
{
    let n = px.len();
    let kept = memory.len() - n;
    for i in 0..kept {
        memory[i] = memory[i + n];
    }
    bits::copy(px, &mut memory[kept..]);
}

// The delay memory after one more L1 frame, whose scrambled P1 frames these are (section 9.2). With no delay nothing waits.
pub fn push_delay(main: Main, scrambled: &[u8], delay: &mut [u8])
    requires { (length scrambled.now ≡ p1_len main) × (length delay.old ≡ delay_len main) }
    ensures { delay.new ≡ waiting main delay.old scrambled.now }
{
    if delay.len() < scrambled.len() {
        return;
    }
    push(delay, scrambled);
}

// Writes the matrices of P1' from eight scrambled P1 frames (sections 10.4.2.3 and 10.4.2.4), frame by frame; `coded` is for the work between.
fn interleave_second(main: Main, row: usize, scrambled: &[u8], coded: &mut [u8], px2: &mut [u8])
    requires { Second main row scrambled.now coded.old × (length px2.old ≡ p1'_len main) }
    ensures { px2.new ≡ p1'_of main scrambled.now }
{
    let n = scrambled.len() / 8;
    for f in 0..8 {
        let from = f * n;
        let to = from + n;
        coding::encode(Rate::Half, n, 1, &scrambled[from..to], coded);
        px2::interleave(row, f, coded, px2);
    }
}

// The row of Tables 10-17 and 10-19 that P1' has in this mode.
fn row_of(main: Main) -> usize
    ensures { result ≡ p1'_row main }
{
    match main {
        Main::Mp5 => 0,
        Main::Mp6 => 1,
        Main::Plain => 2,
    }
}

// Writes the matrices of P1', if the mode has it.
fn write_second(main: Main, scrambled: &[u8], px2: &mut [u8])
    requires { (length scrambled.now ≡ p1_len main) × (length px2.old ≡ p1'_len main) }
    ensures { px2.new ≡ p1'_of main scrambled.now }
{
    let n = px2.len() / 8;
    if n == 0 {
        return;
    }
    let mut coded = [0u8; 2304];
    interleave_second(main, row_of(main), scrambled, &mut coded[..n], px2);
}

// Where the P1 frames of `back` L1 frames before begin in a delay memory of n bytes for each L1 frame, oldest first.
fn start(back: usize, n: usize, len: usize) -> usize
    requires { back * n ≤ len }
    ensures { result + back * n ≡ len }
{
    len - back * n
}

// Writes the matrices of P1' from the P1 frames of three L1 frames before, which have waited longest (section 9.2), if the mode has it.
pub fn write_delayed(main: Main, delay: &[u8], px2: &mut [u8])
    requires { (length delay.now ≡ delay_len main) × (length px2.old ≡ p1'_len main) }
    ensures { (s : List ℕ) → px2.new ≡ p1'_of main (oldest main delay.now s) }
{
    if delay.len() == 0 {
        return;
    }
    let n = delay.len() / 3;
    let from = start(3, n, delay.len());
    let to = from + n;
    write_second(main, &delay[from..to], px2);
}

// The lowest of eight pieces of n bytes at which two buffers differ, or 8.
fn first_apart(n: usize, a: &[u8], b: &[u8]) -> usize
    requires { (length a.now ≡ 8 * n) × (length b.now ≡ 8 * n) × (n ≤ 2304) }
    ensures { result ≡ lowest 8 (apart n a.now b.now) }
{
    for f in 0..8 {
        let from = f * n;
        let to = from + n;
        if !bits::same(&a[from..to], &b[from..to]) {
            return f;
        }
    }
    8
}

// The lowest P1' frame in PX2 whose matrix is not the one that the waiting frames give, or 8; these are written to `want`.
fn first_unlike(main: Main, px2: &[u8], oldest: &[u8], want: &mut [u8]) -> usize
    requires { (length px2.now ≡ p1'_len main) × (length oldest.now ≡ p1_len main) × (length want.old ≡ p1'_len main) }
    ensures { result ≡ lowest 8 (p1'_bad main px2.now oldest.now) }
{
    write_second(main, oldest, want);
    first_apart(px2.len() / 8, px2, want)
}

// The lowest P1' frame in PX2 that is no coded frame or disagrees with the scrambled P1 frame that has waited, or 8.
pub fn first_second(main: Main, px2: &[u8], oldest: &[u8]) -> usize
    requires { (length px2.now ≡ p1'_len main) × (length oldest.now ≡ p1_len main) }
    ensures { result ≡ lowest 8 (p1'_bad main px2.now oldest.now) }
{
    let n = px2.len();
    let mut want = [0u8; 18432];
    first_unlike(main, px2, oldest, &mut want[..n])
}
