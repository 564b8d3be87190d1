// The working of a coded bit: what an examiner shows to a technician who contests an answer.
#![tactic(auto)]

ghost use Rattle.std.specs.Prelude.{◌≡◌, ℕ, ◌+◌, ◌*◌, ◌/◌, ◌%◌, ◌<◌, ◌≤◌, length, get_or};
ghost use Rattle.bits.specs.Bits.{bit_at};
ghost use Rattle.bits.specs.Listed.{listed};
ghost use Rattle.scrambling.specs.Scrambler.{sequence};
ghost use Rattle.coding.specs.Coder.{back as «back-of», tap};
ghost use Rattle.coding.specs.Rates.{coded_length};
ghost use Rattle.coding.specs.Channel.{part};
ghost use Rattle.workings.specs.Shown.{older, rate_of, frames_of, bits_of, generator_of, number_of, writing_of, weighed, shown as «Shown-of», refused as «refused-of», worked_of, worked};

use coding::Rate;
use locating::Writing;
use pm::Position;
use runs::{Answer, State};

// The working of a coded bit: the number of the bit of its transfer frame and the generator whose output for it the coded bit is, that bit and the six before it, counted around the frame's end, the bits that the scrambler adds to them, how many of the fourteen are 1 where the generator has a tap, and that number modulo 2, the coded bit; and how the interleaver writes it. Refused, all zeros.
#[derive(Clone, Copy)]
pub struct Worked {
    pub answer: Answer,
    pub number: usize,
    pub generator: u8,
    pub bits: [u8; 7],
    pub scrambling: [u8; 7],
    pub sum: u8,
    pub coded: u8,
    pub writing: Writing,
}

// A refusal.
pub fn refused(answer: Answer) -> Worked
    ensures { result ≡ «refused-of» answer }
{
    let position = Position {
        block: 0,
        row: 0,
        partition: 0,
        column: 0,
    };
    let writing = Writing {
        step: 0,
        k: 0,
        position,
        cell: 0,
    };
    Worked {
        answer,
        number: 0,
        generator: 0,
        bits: [0; 7],
        scrambling: [0; 7],
        sum: 0,
        coded: 0,
        writing,
    }
}

// Whether the mode is MP1, MP2, MP3 or MP11.
#[tactic(auto, unfolding(crate::specs::Shown::older, control::specs::Modes::one_of))]
fn is_older(mode: u8) -> bool
    ensures { result ≡ older mode }
{
    matches!(mode, 1 | 2 | 3 | 11)
}

// The rate of a channel.
fn rate_of(channel: u8) -> Rate
    ensures { result ≡ rate_of channel }
{
    if channel < 3 {
        return Rate::TwoFifths;
    }
    Rate::Half
}

// The transfer frames of a channel in an L1 frame.
fn frames_of(channel: u8) -> usize
    ensures { (result ≡ frames_of channel) × (result ≤ 16) }
{
    if channel == 1 {
        return 1;
    }
    if channel == 2 {
        return 16;
    }
    8
}

// The bits of a transfer frame of a channel; 0 where the mode does not send it.
fn bits_of(mode: u8, channel: u8) -> usize
    ensures { (result ≡ bits_of mode channel) × (result ≤ 146176) }
{
    if channel == 1 {
        return 146176;
    }
    if channel == 2 {
        return 80;
    }
    32 * queries::columns(queries::kind_of_number(mode, channel))
}

// The coded bits of a transfer frame of n bits.
pub fn coded_length(rate: Rate, n: usize) -> usize
    requires { n ≤ 146176 }
    ensures { result ≡ coded_length rate n }
{
    match rate {
        Rate::TwoFifths => n / 2 * 5,
        Rate::Half => n / 2 * 4,
    }
}

// An output of the coder: for this bit of the frame, of this generator.
#[derive(Clone, Copy)]
struct Output {
    number: usize,
    generator: u8,
}

// Tables 9-1 and 9-2: the generators of the coded bits of two bits of a frame.
const GENERATORS25: [u8; 5] = [0o133, 0o171, 0o165, 0o133, 0o171];

const GENERATORS12: [u8; 4] = [0o133, 0o165, 0o133, 0o165];

// 9.3.2 and 9.3.3: the output that coded bit m is.
fn output_of(rate: Rate, m: usize) -> Output
    requires { m < 365440 }
    ensures { (result.number ≡ number_of rate m) × (result.generator ≡ generator_of rate m) × (result.generator < 128) }
{
    match rate {
        Rate::TwoFifths => {
            let r = m % 5;
            let number = 2 * (m / 5) + r / 3;
            let generator = GENERATORS25[r];
            Output { number, generator }
        }
        Rate::Half => {
            let r = m % 4;
            let number = 2 * (m / 4) + r / 2;
            let generator = GENERATORS12[r];
            Output { number, generator }
        }
    }
}

// 9.3.4: d bits before bit j, counted around the end of a frame of n bits.
fn back(n: usize, j: usize, d: usize) -> usize
    requires { (7 ≤ n) × (n ≤ 146176) × (j < n) × (d < 7) }
    ensures { (result ≡ «back-of» n j d) × (result < n) }
{
    (j + n - d) % n
}

// The seven bits that end with bit j of the frame of n bits whose first bit is bit `start` of the lent frames, the newest first.
fn seven_bits(frames: &[u8], start: usize, n: usize, j: usize) -> [u8; 7]
    requires { (7 ≤ n) × (n ≤ 146176) × (j < n) × (start ≤ 2338816) × (start + n ≤ 8 * length frames.now) }
    ensures { result ≡ listed 7 (λ d. bit_at frames.now (start + «back-of» n j d)) }
{
    let mut seven = [0u8; 7];
    for d in 0..7 {
        seven[d] = bits::get(frames, start + back(n, j, d));
    }
    seven
}

// The bits of the scrambling sequence at these places.
fn seven_added(n: usize, j: usize) -> [u8; 7]
    requires { (7 ≤ n) × (n ≤ 146176) × (j < n) }
    ensures { result ≡ listed 7 (λ d. sequence («back-of» n j d)) }
{
    let mut seven = [0u8; 7];
    for d in 0..7 {
        seven[d] = scrambling::sequence_bit(back(n, j, d));
    }
    seven
}

// x where the generator takes the bit d places back, and else 0.
fn taken(g: u8, d: usize, x: u8) -> u8
    requires { (d < 7) × (x ≤ 2) }
    ensures { (result ≡ tap g d * x) × (result ≤ 2) }
{
    if (g >> (6 - d)) & 1 == 1 {
        return x;
    }
    0
}

// How many of the fourteen bits are 1 where the generator has a tap.
fn weigh(g: u8, bits: [u8; 7], scrambling: [u8; 7]) -> u8
    requires { ((d : ℕ) → get_or bits d 0 < 2) × ((d : ℕ) → get_or scrambling d 0 < 2) }
    ensures { (result ≡ weighed g bits scrambling) × (result ≤ 14) }
{
    let mut sum: u8 = 0;
    for d in 0..7 {
        sum += taken(g, d, bits[d] + scrambling[d]);
    }
    sum
}

// How the interleaver of a channel that is sent writes the coded bit of a transfer frame, in the first (half 0) or second (half 1) L1 frame of the internal matrix of P3 and P4.
fn write(mode: u8, half: usize, channel: u8, frame: usize, bit: usize) -> Writing
    requires { (half < 2) × (frame < frames_of channel) × (bit < coded_length (rate_of channel) (bits_of mode channel)) }
    ensures { result ≡ writing_of mode half channel frame bit }
{
    if channel == 1 {
        return locating::write_p1(bit);
    }
    if channel == 2 {
        return locating::write_pids(frame * 200 + bit);
    }
    let kind = queries::kind_of_number(mode, channel);
    let coded = 64 * queries::columns(kind);
    let n = 8 * coded;
    locating::write_px(modes::table_row(kind), half * n + (frame * coded + bit))
}

// The working of coded bit m of a transfer frame of n bits, which the interleaver writes so.
pub fn show(rate: Rate, n: usize, frames: &[u8], frame: usize, m: usize, writing: Writing) -> Worked
    requires { (7 ≤ n) × (n ≤ 146176) × (n % 2 ≡ 0) × (frame ≤ 16) × (frame * n + n ≤ 8 * length frames.now) × (m < coded_length rate n) }
    ensures { result ≡ «Shown-of» rate n (part n frame (bit_at frames.now)) m writing }
{
    let o = output_of(rate, m);
    let number = o.number;
    let generator = o.generator;
    let bits = seven_bits(frames, frame * n, n, number);
    let scrambling = seven_added(n, number);
    let sum = weigh(generator, bits, scrambling);
    let coded = sum % 2;
    Worked {
        answer: Answer::Success,
        number,
        generator,
        bits,
        scrambling,
        sum,
        coded,
        writing,
    }
}

// The working of a coded bit, from the transfer frames in full.
fn work_out(state: State, channel: u8, frames: &[u8], frame: usize, bit: usize) -> Worked
    ensures { result ≡ worked_of state channel frames.now frame bit }
{
    if !calls::is_valid(state) {
        return refused(Answer::StateNotValid);
    }
    let mode = state.mode;
    if !is_older(mode) {
        return refused(Answer::WrongLength(0));
    }
    let n = bits_of(mode, channel);
    if n == 0 {
        return refused(Answer::WrongLength(0));
    }
    let count = frames_of(channel);
    if frames.len() != count * n / 8 {
        return refused(Answer::WrongLength(1));
    }
    if frame >= count {
        return refused(Answer::WrongLength(2));
    }
    let rate = rate_of(channel);
    if bit >= coded_length(rate, n) {
        return refused(Answer::WrongLength(3));
    }
    let half = state.half as usize;
    show(
        rate,
        n,
        frames,
        frame,
        bit,
        write(mode, half, channel, frame, bit),
    )
}

// The working of a coded bit of P1 (channel 1), PIDS (2), P3 (3) or P4 (4), of this transfer frame of those that the L1 frame after the state brings. Nothing lent for P3 or P4 means frames of zeros (document 02, S-5).
pub fn working(state: State, channel: u8, frames: &[u8], frame: usize, bit: usize) -> Worked
    ensures { result ≡ worked state channel frames.now frame bit }
{
    if channel < 3 {
        return work_out(state, channel, frames, frame, bit);
    }
    if frames.len() != 0 {
        return work_out(state, channel, frames, frame, bit);
    }
    let zeros = [0u8; 4608];
    let n = bits_of(state.mode, channel);
    work_out(state, channel, &zeros[..n], frame, bit)
}
