// The channel coder of section 9 and its inverse, by units: two bytes of a frame, and as many coded bytes as two bits have coded bits.
// Both are linear, so a unit's word, its coded bits or its own, is the `^` of the words that a table has for the bytes it hangs on.
#![tactic(auto)]

ghost use Rattle.std.specs.Prelude.{◌≡◌, ℕ, ◌+◌, ◌*◌, ◌/◌, ◌%◌, ◌^◌, ◌<◌, ◌≤◌, true, false, length, take, get_or};
ghost use Rattle.std.specs.Int.Bits.{bit_xor};
ghost use Rattle.bits.specs.Bits.{bit_at, number, packed};
ghost use Rattle.bits.specs.Tests.{lowest};
ghost use Rattle.scrambling.specs.Scrambler.{scrambled_each};
ghost use Rattle.coding.specs.Coder.{back};
ghost use Rattle.coding.specs.Channel.{channel, no_frame};
ghost use Rattle.coding.specs.Buffers.{Buffers, coded_each, uncoded_each};
ghost use Rattle.coding.specs.Units.{group_size, bytes_of, placed, word_of, Words, Within, around as «around-of»};

// The code rates 2/5 and 1/2 of Table 9-1.
#[derive(Clone, Copy)]
pub enum Rate {
    TwoFifths,
    Half,
}

// Tables 9-1 and 9-2: the coded bits of a byte of zeros but for its last bit, and but for the one before, of the byte's four groups and the three after it.
// Bit e gives what bit e - 2 gives, one group before.
const CODED25: [u64; 2] = [0x1_bf13, 0xe_fcdc];

const CODED12: [u64; 2] = [0x379b, 0xde6c];

// The inverse: the bits of a unit, where one of its coded bytes, or of the two before them, is zeros but for bit e, counted from the last: of the seven bytes
// side by side.
const BITS25: [u64; 8] = [
    0x1f00_00a2_0014_000f,
    0x053e_07c2_0000_0002,
    0x000a_0140_00f8_001f,
    0x3e7c_0000_0028_0005,
    0x0a14_0f80_01f0_0000,
    0x7c00_0280_0050_003e,
    0x14f8_1f00_0000_000a,
    0x0028_0500_03e0_007c,
];

const BITS12: [u64; 8] = [
    0x1060_1600_0160_0016,
    0x00a0_0a00_00a0_000a,
    0x20c0_2c00_02c0_002c,
    0x1040_1400_0140_0014,
    0x5080_5800_0580_0058,
    0x2080_2800_0280_0028,
    0xb000_b000_0b00_00b0,
    0x5000_5000_0500_0050,
];

// The entry for a byte of zeros but for bit e, counted from the last: what gives the coded bits of a unit.
fn coded_one(rate: Rate, e: usize) -> u64
    requires { e < 8 }
    ensures { (k : ℕ) → k < 3 → placed rate false k result ≡ word_of rate false (2 ^ (8 * k + e)) }
{
    match rate {
        Rate::TwoFifths => CODED25[e % 2] << (e / 2 * 5),
        Rate::Half => CODED12[e % 2] << (e / 2 * 4),
    }
}

// The same for the bits of a unit.
fn bits_one(rate: Rate, e: usize) -> u64
    requires { e < 8 }
    ensures { (k : ℕ) → k < 7 → placed rate true k result ≡ word_of rate true (2 ^ (8 * k + e)) }
{
    match rate {
        Rate::TwoFifths => BITS25[e],
        Rate::Half => BITS12[e],
    }
}

// The entry of a single 1 for the word of a unit: its coded bits, or with `inverse` its bits.
fn word_one(rate: Rate, inverse: bool, e: usize) -> u64
    requires { e < 8 }
    ensures { (k : ℕ) → k < bytes_of inverse → placed rate inverse k result ≡ word_of rate inverse (2 ^ (8 * k + e)) }
{
    if inverse {
        return bits_one(rate, e);
    }
    coded_one(rate, e)
}

// After the first m entries of a table the next m, each the `^` of one of them and the entry of bit m.
fn double(one: u64, m: usize, words: &mut [u64; 256])
    requires { (2 * m ≤ 256) × (length words.old ≡ 256) }
    ensures { (length words.new ≡ 256) × ((g f : ℕ → ℕ) → ((x : ℕ) → g (bit_xor x one) ≡ bit_xor (g x) (g one))
        → ((r : ℕ) → r < m → bit_xor (f r) (g one) ≡ f (m + r)) → ((r : ℕ) → r < m → g (get_or words.old r 0) ≡ f r) → (r : ℕ) → r < m + m
        → g (get_or words.new r 0) ≡ f r) }
{
    for r in 0..m {
        words[m + r] = words[r] ^ one;
    }
}

// Fills a table of zeros with the entry of each byte.
fn fill_words(rate: Rate, inverse: bool, words: &mut [u64; 256])
    requires { (length words.old ≡ 256) × (get_or words.old 0 0 ≡ 0) }
    ensures { Words rate inverse words.new }
{
    let mut m: usize = 1;
    for e in 0..8 {
        double(word_one(rate, inverse, e), m, words);
        m *= 2;
    }
}

// Byte k of a word, from the last one on, as an index. `scrambling::byte_of` counts from the first, of a word of four: one for both would be no plainer.
fn byte_of(x: u64, k: usize) -> usize
    requires { k < 8 }
    ensures { (result ≡ x / 2 ^ (8 * k) % 256) × (result < 256) }
{
    ((x >> (8 * k)) % 256) as usize
}

// The coded bits of a unit, from the byte before it and its two bytes.
fn unit_coded(rate: Rate, table: &[u64; 256], x: u64) -> u64
    requires { Words rate false table.now × (x < 2 ^ 24) }
    ensures { result ≡ word_of rate false x }
{
    let a = table[byte_of(x, 0)];
    let b = table[byte_of(x, 1)];
    let c = table[byte_of(x, 2)];
    match rate {
        Rate::TwoFifths => (((c << 25) ^ (b << 5)) ^ (a >> 15)) % 0x100_0000_0000,
        Rate::Half => (((c << 20) ^ (b << 4)) ^ (a >> 12)) % 0x1_0000_0000,
    }
}

// The sixteen bits of a unit, from its coded bytes and the two before them.
fn unit_bits(rate: Rate, table: &[u64; 256], x: u64) -> u64
    requires { Words rate true table.now × (x < 2 ^ 56) }
    ensures { result ≡ word_of rate true x }
{
    let one = (table[byte_of(x, 6)] >> 32) << 14;
    let two = one ^ ((table[byte_of(x, 5)] >> 56) << 12);
    let three = two ^ ((table[byte_of(x, 4)] >> 48) << 8);
    let four = three ^ ((table[byte_of(x, 3)] >> 36) << 4);
    let five = four ^ (table[byte_of(x, 2)] >> 16);
    let six = five ^ table[byte_of(x, 1)];
    (six ^ (table[byte_of(x, 0)] >> 60)) % 0x1_0000
}

// The bits of m bytes from byte j on.
fn load(bytes: &[u8], j: usize, m: usize) -> u64
    requires { (j + m ≤ length bytes.now) × (m ≤ 8) }
    ensures { result ≡ number (8 * m) (λ i. bit_at bytes.now (8 * j + i)) }
{
    let mut word: u64 = 0;
    for k in 0..m {
        word = (word << 8) | (bytes[j + k] as u64);
    }
    word
}

// Stores the m bytes of a word at byte j: after the first j bytes of a stream f, the next m.
fn store(word: u64, m: usize, j: usize, out: &mut [u8])
    requires { (j + m ≤ length out.old) × (m ≤ 8) }
    ensures { (f : ℕ → ℕ) → ((i : ℕ) → f i < 2) → word ≡ number (8 * m) (λ i. f (8 * j + i)) → take j out.old ≡ packed j f
        → take (j + m) out.new ≡ packed (j + m) f }
{
    for k in 0..m {
        out[j + k] = ((word >> (8 * (m - 1 - k))) % 256) as u8;
    }
}

// The byte d places before byte j, counted around the end of its frame of n bytes, of which it is byte r.
fn before(n: usize, j: usize, r: usize, d: usize) -> usize
    requires { (0 < n) × (d ≤ n) × (j / n * n + n < 2 ^ 64) × (r ≡ j % n) }
    ensures { result ≡ j / n * n + back n (j % n) d }
{
    if r < d {
        return j + (n - d);
    }
    j - d
}

// Of frames of n bytes: the bits of m bytes from byte j on, which is byte r of its frame, and of the d before it, counted around the frame's end.
fn around(n: usize, j: usize, r: usize, d: usize, m: usize, bytes: &[u8]) -> u64
    requires { Within n j d m bytes.now × (r ≡ j % n) }
    ensures { result ≡ number (8 * d + 8 * m) («around-of» n j d (bit_at bytes.now)) }
{
    (load(bytes, before(n, j, r, d), d) << (8 * m)) | load(bytes, j, m)
}

// The coded bytes of unit u.
fn load_unit(rate: Rate, coded: &[u8], u: usize) -> u64
    requires { group_size rate * u + group_size rate ≤ length coded.now }
    ensures { result ≡ number (8 * group_size rate) (λ i. bit_at coded.now (8 * (group_size rate * u) + i)) }
{
    match rate {
        Rate::TwoFifths => load(coded, 5 * u, 5),
        Rate::Half => load(coded, 4 * u, 4),
    }
}

// Stores the coded bytes of unit u.
fn store_unit(rate: Rate, word: u64, u: usize, out: &mut [u8])
    requires { group_size rate * u + group_size rate ≤ length out.old }
    ensures { (f : ℕ → ℕ) → ((i : ℕ) → f i < 2) → word ≡ number (8 * group_size rate) (λ i. f (8 * (group_size rate * u) + i))
        → take (group_size rate * u) out.old ≡ packed (group_size rate * u) f → take (group_size rate * u + group_size rate) out.new
        ≡ packed (group_size rate * u + group_size rate) f }
{
    match rate {
        Rate::TwoFifths => store(word, 5, 5 * u, out),
        Rate::Half => store(word, 4, 4 * u, out),
    }
}

// The coded bits of unit u of the frames, which is unit v of its frame.
fn coded_unit(rate: Rate, table: &[u64; 256], n: usize, frames: &[u8], u: usize, v: usize) -> u64
    requires words { Words rate false table.now }
    requires bound { (12 ≤ 8 * n) × (n % 2 ≡ 0) × (u / (n / 2) * n + n ≤ length frames.now) × (v ≡ u % (n / 2)) }
    ensures { result ≡ number (8 * group_size rate) (λ i. coded_each rate (8 * n) (bit_at frames.now) (8 * (group_size rate * u) + i)) }
{
    unit_coded(rate, table, around(n, 2 * u, 2 * v, 1, 2, frames))
}

// The bits of unit u of the frames whose codings are `coded`, which is unit v of its frame.
fn frame_unit(rate: Rate, table: &[u64; 256], n: usize, coded: &[u8], u: usize, v: usize) -> u64
    requires words { Words rate true table.now }
    requires bound { (12 ≤ 8 * n) × (n % 2 ≡ 0) × (u / (n / 2) * (n / 2 * group_size rate) + n / 2 * group_size rate ≤ length coded.now) × (v ≡ u % (n / 2)) }
    ensures { result ≡ number 16 (λ i. uncoded_each rate (8 * n) (bit_at coded.now) (8 * (2 * u) + i)) }
{
    match rate {
        Rate::TwoFifths => unit_bits(rate, table, around(n / 2 * 5, 5 * u, 5 * v, 2, 5, coded)),
        Rate::Half => unit_bits(rate, table, around(n / 2 * 4, 4 * u, 4 * v, 2, 4, coded)),
    }
}

// Codes frames of n bytes (section 9.3), each by itself.
pub fn encode(rate: Rate, n: usize, count: usize, frames: &[u8], out: &mut [u8])
    requires { Buffers rate n count frames.now out.old }
    ensures { out.new ≡ packed (length out.old) (coded_each rate (8 * n) (bit_at frames.now)) }
{
    let mut table = [0u64; 256];
    fill_words(rate, false, &mut table);
    let mut v: usize = 0;
    for u in 0..frames.len() / 2 {
        store_unit(rate, coded_unit(rate, &table, n, frames, u, v), u, out);
        v = bits::next_around(n / 2, v);
    }
}

// The frames of n bytes whose codings are `coded`, by the inverse of the coder.
pub fn decode(rate: Rate, n: usize, count: usize, coded: &[u8], out: &mut [u8])
    requires { Buffers rate n count out.old coded.now }
    ensures { out.new ≡ packed (length out.old) (uncoded_each rate (8 * n) (bit_at coded.now)) }
{
    let mut table = [0u64; 256];
    fill_words(rate, true, &mut table);
    let mut v: usize = 0;
    for u in 0..out.len() / 2 {
        store(frame_unit(rate, &table, n, coded, u, v), 2, 2 * u, out);
        v = bits::next_around(n / 2, v);
    }
}

// The lowest frame whose part of `coded` is no coding, or `count`: `frames` is what `decode` found, and is coded again.
pub fn first_bad(rate: Rate, n: usize, count: usize, coded: &[u8], frames: &[u8]) -> usize
    requires buffers { Buffers rate n count frames.now coded.now }
    requires frames_value { frames.now ≡ packed (count * n) (uncoded_each rate (8 * n) (bit_at coded.now)) }
    ensures { result ≡ lowest count (no_frame rate (8 * n) (bit_at coded.now)) }
{
    let mut table = [0u64; 256];
    fill_words(rate, false, &mut table);
    let units = frames.len() / 2;
    let mut v: usize = 0;
    for u in 0..units {
        if coded_unit(rate, &table, n, frames, u, v) != load_unit(rate, coded, u) {
            return u / (n / 2);
        }
        v = bits::next_around(n / 2, v);
    }
    count
}

// A channel's coded bits (sections 8 and 9): transfer frames of n bytes, each scrambled and coded by itself; the scrambled frames are left in `between`.
pub fn encode_channel(
    rate: Rate,
    n: usize,
    count: usize,
    frames: &[u8],
    between: &mut [u8],
    out: &mut [u8],
)
    requires { Buffers rate n count frames.now out.old × (length between.old ≡ length frames.now) }
    ensures between_after { between.new ≡ packed (length between.old) (scrambled_each (8 * n) (bit_at frames.now)) }
    ensures out_after { out.new ≡ packed (length out.old) (channel rate (8 * n) (bit_at frames.now)) }
{
    scrambling::scramble_each(n, frames, between);
    encode(rate, n, count, between, out);
}

// The way back: leaves the scrambled transfer frames in `between`, which `scrambling::scramble_each` unscrambles, and answers the lowest whose coded bits are
// no coding, or `count`.
pub fn judge_channel(rate: Rate, n: usize, count: usize, coded: &[u8], between: &mut [u8]) -> usize
    requires { Buffers rate n count between.old coded.now }
    ensures between_after { between.new ≡ packed (length between.old) (uncoded_each rate (8 * n) (bit_at coded.now)) }
    ensures value { result ≡ lowest count (no_frame rate (8 * n) (bit_at coded.now)) }
{
    decode(rate, n, count, coded, between);
    first_bad(rate, n, count, coded, between)
}
