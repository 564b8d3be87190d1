// Columns of bits turned into rows: four columns, each a run of bytes, give a nibble for each of their bits. A table has the bits of every byte, each in a byte of
// its own, so that a sum of four words turns four bytes at once.
#![tactic(auto)]

ghost use Rattle.std.specs.Prelude.{◌≡◌, ℕ, ◌+◌, ◌-◌, ◌*◌, ◌/◌, ◌%◌, ◌^◌, ◌<◌, ◌≤◌, length};
ghost use Rattle.bits.specs.Bits.{bit_at};
ghost use Rattle.transposing.specs.Words.{Begins, quad, eight, spread_of, Spreads};

// The four bits of the nibble x, each in a byte of its own, the first in the highest.
fn spread_nibble(x: u64) -> u64
    requires { x < 16 }
    ensures { (result ≡ quad (λ u. x / 2 ^ (3 - u) % 2)) × (result ≤ 16843009) }
{
    ((x / 8 * 256 + x / 4 % 2) * 256 + x / 2 % 2) * 256 + x % 2
}

// The same of the byte x.
fn spread(x: u64) -> u64
    requires { x < 256 }
    ensures { result ≡ spread_of x }
{
    spread_nibble(x / 16) * 4294967296 + spread_nibble(x % 16)
}

// That of every number below N, to be looked up: of every byte, or of every nibble.
pub fn spreads<const N: usize>() -> [u64; N]
    requires { N ≤ 256 }
    ensures { Spreads N result }
{
    let mut table = [0u64; N];
    for x in 0..N {
        table[x] = spread(x as u64);
    }
    table
}

// The bits of the byte n of a column, spread.
fn spread_at(spreads: &[u64; 256], coded: &[u8], n: usize) -> u64
    requires { (n < length coded.now) × Spreads 256 spreads.now }
    ensures { (result ≡ eight (λ u. bit_at coded.now (8 * n + u))) × (result ≤ 72340172838076673) }
{
    spreads[usize::from(coded[n])]
}

// The byte u of a word, the highest first.
fn byte_of(w: u64, u: usize) -> u8
    requires { u < 8 }
    ensures { (f : ℕ → ℕ) → w ≡ eight f → ((i : ℕ) → i < 8 → f i < 256) → result ≡ f u }
{
    ((w >> (56 - 8 * u)) % 256) as u8
}

// Writes the bytes of a word from place n on.
fn store_word(w: u64, n: usize, out: &mut [u8])
    requires { n + 8 ≤ length out.old }
    ensures { (g : ℕ → ℕ) → w ≡ eight (λ u. g (n + u)) → ((q : ℕ) → g q < 256) → Begins g n out.old → Begins g (n + 8) out.new }
{
    for u in 0..8 {
        out[n + u] = byte_of(w, u);
    }
}

// The nibbles of four columns of m bytes, which begin at the bytes a, b, c and d, from place n on: one for each bit of a column.
pub fn four_columns(
    m: usize,
    spreads: &[u64; 256],
    coded: &[u8],
    a: usize,
    b: usize,
    c: usize,
    d: usize,
    n: usize,
    out: &mut [u8],
)
    requires { Spreads 256 spreads.now × (a + m ≤ length coded.now) × (b + m ≤ length coded.now) × (c + m ≤ length coded.now) × (d + m ≤ length coded.now) × (n + 8 * m ≤ length out.old) }
    ensures { (g : ℕ → ℕ) → ((q : ℕ) → g q < 256) → ((t : ℕ) → t < 8 * m → g (n + t) ≡ 8 * bit_at coded.now (8 * a + t) + 4 * bit_at coded.now (8 * b + t) + 2 * bit_at coded.now (8 * c + t) + bit_at coded.now (8 * d + t)) → Begins g n out.old → Begins g (n + 8 * m) out.new }
{
    for j in 0..m {
        let first = spread_at(spreads, coded, a + j);
        let second = spread_at(spreads, coded, b + j);
        let third = spread_at(spreads, coded, c + j);
        let fourth = spread_at(spreads, coded, d + j);
        store_word(8 * first + 4 * second + 2 * third + fourth, n + 8 * j, out);
    }
}
