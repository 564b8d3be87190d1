// The PX interleaving process (section 10.4.2): Interleaver IV over an internal matrix that takes the coded bits of two L1 frames.
#![tactic(auto)]

ghost use Rattle.std.specs.Prelude.{◌≡◌, List, true, false, ℕ, ◌+◌, ◌-◌, ◌*◌, ◌/◌, ◌%◌, ◌<◌, ◌≤◌, length, get_or, set};
ghost use Rattle.std.specs.Int.Bits.{bit_and};
ghost use Rattle.bits.specs.Bits.{bit_at, number, packed};
ghost use Rattle.interleaving.specs.PX.{partitions as «partitions-of», coded_bytes, coded_bits, after, read, is_fill, first_fill};
ghost use Rattle.px.specs.Merged.{ahead as «ahead_of_lem», near4 as «near4-of», Nears, near_mask, seen_bit, seen_mask, mixed, Status};

pub use px_gather::gather;
pub use px_steps::source;

// How many blocks on the place x of a block is from the turn that writes it.
fn ahead(kind: usize, x: usize) -> usize
    requires { (kind < 2) × (x < 1152 * «partitions-of» kind) }
    ensures { (result ≡ «ahead_of_lem» kind x) × (result < 32) }
{
    let y = (x / 72) >> kind;
    let z = x - y * (px_steps::partitions(kind) * 36);
    (12 * y + 3 * (z % 36) + 7 * (z / 36)) % 32
}

// Whether the turn q, counted around the 32, is one of the first sixteen.
fn side(q: usize) -> u8
    ensures { (result ≡ 1 - q % 32 / 16) × (result < 2) }
{
    if q % 32 < 16 {
        return 1;
    }
    0
}

// The same of four places beside each other, of which each is three blocks on from the one before.
fn near4(q: usize) -> u8
    requires { q < 32 }
    ensures { (result ≡ «near4-of» q) × (result < 16) }
{
    8 * side(q + 32) + 4 * side(q + 29) + 2 * side(q + 26) + side(q + 23)
}

// The four places for each of the 32 distances.
fn nears() -> [u8; 32]
    ensures { Nears result }
{
    let mut nears = [0u8; 32];
    for q in 0..32 {
        nears[q] = near4(q);
    }
    nears
}

// The four places in the block t of which the first is a blocks on.
fn near_half(nears: &[u8; 32], t: usize, a: usize) -> u8
    requires { (a < 32) × (t < 16) × Nears nears.now }
    ensures { (result ≡ «near4-of» ((t + (32 - a)) % 32)) × (result < 16) }
{
    nears[(t + (32 - a)) % 32]
}

// Which places of the byte g of the block t this L1 frame writes in its own half of the internal matrix; it writes the others in the other half. The first four
// places are a blocks on, and the last four b.
fn near(nears: &[u8; 32], t: usize, a: usize, b: usize) -> u8
    requires { (a < 32) × (b < 32) × (t < 16) × Nears nears.now }
    ensures { (kind g : ℕ) → kind < 2 → a ≡ «ahead_of_lem» kind (8 * g) → b ≡ «ahead_of_lem» kind (8 * g + 4) → result ≡ near_mask kind t g }
{
    16 * near_half(nears, t, a) + near_half(nears, t, b)
}

// Whether the place x is written at or before the step that reads it, where the same L1 frame writes it.
fn seen_bit(kind: usize, x: usize) -> u8
    requires { (kind < 2) × (x < 1152 * «partitions-of» kind) }
    ensures { (result ≡ seen_bit kind x) × (result < 2) }
{
    if px_steps::unwritten(kind, 15 * px_steps::block(kind) + x) {
        return 0;
    }
    1
}

// The same of the four places from x on.
fn seen_four(kind: usize, x: usize) -> u8
    requires { (kind < 2) × (x + 3 < 1152 * «partitions-of» kind) }
    ensures { (result ≡ number 4 (λ u. seen_bit kind (x + u))) × (result < 16) }
{
    let a = seen_bit(kind, x);
    let b = seen_bit(kind, x + 1);
    let c = seen_bit(kind, x + 2);
    8 * a + 4 * b + 2 * c + seen_bit(kind, x + 3)
}

// The same of the places from 4 v on, of which the first is a blocks on. Where none is 0 blocks on, they are those that the L1 frame writes in its own block 15.
fn seen_half(kind: usize, nears: &[u8; 32], v: usize, a: usize) -> u8
    requires { (kind < 2) × (v < 288 * «partitions-of» kind) × Nears nears.now × (a ≡ «ahead_of_lem» kind (4 * v)) × (a < 32) }
    ensures { (result ≡ number 4 (λ u. seen_bit kind (4 * v + u))) × (result < 16) }
{
    let q = (32 - a) % 32;
    if q % 3 + q / 10 == 0 {
        return seen_four(kind, 4 * v);
    }
    near_half(nears, 15, a)
}

// The same of the eight places of the byte g: the first four are a blocks on, and the last four b.
fn seen(kind: usize, nears: &[u8; 32], a: usize, b: usize, g: usize) -> u8
    requires { (kind < 2) × (g < 144 * «partitions-of» kind) × Nears nears.now × (a ≡ «ahead_of_lem» kind (8 * g)) × (b ≡ «ahead_of_lem» kind (8 * g + 4))
        × (a < 32) × (b < 32) }
    ensures { result ≡ seen_mask kind g }
{
    16 * seen_half(kind, nears, 2 * g, a) + seen_half(kind, nears, 2 * g + 1, b)
}

// The byte x, with the bits of a where m has ones.
fn mix(x: u8, a: u8, m: u8) -> u8
    ensures { result ≡ mixed x a m }
{
    x ^ ((x ^ a) & m)
}

// The coded bits in the byte j of px go to the byte o of the internal matrix or to the byte q of the other half, and px shows them or what stood there.
fn merge_byte(o: usize, q: usize, j: usize, near: u8, seen: u8, memory: &mut [u8], px: &mut [u8])
    requires { (o < length memory.old) × (q < length memory.old) × (j < length px.old) }
    ensures memory_after { memory.new ≡ set (set memory.old o (mixed (get_or memory.old o 0) (get_or px.old j 0) near)) q (mixed (get_or px.old j 0) (get_or memory.old q 0) near) }
    ensures px_after { px.new ≡ set px.old j (mixed (get_or memory.old o 0) (get_or px.old j 0) (bit_and near seen)) }
{
    let a = px[j];
    let x = memory[o];
    let y = memory[q];
    px[j] = mix(x, a, near & seen);
    memory[o] = mix(x, a, near);
    memory[q] = mix(a, y, near);
}

// The byte g of each block.
fn merge_turns(
    kind: usize,
    half: usize,
    nears: &[u8; 32],
    a: usize,
    b: usize,
    seen: u8,
    g: usize,
    memory: &mut [u8],
    px: &mut [u8],
)
    requires kind_bound { (kind < 2) × (half < 2) × (g < 144 * «partitions-of» kind) × Nears nears.now × (seen ≡ seen_mask kind g) × (a ≡ «ahead_of_lem» kind (8 * g)) × (b ≡ «ahead_of_lem» kind (8 * g + 4)) × (a < 32) × (b < 32) }
    requires memory_len { (length memory.old ≡ 2 * coded_bytes kind) × (length px.old ≡ coded_bytes kind) }
    ensures { (m p : List ℕ) → Status kind half memory.old px.old m p (16 * g) → Status kind half memory.new px.new m p (16 * g + 16) }
{
    let size = px_steps::block(kind) / 8;
    for t in 0..16 {
        let j = size * t + g;
        let o = px_steps::byte_of(kind, half, j);
        let q = px_steps::byte_of(kind, 1 - half, j);
        let m = near(nears, t, a, b);
        merge_byte(o, q, j, m, seen, memory, px);
    }
}

// The coded bits in px, at the places that they are written to, go into the internal matrix, and px shows what the steps read.
fn merge(kind: usize, half: usize, memory: &mut [u8], px: &mut [u8])
    requires { (kind < 2) × (half < 2) × (length memory.old ≡ 2 * coded_bytes kind) × (length px.old ≡ coded_bytes kind) }
    ensures { Status kind half memory.new px.new memory.old px.old (16 * (144 * «partitions-of» kind)) }
{
    let nears = nears();
    let size = px_steps::block(kind) / 8;
    for g in 0..size {
        let a = ahead(kind, 8 * g);
        let b = ahead(kind, 8 * g + 4);
        let seen = seen(kind, &nears, a, b, g);
        merge_turns(kind, half, &nears, a, b, seen, g, memory, px);
    }
}

// 10.2.2.2, one L1 frame through the internal matrix: each step writes a coded bit and then reads one. Each cell is written once in two L1 frames, so that the
// coded bits can be laid out at their places first, and then go to the one half or the other, and to what is read, eight at a time.
pub fn pass(kind: usize, half: usize, coded: &[u8], memory: &mut [u8], px: &mut [u8])
    requires kind_bound { (kind < 2) × (half < 2) }
    requires coded_len { (length coded.now ≡ coded_bytes kind) × (length memory.old ≡ 2 * coded_bytes kind) × (length px.old ≡ coded_bytes kind) }
    ensures memory_after { memory.new ≡ packed (2 * coded_bytes kind) (after kind half (bit_at coded.now) (bit_at memory.old) (coded_bits kind)) }
    ensures px_after { px.new ≡ packed (coded_bytes kind) (read kind half (bit_at coded.now) (bit_at memory.old)) }
{
    px_lanes::fresh(kind, coded, px);
    merge(kind, half, memory, px);
}

// Whether the bit j of an L1 frame's matrix is 1 though it is read before its cell is written.
fn is_fill(kind: usize, half: usize, px: &[u8], j: usize) -> bool
    requires { (kind < 2) × (half < 2) × (length px.now ≡ coded_bytes kind) × (j < coded_bits kind) }
    ensures { result ≡ is_fill kind half (bit_at px.now) j }
{
    if bits::get(px, j) == 1 {
        return px_steps::unwritten(kind, px_steps::step_of(kind, half, j));
    }
    false
}

// The lowest such bit of the byte j; the next byte's first bit where there is none. A byte of zeros has none.
fn fill_in_byte(kind: usize, half: usize, px: &[u8], j: usize) -> usize
    requires { (kind < 2) × (half < 2) × (length px.now ≡ coded_bytes kind) × (j < coded_bytes kind) }
    ensures by_index { (i : ℕ) → 8 * j ≤ i → i < result → is_fill kind half (bit_at px.now) i ≡ false }
    ensures upper_bound { (result ≤ 8 * j + 8) × (result < 8 * j + 8 → (8 * j ≤ result) × (is_fill kind half (bit_at px.now) result ≡ true)) }
{
    if px[j] == 0 {
        return 8 * j + 8;
    }
    for u in 0..8 {
        if is_fill(kind, half, px, 8 * j + u) {
            return 8 * j + u;
        }
    }
    8 * j + 8
}

// The lowest bit of an L1 frame's matrix that is 1 though it is read before its cell is written; their number where there is none.
pub fn first_fill(kind: usize, half: usize, px: &[u8]) -> usize
    requires { (kind < 2) × (half < 2) × (length px.now ≡ coded_bytes kind) }
    ensures { result ≡ first_fill kind half (bit_at px.now) }
{
    for j in 0..px.len() {
        let r = fill_in_byte(kind, half, px, j);
        if r < 8 * j + 8 {
            return r;
        }
    }
    8 * px.len()
}
