// The coded bits of an L1 frame of PX (section 10.4.2) at the places that they are written to, row by row: one look-up gives the bits that a coded byte has
// for an entry of each partition, each as a digit to the base of 16, so that a sum of four of them turns four columns at once.
#![tactic(auto)]

ghost use Rattle.std.specs.Prelude.{◌≡◌, List, ℕ, ◌+◌, ◌-◌, ◌*◌, ◌/◌, ◌%◌, ◌^◌, ◌<◌, ◌≤◌, length, get_or};
ghost use Rattle.bits.specs.Bits.{bit_at, packed};
ghost use Rattle.interleaving.specs.PX.{partitions as «partitions-of», runs as «runs_of», coded_bytes, coded_bits};
ghost use Rattle.interleaving.specs.FinderPX.{source as «source_of»};
ghost use Rattle.transposing.specs.Words.{Begins};
ghost use Rattle.px_lanes.specs.Laid.{hex, lane_bit, lane_at, column_at, quad_at, Laid};

// The bit of the coded byte x that the partition p takes for the entry e of a run.
fn lane_bit(kind: usize, e: usize, x: usize, p: usize) -> u16
    requires { (kind < 2) × (e < «runs_of» kind) × (x < 256) × (p < 4) }
    ensures { (result ≡ lane_bit kind e x p) × (result < 2) }
{
    let s = px_steps::step(kind, p % px_steps::partitions(kind), e);
    ((x >> (7 - s)) % 2) as u16
}

// That of every partition.
fn lane(kind: usize, e: usize, x: usize) -> u16
    requires { (kind < 2) × (e < «runs_of» kind) × (x < 256) }
    ensures { result ≡ hex (lane_bit kind e x) }
{
    let a = lane_bit(kind, e, x, 0);
    let b = lane_bit(kind, e, x, 1);
    let c = lane_bit(kind, e, x, 2);
    let d = lane_bit(kind, e, x, 3);
    ((a * 16 + b) * 16 + c) * 16 + d
}

// Those of every byte and entry, to be looked up.
fn fill_lanes(kind: usize, lanes: &mut [u16; 1024])
    requires { (kind < 2) × (length lanes.old ≡ 1024) }
    ensures { Begins (lane_at kind) (256 * «runs_of» kind) lanes.new }
{
    let n = 256 * px_steps::runs(kind);
    for i in 0..n {
        lanes[i] = lane(kind, i / 256, i % 256);
    }
}

// The entry of a turn that stands at the place n of a partition's block, counted across its rows.
fn entry_in(n: usize) -> usize
    requires { n < 1152 }
    ensures { (result ≡ 5027 * n % 1152) × (result < 1152) }
{
    5027 * n % 1152
}

// The bits of the entry n, of the turn from which block d takes it in partition 0.
fn lane_of(kind: usize, lanes: &[u16; 1024], n: usize, d: usize, coded: &[u8]) -> u16
    requires { (kind < 2) × (n < 1152) × (d < 16) × Begins (lane_at kind) (256 * «runs_of» kind) lanes.now × (length coded.now ≡ coded_bytes kind) }
    ensures { (result ≡ column_at kind coded.now n d) × (result ≤ 4369) }
{
    let t = (d + (1152 - n)) % 16;
    let j = px_steps::block(kind) / 8 * t + (n >> (2 - kind));
    let e = n & (px_steps::runs(kind) - 1);
    lanes[256 * e + usize::from(coded[j])]
}

// The columns from 4 z on of the row r, for each of sixteen blocks.
fn four_columns(
    kind: usize,
    lanes: &[u16; 1024],
    r: usize,
    z: usize,
    coded: &[u8],
    quads: &mut [u16; 144],
)
    requires { (kind < 2) × (r < 32) × (z < 9) × Begins (lane_at kind) (256 * «runs_of» kind) lanes.now × (length coded.now ≡ coded_bytes kind)
        × (length quads.old ≡ 144) }
    ensures { (length quads.new ≡ 144) × (Begins (quad_at kind coded.now r) (16 * z) quads.old
        → Begins (quad_at kind coded.now r) (16 * z + 16) quads.new) }
{
    let n = 36 * r + 4 * z;
    let first = entry_in(n);
    let second = entry_in(n + 1);
    let third = entry_in(n + 2);
    let fourth = entry_in(n + 3);
    for d in 0..16 {
        let a = lane_of(kind, lanes, first, d, coded);
        let b = lane_of(kind, lanes, second, d, coded);
        let c = lane_of(kind, lanes, third, d, coded);
        quads[16 * z + d] = 8 * a + 4 * b + 2 * c + lane_of(kind, lanes, fourth, d, coded);
    }
}

// The row r.
fn row_quads(kind: usize, lanes: &[u16; 1024], r: usize, coded: &[u8], quads: &mut [u16; 144])
    requires { (kind < 2) × (r < 32) × Begins (lane_at kind) (256 * «runs_of» kind) lanes.now × (length coded.now ≡ coded_bytes kind)
        × (length quads.old ≡ 144) }
    ensures { (length quads.new ≡ 144) × Begins (quad_at kind coded.now r) 144 quads.new }
{
    for z in 0..9 {
        four_columns(kind, lanes, r, z, coded, quads);
    }
}

// The nibble y of the row in the block t: four columns of the partition y / 9.
fn nibble(quads: &[u16; 144], y: usize, t: usize) -> u8
    requires { (y < 36) × (t < 16) }
    ensures { (result ≡ get_or quads.now (16 * (y % 9) + (t + 9 * (y / 9)) % 16) 0 / 2 ^ (12 - 4 * (y / 9)) % 16) × (result < 16) }
{
    let p = y / 9;
    let word = quads[16 * (y % 9) + (t + 9 * p) % 16];
    ((word >> (12 - 4 * p)) % 16) as u8
}

// Writes the byte k of the row r of every block, the byte g of the block; the bytes before it in each block stay.
fn fresh_turns(kind: usize, quads: &[u16; 144], k: usize, g: usize, px: &mut [u8])
    requires { (kind < 2) × (k < 18) × (g < 144 * «partitions-of» kind) × (length px.old ≡ coded_bytes kind) }
    ensures { (l : List ℕ) (r : ℕ) → r < 32 → 2 * k < 9 * «partitions-of» kind → 2 * g ≡ 9 * «partitions-of» kind * r + 2 * k
        → Begins (quad_at kind l r) 144 quads.now → Laid kind l g px.old → Laid kind l (g + 1) px.new }
{
    let size = px_steps::block(kind) / 8;
    for t in 0..16 {
        let high = nibble(quads, 2 * k, t);
        let low = nibble(quads, 2 * k + 1, t);
        px[size * t + g] = 16 * high + low;
    }
}

// Writes the row r of every block.
fn fresh_row(kind: usize, quads: &[u16; 144], r: usize, px: &mut [u8])
    requires { (kind < 2) × (r < 32) × (length px.old ≡ coded_bytes kind) }
    ensures { (l : List ℕ) → Begins (quad_at kind l r) 144 quads.now
        → Laid kind l (9 * («partitions-of» kind / 2) * r) px.old → Laid kind l (9 * («partitions-of» kind / 2) * (r + 1)) px.new }
{
    let w = 9 * (px_steps::partitions(kind) / 2);
    for k in 0..w {
        fresh_turns(kind, quads, k, w * r + k, px);
    }
}

// The coded bits of an L1 frame at the places that they are written to, in either half of the internal matrix.
pub fn fresh(kind: usize, coded: &[u8], px: &mut [u8])
    requires { (kind < 2) × (length coded.now ≡ coded_bytes kind) × (length px.old ≡ coded_bytes kind) }
    ensures { px.new ≡ packed (coded_bytes kind) (λ i. bit_at coded.now («source_of» kind i % coded_bits kind)) }
{
    let mut lanes = [0u16; 1024];
    let mut quads = [0u16; 144];
    fill_lanes(kind, &mut lanes);
    for r in 0..32 {
        row_quads(kind, &lanes, r, coded, &mut quads);
        fresh_row(kind, &quads, r, px);
    }
}
