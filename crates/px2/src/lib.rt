// The PX interleaving process of P1' (sections 10.4.2.3 and 10.4.2.4): Interleaver I takes each of the eight P1' frames of an L1 frame to a matrix of its own.
// The bits of one k are a byte of the coded frame in MP5 and two in MP6; the matrix is written in the order of its cells, four columns at a time.
#![tactic(auto)]

ghost use Rattle.std.specs.Prelude.{◌≡◌, List, ℕ, ◌+◌, ◌*◌, ◌<◌, ◌≤◌, length, get_or};
ghost use Rattle.bits.specs.Bits.{bit_at, written};
ghost use Rattle.interleaving.specs.EquationsI.{row as «row-of», column as «column-of»};
ghost use Rattle.interleaving.specs.PX.{v4};
ghost use Rattle.interleaving.specs.PX2.{v8, frame_bits, place as «place_of»};
ghost use Rattle.transposing.specs.Words.{Begins, Spreads};
ghost use Rattle.px2.specs.Places.{turn_of, byte_in, Starts, row_of, pair_of, Changed};

// Tables 10-17 and 10-19, a table for each column: J, B, C, M and N. The first entry is for row 0, MP5; the second for row 1, MP6.
const J: [usize; 2] = [4, 8];

const B: [usize; 2] = [2, 2];

const C: [usize; 2] = [36, 36];

const M: [usize; 2] = [2, 1];

const N: [usize; 2] = [9216, 18432];

// v, of J partitions: of MP5 and of MP6. Each is its own inverse, so that it gives the turn of a partition too.
const V4: [usize; 4] = [0, 1, 2, 3];

const V8: [usize; 8] = [0, 1, 3, 2, 4, 5, 7, 6];

// The turn of the partition p, in MP5.
fn turn_of_4(p: usize) -> usize
    requires { p < 4 }
    ensures { (result ≡ get_or v4 p 0) × (result < 4) }
{
    V4[p]
}

// The turn of the partition p, in MP6.
fn turn_of_8(p: usize) -> usize
    requires { p < 8 }
    ensures { (result ≡ get_or v8 p 0) × (result < 8) }
{
    V8[p]
}

// The pairs of partitions.
fn pairs(row: usize) -> usize
    requires { row < 2 }
    ensures { result ≡ 2 * (row + 1) }
{
    J[row] / 2
}

// The bytes of a frame's coded bits.
fn frame_bytes(row: usize) -> usize
    requires { row < 2 }
    ensures { result ≡ 1152 * (row + 1) }
{
    N[row] / 8
}

// Which bit of a k stands in the block b and the partition p; in MP5 the row r tells whether k is odd.
fn turn(row: usize, b: usize, r: usize, p: usize) -> usize
    requires { (row < 2) × (b < 2) × (r < 32) × (p < 4 * (row + 1)) }
    ensures { (result ≡ turn_of row b r p) × (result < 8 * (row + 1)) }
{
    if row == 0 {
        return M[0] * turn_of_4(p) + (b + r) % B[0];
    }
    J[1] * ((b + p) % B[1]) + M[1] * turn_of_8(p)
}

// 10.2.3.3: the place of k in its block, row by row.
fn place(k: usize) -> usize
    requires { k < 1152 }
    ensures { (result ≡ 36 * «row-of» k + «column-of» 36 k) × (result < 1152) }
{
    C[0] * (k * 11 % 32) + (k * 11 + k / 288) % C[0]
}

// 10.2.3.3 turned round: where the group of m bytes of each place's k begins.
fn starts(m: usize) -> [u16; 1152]
    requires { m ≤ 2 }
    ensures { Starts m result }
{
    let mut starts = [0u16; 1152];
    for k in 0..1152 {
        let n = place(k);
        starts[n] = (m * k) as u16;
    }
    starts
}

// Where the group at the place n begins.
fn start(m: usize, starts: &[u16; 1152], n: usize) -> usize
    requires { (n < 1152) × Starts m starts.now }
    ensures { (result ≡ get_or starts.now n 0) × (result + m ≤ 1152 * m) }
{
    usize::from(starts[n])
}

// The nibbles of the row of a block whose places are those from a on.
fn row_nibbles(
    m: usize,
    spreads: &[u64; 256],
    starts: &[u16; 1152],
    coded: &[u8],
    a: usize,
    out: &mut [u8],
)
    requires { (a + 36 ≤ 1152) × (m ≤ 2) × (length coded.now ≡ 1152 * m) × Spreads 256 spreads.now × Starts m starts.now × (length out.old ≡ 144) }
    ensures { Begins (row_of m (bit_at coded.now) starts.now a) (72 * m) out.new }
{
    for x in 0..9 {
        let n = a + 4 * x;
        let first = start(m, starts, n);
        let second = start(m, starts, n + 1);
        let third = start(m, starts, n + 2);
        let fourth = start(m, starts, n + 3);
        transposing::four_columns(
            m,
            spreads,
            coded,
            first,
            second,
            third,
            fourth,
            8 * (m * x),
            out,
        );
    }
}

// The z-th of the 18 nibbles of a row and two partitions, which take the bits s and t of the groups.
fn nibble(m: usize, nibbles: &[u8; 144], s: usize, t: usize, z: usize) -> u8
    requires { (s < 8 * m) × (t < 8 * m) × (z < 18) × (m ≤ 2) }
    ensures { (f : ℕ → ℕ) (starts : List ℕ) (a : ℕ) → Begins (row_of m f starts a) (72 * m) nibbles.now → result ≡ pair_of f starts a s t z }
{
    if z < 9 {
        return nibbles[8 * (m * z) + s];
    }
    nibbles[8 * (m * (z - 9)) + t]
}

// Writes these nibbles, nine bytes, from the byte n of the matrix on, which begins at the byte first.
fn write_pair(
    m: usize,
    nibbles: &[u8; 144],
    s: usize,
    t: usize,
    first: usize,
    n: usize,
    px2: &mut [u8],
)
    requires { (s < 8 * m) × (t < 8 * m) × (m ≤ 2) × (first + n + 9 ≤ length px2.old) × (first + n + 9 ≤ 18432) }
    ensures { (f g : ℕ → ℕ) (starts l : List ℕ) (a : ℕ) → ((i : ℕ) → f i < 2) → Begins (row_of m f starts a) (72 * m) nibbles.now → ((e : ℕ) → e < 9 → g (n + e) ≡ 16 * pair_of f starts a s t (2 * e) + pair_of f starts a s t (2 * e + 1)) → Changed first n g l px2.old → Changed first (n + 9) g l px2.new }
{
    for e in 0..9 {
        let high = nibble(m, nibbles, s, t, 2 * e);
        let low = nibble(m, nibbles, s, t, 2 * e + 1);
        px2[first + n + e] = 16 * (high % 16) + low % 16;
    }
}

// Writes the row y of the matrix: the row y % 32 of the block y / 32.
fn write_row(
    row: usize,
    spreads: &[u64; 256],
    starts: &[u16; 1152],
    coded: &[u8],
    first: usize,
    y: usize,
    px2: &mut [u8],
)
    requires { (row < 2) × Spreads 256 spreads.now × Starts (row + 1) starts.now × (length coded.now ≡ 1152 * (row + 1)) × (y < 64) × (first + 1152 * (row + 1) ≤ length px2.old) × (first + 1152 * (row + 1) ≤ 18432) }
    ensures { (l : List ℕ) → Changed first (18 * ((row + 1) * y)) (byte_in row (bit_at coded.now)) l px2.old → Changed first (18 * ((row + 1) * (y + 1))) (byte_in row (bit_at coded.now)) l px2.new }
{
    let m = row + 1;
    let b = y / 32;
    let r = y % 32;
    let mut nibbles = [0u8; 144];
    row_nibbles(m, spreads, starts, coded, C[0] * r, &mut nibbles);
    let n = pairs(row);
    let from = 18 * (m * y);
    for q in 0..n {
        let s = turn(row, b, r, 2 * q);
        let t = turn(row, b, r, 2 * q + 1);
        write_pair(m, &nibbles, s, t, first, from + 9 * q, px2);
    }
}

// Writes the matrix of frame f among the eight, from the frame's coded bits.
pub fn interleave(row: usize, f: usize, coded: &[u8], px2: &mut [u8])
    requires { (row < 2) × (f < 8) × (length coded.now * 8 ≡ frame_bits row) × (length px2.old ≡ frame_bits row) }
    ensures { bit_at px2.new ≡ written (λ i. «place_of» row (f * frame_bits row + i)) (bit_at coded.now) (frame_bits row) (bit_at px2.old) }
{
    let m = row + 1;
    let spreads = transposing::spreads();
    let starts = starts(m);
    let first = f * frame_bytes(row);
    for y in 0..64 {
        write_row(row, &spreads, &starts, coded, first, y, px2);
    }
}
