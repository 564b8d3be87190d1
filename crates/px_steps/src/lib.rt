// The steps of the PX interleaving process (section 10.4.2) and the cells that they write: the tables, and Interleaver IV turned round.
#![tactic(auto)]

ghost use Rattle.std.specs.Prelude.{◌≡◌, ltb, get_or, ◌+◌, ◌-◌, ◌*◌, ◌/◌, ◌%◌, ◌<◌, ◌≤◌};
ghost use Rattle.interleaving.specs.InverseIV.{missed as «missed-of», count, index};
ghost use Rattle.interleaving.specs.PX.{partitions as «partitions-of», runs as «runs_of», order as «order-of», coded_bytes, coded_bits, cells};
ghost use Rattle.interleaving.specs.PX.{blocks as «blocks-of», columns as «columns_of», step_of};
ghost use Rattle.interleaving.specs.FinderPX.{source as «source_of»};

// Tables 10-15, 10-16 and 10-18, a table for each column: J, B, C, M, and the bytes of an L1 frame's coded bits, which are those of eight frames of b bits.
// The first entry is for kind 0, the row of MP2; the second for kind 1, that of MP3, MP11 and MP5.
const J: [usize; 2] = [2, 4];

const B: [usize; 2] = [32, 32];

const C: [usize; 2] = [36, 36];

const M: [usize; 2] = [4, 2];

const BYTES: [usize; 2] = [4608, 9216];

// v, of J partitions: of kind 0 and of kind 1.
const V2: [usize; 2] = [0, 1];

const V4: [usize; 4] = [0, 1, 2, 3];

// J, the number of partitions. This and the ones below are used for every bit: an index that is a number costs nothing, where one by kind copies the table. One
// function for the five would take two numbers and the kind, and read no plainer than the `if`.
pub fn partitions(kind: usize) -> usize
    requires { kind < 2 }
    ensures { (result ≡ «partitions-of» kind) × (0 < result) × (result ≤ 4) }
{
    if kind == 0 {
        return J[0];
    }
    J[1]
}

// B, the number of interleaver blocks.
pub fn block_count(kind: usize) -> usize
    ensures { result ≡ «blocks-of» }
{
    if kind == 0 {
        return B[0];
    }
    B[1]
}

// C, the columns of a partition.
pub fn columns(kind: usize) -> usize
    ensures { result ≡ «columns_of» }
{
    if kind == 0 {
        return C[0];
    }
    C[1]
}

// v: the partition whose turn is s.
pub fn partition(kind: usize, s: usize) -> usize
    requires { (kind < 2) × (s < «partitions-of» kind) }
    ensures { result ≡ get_or («order-of» kind) s 0 }
{
    if kind == 0 {
        return V2[s];
    }
    V4[s]
}

// M, the length of a run of bits that go to one partition: 2 to the power 2 - kind, so that a shift divides by it and a mask gives the remainder.
pub fn runs(kind: usize) -> usize
    requires { kind < 2 }
    ensures { (result ≡ «runs_of» kind) × (0 < result) × (result ≤ 4) }
{
    if kind == 0 {
        return M[0];
    }
    M[1]
}

// The bytes of an L1 frame's coded bits.
fn coded_bytes(kind: usize) -> usize
    requires { kind < 2 }
    ensures { (result ≡ coded_bytes kind) × (result ≤ 9216) }
{
    if kind == 0 {
        return BYTES[0];
    }
    BYTES[1]
}

// The coded bits.
pub fn coded_bits(kind: usize) -> usize
    requires { kind < 2 }
    ensures { (result ≡ coded_bits kind) × (result ≤ 73728) }
{
    8 * coded_bytes(kind)
}

// The steps that the partition p misses at the start: with the offset of 10.2.6.1, partition 0 begins within a run.
pub fn missed(m: usize, p: usize) -> usize
    requires { m ≤ 4 }
    ensures { (result ≡ «missed-of» m p) × (result ≤ 2) }
{
    if p == 0 {
        return 2 * (m / 4);
    }
    0
}

// 10.2.6.2 to 10.2.6.4 turned round: the entry of the partition p that stands at a block, a row and a column.
fn entry_at(p: usize, b: usize, r: usize, c: usize) -> usize
    requires { (p < 4) × (b < 32) × (r < 32) × (c < 36) }
    ensures { (result ≡ count 32 36 5027 p b r c) × (result < 36864) }
{
    let y = 5027 * (r * 36 + c) % 1152;
    (b + (32 - (y + p * 7) % 32)) % 32 * 1152 + y
}

// 10.2.6.1 turned round: the step that writes the entry n of the partition p.
pub fn step(kind: usize, p: usize, n: usize) -> usize
    requires { (kind < 2) × (p < «partitions-of» kind) × (n < 36864) }
    ensures { result ≡ index («partitions-of» kind) («runs_of» kind) p n }
{
    let m = runs(kind);
    let x = n + missed(m, p);
    let q = x >> (2 - kind);
    (q * partitions(kind) + p) * m + (x & (m - 1)) - 2 * (m / 4)
}

// 10.2.6 turned round: the step that writes the cell c, in the row y of 36 * J cells, 72 or 144.
pub fn source(kind: usize, c: usize) -> usize
    requires { (kind < 2) × (c < cells kind) }
    ensures { result ≡ «source_of» kind c }
{
    let y = (c / 72) >> kind;
    let x = c - y * (partitions(kind) * 36);
    let p = x / 36;
    step(kind, p, entry_at(p, y / 32, y % 32, x % 36))
}

// The step of the bit j of an L1 frame.
pub fn step_of(kind: usize, half: usize, j: usize) -> usize
    requires { (kind < 2) × (half < 2) × (j < coded_bits kind) }
    ensures { (result ≡ step_of kind half j) × (result < cells kind) }
{
    half * coded_bits(kind) + j
}

// The byte j of an L1 frame, counted through the two L1 frames of the internal matrix.
pub fn byte_of(kind: usize, half: usize, j: usize) -> usize
    requires { (kind < 2) × (half < 2) × (j < coded_bytes kind) }
    ensures { (result ≡ half * coded_bytes kind + j) × (result < 2 * coded_bytes kind) }
{
    half * coded_bytes(kind) + j
}

// The cells of a block of 32 rows.
pub fn block(kind: usize) -> usize
    requires { kind < 2 }
    ensures { (result ≡ 1152 * «partitions-of» kind) × (result ≤ 4608) }
{
    if kind == 0 {
        return 32 * C[0] * J[0];
    }
    32 * C[1] * J[1]
}

// Whether the step i reads its cell before the step that writes it: by the blocks from that one's turn to the cell's, and by the two steps where there are
// none.
pub fn unwritten(kind: usize, i: usize) -> bool
    requires { (kind < 2) × (i < cells kind) }
    ensures { result ≡ ltb i («source_of» kind i) }
{
    let y = (i / 72) >> kind;
    let x = i - y * (partitions(kind) * 36);
    let s = (12 * (y % 32) + 3 * (x % 36) + 7 * (x / 36)) % 32;
    if y / 32 < s {
        return true;
    }
    if 0 < s {
        return false;
    }
    i < source(kind, i)
}
