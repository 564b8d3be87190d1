// The PM interleaving process (section 10.4.1): P1 by Interleaver I, PIDS by Interleaver II, into one matrix of 368640 cells.
#![tactic(auto)]

mod gather;
mod scatter;
mod table;

ghost use Rattle.std.specs.Prelude.{◌≡◌, ℕ, ◌+◌, ◌*◌, ◌/◌, ◌<◌, length, get_or};
ghost use Rattle.bits.specs.Bits.{bit_at, packed, written};
ghost use Rattle.interleaving.specs.Matrix.{Inside, cell_of, position_at};
ghost use Rattle.interleaving.specs.InverseI.{spot as «spot_of_lem»};
ghost use Rattle.interleaving.specs.Source.{at};
ghost use Rattle.interleaving.specs.TableI.{ks};
ghost use Rattle.interleaving.specs.PM.{v, p1_position, pids_position, p1_place, pids_place, matrix};
ghost use Rattle.interleaving.specs.FinderPM.{w, source};
ghost use Rattle.pm.specs.FirstCells.{FirstCells, pids_start};
ghost use Rattle.pm.specs.Rows.{shown_of};

pub use crate::gather::gather_p1;
use crate::scatter::scatter_p1;
pub use crate::table::index_table;
use crate::table::k_at;
pub use interleaving::Position;

// Tables 10-12 and 10-13: the partition whose turn is s, and the turn of the partition p.
const ORDER: [usize; 20] = [
    10, 2, 18, 6, 14, 8, 16, 0, 12, 4, 11, 3, 19, 7, 15, 9, 17, 1, 13, 5,
];

const TURN: [usize; 20] = [
    7, 17, 1, 11, 9, 19, 3, 13, 5, 15, 0, 10, 8, 18, 4, 14, 6, 16, 2, 12,
];

// The partition whose turn is s.
fn partition(s: usize) -> usize
    requires { s < 20 }
    ensures { (result ≡ get_or v s 0) × (result < 20) }
{
    ORDER[s]
}

// The order, for whoever needs it often to lend: a constant array is copied wherever it is read.
fn order() -> [usize; 20]
    ensures { result ≡ v }
{
    ORDER
}

// The partition whose turn is s, where the order is lent.
fn partition_at(order: &[usize; 20], s: usize) -> usize
    requires { (order.now ≡ v) × (s < 20) }
    ensures { (result ≡ get_or v s 0) × (result < 20) }
{
    order[s]
}

// The turn of the partition p.
fn turn(p: usize) -> usize
    requires { p < 20 }
    ensures { (result ≡ get_or w p 0) × (result < 20) }
{
    TURN[p]
}

// 10.2.3.3: the position of a partition, a block and a k.
fn spot(p: usize, b: usize, k: usize) -> Position
    requires { (p < 20) × (b < 16) × (k < 1152) }
    ensures { result ≡ «spot_of_lem» 36 p b k }
{
    Position {
        block: b,
        row: k * 11 % 32,
        partition: p,
        column: (k * 11 + k / 288) % 36,
    }
}

// 10.2.3: the position of the P1 bit i.
pub fn p1_position(i: usize) -> Position
    requires { i < 365440 }
    ensures { result ≡ p1_position i }
{
    let p = partition(i % 20);
    spot(p, (i / 20 + p * 7) % 16, i / 320)
}

// 10.2.4: the position of the PIDS bit i.
pub fn pids_position(i: usize) -> Position
    requires { i < 3200 }
    ensures { result ≡ pids_position i }
{
    let p = partition(i % 20);
    spot(p, i / 200, i / 20 % 10 + 1142)
}

// The position of a row and a column of the matrix.
pub fn position_of(row: usize, column: usize) -> Position
    ensures { result ≡ position_at 36 row column }
{
    Position {
        block: row / 32,
        row: row % 32,
        partition: column / 36,
        column: column % 36,
    }
}

// The cell of a position.
pub fn cell_of(p: Position) -> usize
    requires { Inside 20 16 36 p }
    ensures { result ≡ cell_of 20 36 p }
{
    (32 * p.block + p.row) * 720 + (36 * p.partition + p.column)
}

// The cell of the P1 bit i.
fn p1_cell(i: usize) -> usize
    requires { i < 365440 }
    ensures { result ≡ p1_place i }
{
    cell_of(p1_position(i))
}

// Which of the 320 bits of a k stands in the block b of the partition p.
fn shown(b: usize, p: usize) -> usize
    requires { (b < 16) × (p < 20) }
    ensures { (result ≡ shown_of b p) × (result < 320) }
{
    20 * ((b + (16 - p * 7 % 16)) % 16) + turn(p)
}

// A bit of the coded P1 frame, or of the sixteen coded PIDS frames laid end to end.
#[derive(Clone, Copy)]
pub enum Bit {
    P1(usize),
    Pids(usize),
}

// 10.4.1 turned round: the bit that stands at a position; the table of S-1 is lent.
pub fn find_by(table: &[u16; 1152], position: Position) -> Bit
    requires { (table.now ≡ ks) × Inside 20 16 36 position }
    ensures { result ≡ at Bit.P1 Bit.Pids (source position) }
{
    let p = position.partition;
    let b = position.block;
    let k = k_at(table, position.row, position.column);
    let s = turn(p);
    if k < 1142 {
        return Bit::P1((k * 16 + (b + (16 - p * 7 % 16)) % 16) * 20 + s);
    }
    Bit::Pids((b * 10 + (k - 1142)) * 20 + s)
}

// The cells of the first 320 P1 bits, whose k is 0.
fn first_cells() -> [u32; 320]
    ensures { FirstCells result }
{
    let mut cells = [0u32; 320];
    for t in 0..320 {
        cells[t] = p1_cell(t) as u32;
    }
    cells
}

// The cell of the first partition in the block and of the k that the PIDS bits from 20 m on have.
fn pids_start(m: usize) -> usize
    requires { m < 160 }
    ensures { (result ≡ pids_start m) × (result < 367956) }
{
    cell_of(spot(0, m / 10, m % 10 + 1142))
}

// Writes the 20 bits from 20 m on of the coded PIDS bits, those of one block and one k; start is the cell of the first partition.
fn scatter_pids_k(coded: &[u8], order: &[usize; 20], m: usize, start: usize, pm: &mut [u8])
    requires { (length coded.now ≡ 400) × (length pm.old ≡ 46080) × (m < 160) × (start ≡ pids_start m) × (order.now ≡ v) }
    ensures { (f : ℕ → ℕ) → bit_at pm.old ≡ written pids_place (bit_at coded.now) (20 * m) f → bit_at pm.new ≡ written pids_place (bit_at coded.now) (20 * m + 20) f }
{
    for s in 0..20 {
        let b = bits::get(coded, 20 * m + s);
        let p = partition_at(order, s);
        bits::put(pm, start + 36 * p, b);
    }
}

// Writes the coded PIDS bits into the matrix, by Interleaver II: ten k in each block.
fn scatter_pids(coded: &[u8], pm: &mut [u8])
    requires { (length coded.now ≡ 400) × (length pm.old ≡ 46080) }
    ensures { pm.new ≡ packed 46080 (written pids_place (bit_at coded.now) 3200 (bit_at pm.old)) }
{
    let order = order();
    for m in 0..160 {
        let start = pids_start(m);
        scatter_pids_k(coded, &order, m, start, pm);
    }
}

// 10.4.1: the PM matrix of an L1 frame, whatever the buffer held before.
pub fn interleave(p1: &[u8], pids: &[u8], pm: &mut [u8])
    requires { (length p1.now ≡ 45680) × (length pids.now ≡ 400) × (length pm.old ≡ 46080) }
    ensures { pm.new ≡ packed 46080 (matrix (bit_at p1.now) (bit_at pids.now)) }
{
    scatter_p1(p1, pm);
    scatter_pids(pids, pm);
}

// Reads the 20 bits from 20 m on of the coded PIDS bits, those of one block and one k; start is the cell of the first partition.
// The loop of `scatter_pids_k` the other way: one for both would take the places by closures, and read no plainer.
fn gather_pids_k(pm: &[u8], order: &[usize; 20], m: usize, start: usize, coded: &mut [u8])
    requires { (length pm.now ≡ 46080) × (length coded.old ≡ 400) × (m < 160) × (start ≡ pids_start m) × (order.now ≡ v) }
    ensures { (f : ℕ → ℕ) → bit_at coded.old ≡ written (λ i. i) (λ i. bit_at pm.now (pids_place i)) (20 * m) f → bit_at coded.new ≡ written (λ i. i) (λ i. bit_at pm.now (pids_place i)) (20 * m + 20) f }
{
    for s in 0..20 {
        let p = partition_at(order, s);
        let b = bits::get(pm, start + 36 * p);
        bits::put(coded, 20 * m + s, b);
    }
}

// Reads the coded PIDS bits out of the matrix.
pub fn gather_pids(pm: &[u8], coded: &mut [u8])
    requires { (length pm.now ≡ 46080) × (length coded.old ≡ 400) }
    ensures { coded.new ≡ packed 400 (λ i. bit_at pm.now (pids_place i)) }
{
    let order = order();
    for m in 0..160 {
        let start = pids_start(m);
        gather_pids_k(pm, &order, m, start, coded);
    }
}
