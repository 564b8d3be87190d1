// P1 into the matrix, row by row: the 36 columns of a row are 36 groups of 320 bits, one for each k, and four columns at a time are turned into nibbles of the row.
ghost use Rattle.std.specs.Prelude.{◌≡◌, ℕ, ◌+◌, ◌-◌, ◌*◌, ◌/◌, ◌%◌, ◌<◌, ◌≤◌, length, get_or};
ghost use Rattle.bits.specs.Bits.{bit_at};
ghost use Rattle.interleaving.specs.TableI.{ks};
ghost use Rattle.interleaving.specs.PM.{p1_place};
ghost use Rattle.transposing.specs.Words.{Begins, Spreads};
ghost use Rattle.pm.specs.Rows.{Changed, Shown, group_of, nibble_for, seat_of, RowsDone};

use crate::shown;
use crate::table::{index_table, k_at};

// Where the group of the row r and the column c begins in the coded frame; for a column that PIDS has, any.
fn start_of(table: &[u16; 1152], r: usize, c: usize) -> usize
    requires { (table.now ≡ ks) × (r < 32) × (c < 36) }
    ensures { (result ≡ 40 * group_of r c) × (result + 40 ≤ 45680) }
{
    let k = k_at(table, r, c);
    if k < 1142 {
        return 40 * k;
    }
    0
}

// The nibbles of the row r of every block: of the 36 columns four at a time, of the 320 bits of their k in order.
fn row_nibbles(spreads: &[u64; 256], table: &[u16; 1152], coded: &[u8], r: usize, out: &mut [u8])
    requires { (length coded.now ≡ 45680) × Spreads 256 spreads.now × (table.now ≡ ks) × (r < 32) × (length out.old ≡ 2880) }
    ensures { Begins (nibble_for (bit_at coded.now) r) 2880 out.new }
{
    for x in 0..9 {
        let a = start_of(table, r, 4 * x);
        let b = start_of(table, r, 4 * x + 1);
        let c = start_of(table, r, 4 * x + 2);
        let d = start_of(table, r, 4 * x + 3);
        transposing::four_columns(40, spreads, coded, a, b, c, d, 320 * x, out);
    }
}

// Which of the 320 bits of a k stands in each block and partition, block by block.
fn shown_bits() -> [u16; 320]
    ensures { Shown result }
{
    let mut found = [0u16; 320];
    for i in 0..320 {
        found[i] = shown(i / 20, i % 20) as u16;
    }
    found
}

// The place of the nibble z of two partitions side by side, which show the bits t and u of a k.
fn seat(t: usize, u: usize, z: usize) -> usize
    requires { (t < 320) × (u < 320) × (z < 18) }
    ensures { (result ≡ seat_of t u z) × (result < 2880) }
{
    if z < 9 {
        return 320 * z + t;
    }
    320 * (z - 9) + u
}

// Writes a row of two partitions side by side, which show the bits t and u of a k: nine bytes from place n on.
fn write_pair(nibbles: &[u8; 2880], t: usize, u: usize, n: usize, pm: &mut [u8])
    requires { (t < 320) × (u < 320) × (n + 9 ≤ length pm.old) × ((q : ℕ) → get_or nibbles.now q 0 < 16) }
    ensures { (g : ℕ → ℕ) → ((y : ℕ) → y < 9 → g (n + y) ≡ 16 * get_or nibbles.now (seat_of t u (2 * y)) 0 + get_or nibbles.now (seat_of t u (2 * y + 1)) 0) → Changed n (n + 9) g pm.old pm.new }
{
    for y in 0..9 {
        let a = seat(t, u, 2 * y);
        let b = seat(t, u, 2 * y + 1);
        pm[n + y] = 16 * nibbles[a] + nibbles[b];
    }
}

// Writes the row r of every block: its partitions two at a time.
fn write_row(nibbles: &[u8; 2880], shown: &[u16; 320], r: usize, pm: &mut [u8])
    requires { (length pm.old ≡ 46080) × Shown shown.now × (r < 32) × ((q : ℕ) → get_or nibbles.now q 0 < 16) }
    ensures { (f : ℕ → ℕ) → Begins (nibble_for f r) 2880 nibbles.now → RowsDone f r pm.old → RowsDone f (r + 1) pm.new }
{
    for i in 0..160 {
        write_pair(
            nibbles,
            usize::from(shown[2 * i]),
            usize::from(shown[2 * i + 1]),
            i / 10 * 2880 + 90 * r + i % 10 * 9,
            pm,
        );
    }
}

// Writes the coded P1 bits into the matrix, by Interleaver I; what it leaves in the cells of PIDS is free.
pub fn scatter_p1(coded: &[u8], pm: &mut [u8])
    requires { (length coded.now ≡ 45680) × (length pm.old ≡ 46080) }
    ensures { (i : ℕ) → i < 365440 → bit_at pm.new (p1_place i) ≡ bit_at coded.now i }
{
    let spreads = transposing::spreads();
    let table = index_table();
    let shown = shown_bits();
    let mut nibbles = [0u8; 2880];
    for r in 0..32 {
        row_nibbles(&spreads, &table, coded, r, &mut nibbles);
        write_row(&nibbles, &shown, r, pm);
    }
}
