// P1 out of the matrix, row by row: the nibbles of a row, four columns each, are turned into bytes of the groups of 320 bits that the columns are.
ghost use Rattle.std.specs.Prelude.{◌≡◌, ℕ, ◌+◌, ◌*◌, ◌/◌, ◌%◌, ◌<◌, ◌≤◌, length, get_or};
ghost use Rattle.bits.specs.Bits.{bit_at, number, packed};
ghost use Rattle.interleaving.specs.TableI.{ks};
ghost use Rattle.interleaving.specs.PM.{p1_place};
ghost use Rattle.pm.specs.FirstCells.{FirstCells};
ghost use Rattle.transposing.specs.Words.{Begins, quad, Spreads};
ghost use Rattle.pm.specs.Rows.{Changed, nibble_in, word_in, ColumnsDone};

use crate::first_cells;
use crate::table::{index_table, k_at};

// The nibble z, counted from the byte n on.
fn nibble(pm: &[u8], n: usize, z: usize) -> u8
    requires { n + z / 2 < length pm.now }
    ensures { result ≡ number 4 (λ i. bit_at pm.now (8 * n + 4 * z + i)) }
{
    let j = n + z / 2;
    if z % 2 == 0 {
        return pm[j] / 16;
    }
    pm[j] % 16
}

// Reads nine nibbles from the byte n on, after the first odd ones: those of the number t modulo 320.
fn nine_nibbles(pm: &[u8], n: usize, odd: usize, t: usize, out: &mut [u8; 2880])
    requires { (n + 5 ≤ length pm.now) × (odd < 2) × (t < 320) × (length out.old ≡ 2880) }
    ensures { (length out.new ≡ 2880) × ((g : ℕ → ℕ) → ((x : ℕ) → x < 9 → g (9 * t + x) ≡ number 4 (λ i. bit_at pm.now (8 * n + 4 * (odd + x) + i))) → Begins g (9 * t) out.old → Begins g (9 * t + 9) out.new) }
{
    for x in 0..9 {
        out[9 * t + x] = nibble(pm, n, odd + x);
    }
}

// The same, from the cell c on.
fn read_columns(pm: &[u8], c: usize, t: usize, out: &mut [u8; 2880])
    requires { (length pm.now ≡ 46080) × (c + 36 ≤ 368640) × (c % 4 ≡ 0) × (t < 320) × (length out.old ≡ 2880) }
    ensures { (length out.new ≡ 2880) × ((g : ℕ → ℕ) → ((x : ℕ) → x < 9 → g (9 * t + x) ≡ number 4 (λ i. bit_at pm.now (c + 4 * x + i))) → Begins g (9 * t) out.old → Begins g (9 * t + 9) out.new) }
{
    if c % 8 == 0 {
        nine_nibbles(pm, c / 8, 0, t, out);
        return;
    }
    nine_nibbles(pm, c / 8, 1, t, out);
}

// Reads the row r of every block and partition, in the order of the numbers modulo 320 that these have.
fn read_row(pm: &[u8], cells: &[u32; 320], r: usize, out: &mut [u8; 2880])
    requires { (length pm.now ≡ 46080) × FirstCells cells.now × (r < 32) × (length out.old ≡ 2880) }
    ensures { (length out.new ≡ 2880) × Begins (nibble_in (bit_at pm.now) r) 2880 out.new }
{
    for t in 0..320 {
        let c = cells[t] as usize;
        read_columns(pm, c + 720 * r, t, out);
    }
}

// The four bits of the nibble n, spread.
fn spread_at(spreads: &[u64; 16], nibbles: &[u8; 2880], n: usize) -> u64
    requires { Spreads 16 spreads.now × (n < 2880) × ((q : ℕ) → get_or nibbles.now q 0 < 16) }
    ensures { (result ≤ 16843009) × ((f : ℕ → ℕ) → ((i : ℕ) → f i < 2) → get_or nibbles.now n 0 ≡ number 4 f → result ≡ quad f) }
{
    let x = nibbles[n];
    spreads[usize::from(x)]
}

// Four bits of each of four columns: of the nibble n and of each ninth after it.
fn turned_four(spreads: &[u64; 16], nibbles: &[u8; 2880], n: usize) -> u64
    requires { Spreads 16 spreads.now × (n + 27 < 2880) × ((q : ℕ) → get_or nibbles.now q 0 < 16) }
    ensures { (result ≤ 252645135) × ((f : ℕ → ℕ → ℕ) → ((u i : ℕ) → f u i < 2) → ((u : ℕ) → u < 4 → get_or nibbles.now (n + 9 * u) 0 ≡ number 4 (f u)) → result ≡ quad (λ i. number 4 (λ u. f u i))) }
{
    let first = spread_at(spreads, nibbles, n);
    let second = spread_at(spreads, nibbles, n + 9);
    let third = spread_at(spreads, nibbles, n + 18);
    let fourth = spread_at(spreads, nibbles, n + 27);
    8 * first + 4 * second + 2 * third + fourth
}

// Eight bits of each.
fn turned(spreads: &[u64; 16], nibbles: &[u8; 2880], n: usize) -> u64
    requires { Spreads 16 spreads.now × (n + 63 < 2880) × ((q : ℕ) → get_or nibbles.now q 0 < 16) }
    ensures { (result < 4294967296) × ((f : ℕ → ℕ → ℕ) → ((u i : ℕ) → f u i < 2) → ((u : ℕ) → u < 8 → get_or nibbles.now (n + 9 * u) 0 ≡ number 4 (f u)) → result ≡ quad (λ i. number 8 (λ u. f u i))) }
{
    16 * turned_four(spreads, nibbles, n) + turned_four(spreads, nibbles, n + 36)
}

// A byte of each of the four columns from 4 x on of the row, forty times: the four to a word.
fn column_words(spreads: &[u64; 16], nibbles: &[u8; 2880], x: usize, words: &mut [u32; 40])
    requires { Spreads 16 spreads.now × ((q : ℕ) → get_or nibbles.now q 0 < 16) × (x < 9) × (length words.old ≡ 40) }
    ensures { (length words.new ≡ 40) × ((f : ℕ → ℕ) (r : ℕ) → ((c : ℕ) → f c < 2) → Begins (nibble_in f r) 2880 nibbles.now → Begins (word_in f r x) 40 words.new) }
{
    for j in 0..40 {
        words[j] = turned(spreads, nibbles, 72 * j + x) as u32;
    }
}

// The byte i of a word of four. `transposing::byte_of` is of a word of eight: one for both would take the width, and say no less in its place.
fn byte_in(w: u32, i: usize) -> u8
    requires { i < 4 }
    ensures { (f : ℕ → ℕ) → ((u : ℕ) → u < 4 → f u < 256) → w ≡ quad f → result ≡ f i }
{
    ((w >> (24 - 8 * i)) % 256) as u8
}

// Writes the 40 bytes of one column, the byte i of the words, from place n on.
fn copy_column(words: &[u32; 40], i: usize, n: usize, coded: &mut [u8])
    requires { (i < 4) × (n + 40 ≤ length coded.old) }
    ensures { (g : ℕ → ℕ) (f : ℕ → ℕ → ℕ) → ((j u : ℕ) → f j u < 256) → ((j : ℕ) → j < 40 → get_or words.now j 0 ≡ quad (f j)) → ((j : ℕ) → j < 40 → g (n + j) ≡ f j i) → Changed n (n + 40) g coded.old coded.new }
{
    for j in 0..40 {
        let word = words[j];
        coded[n + j] = byte_in(word, i);
    }
}

// Writes the column 4 x + i of the row r, where it is one of P1.
fn put_column(
    table: &[u16; 1152],
    words: &[u32; 40],
    r: usize,
    x: usize,
    i: usize,
    coded: &mut [u8],
)
    requires { (table.now ≡ ks) × (length coded.old ≡ 45680) × (r < 32) × (x < 9) × (i < 4) }
    ensures { (f : ℕ → ℕ) → ((q : ℕ) → f q < 2) → Begins (word_in f r x) 40 words.now → ColumnsDone f (36 * r + (4 * x + i)) coded.old → ColumnsDone f (36 * r + (4 * x + i) + 1) coded.new }
{
    let k = k_at(table, r, 4 * x + i);
    if k >= 1142 {
        return;
    }
    copy_column(words, i, 40 * k, coded);
}

// Writes the four columns.
fn put_four(table: &[u16; 1152], words: &[u32; 40], r: usize, x: usize, coded: &mut [u8])
    requires { (table.now ≡ ks) × (length coded.old ≡ 45680) × (r < 32) × (x < 9) }
    ensures { (f : ℕ → ℕ) → ((q : ℕ) → f q < 2) → Begins (word_in f r x) 40 words.now → ColumnsDone f (36 * r + 4 * x) coded.old → ColumnsDone f (36 * r + 4 * (x + 1)) coded.new }
{
    for i in 0..4 {
        put_column(table, words, r, x, i, coded);
    }
}

// Writes the columns of the row r, from its nibbles.
fn put_columns(
    spreads: &[u64; 16],
    table: &[u16; 1152],
    nibbles: &[u8; 2880],
    r: usize,
    coded: &mut [u8],
)
    requires { Spreads 16 spreads.now × (table.now ≡ ks) × ((q : ℕ) → get_or nibbles.now q 0 < 16) × (length coded.old ≡ 45680) × (r < 32) }
    ensures { (f : ℕ → ℕ) → ((q : ℕ) → f q < 2) → Begins (nibble_in f r) 2880 nibbles.now → ColumnsDone f (36 * r) coded.old → ColumnsDone f (36 * (r + 1)) coded.new }
{
    let mut words = [0u32; 40];
    for x in 0..9 {
        column_words(spreads, nibbles, x, &mut words);
        put_four(table, &words, r, x, coded);
    }
}

// Reads the coded P1 bits out of the matrix.
pub fn gather_p1(pm: &[u8], coded: &mut [u8])
    requires { (length pm.now ≡ 46080) × (length coded.old ≡ 45680) }
    ensures { coded.new ≡ packed 45680 (λ i. bit_at pm.now (p1_place i)) }
{
    let spreads = transposing::spreads();
    let table = index_table();
    let cells = first_cells();
    let mut nibbles = [0u8; 2880];
    for r in 0..32 {
        read_row(pm, &cells, r, &mut nibbles);
        put_columns(&spreads, &table, &nibbles, r, coded);
    }
}
