// Tables 12-3 to 12-6 and Table 12-12: what each element of the vector carries.
#![tactic(auto)]

ghost use Rattle.std.specs.Prelude.{◌≡◌, true, ◌+◌, ◌*◌, ◌<◌, get_or};
ghost use Rattle.subcarriers.specs.Slots.{column_source, column_table, mode_at, partition_source, partition_table, slot_source};
ghost use Rattle.subcarriers.specs.Tables.{mapped, source_at, source_of};

// What an element carries: two adjacent cells of a row of PM, PX1 or PX2, of which the first is in this column; one column of the control; or nothing.
#[derive(Clone, Copy)]
pub enum Source {
    Unused,
    Pm(usize),
    Px1(usize),
    Px2(usize),
    Control(usize),
}

// A slot is a reference subcarrier and the eighteen subcarriers above it, fifteen in a sideband, for the modes MP1, MP2, MP3, MP11.
// The reference subcarriers' columns of R; 255 for none.
const COLUMNS: [u8; 120] = [
    0, 1, 2, 3, 4, 5, 6, 7, 8, 9, 10, 255, 255, 255, 255, 255, 255, 255, 255, 50, 51, 52, 53, 54,
    55, 56, 57, 58, 59, 60, 0, 1, 2, 3, 4, 5, 6, 7, 8, 9, 10, 11, 255, 255, 255, 255, 255, 255, 49,
    50, 51, 52, 53, 54, 55, 56, 57, 58, 59, 60, 0, 1, 2, 3, 4, 5, 6, 7, 8, 9, 10, 11, 12, 255, 255,
    255, 255, 48, 49, 50, 51, 52, 53, 54, 55, 56, 57, 58, 59, 60, 0, 1, 2, 3, 4, 5, 6, 7, 8, 9, 10,
    11, 12, 13, 14, 46, 47, 48, 49, 50, 51, 52, 53, 54, 55, 56, 57, 58, 59, 60,
];

// The partitions: of PM from 0 on, of PX1 from 32 on, of PX2 from 64 on; 255 for none.
const PARTITIONS: [u8; 120] = [
    0, 1, 2, 3, 4, 5, 6, 7, 8, 9, 255, 255, 255, 255, 255, 255, 255, 255, 255, 10, 11, 12, 13, 14,
    15, 16, 17, 18, 19, 255, 0, 1, 2, 3, 4, 5, 6, 7, 8, 9, 32, 255, 255, 255, 255, 255, 255, 255,
    33, 10, 11, 12, 13, 14, 15, 16, 17, 18, 19, 255, 0, 1, 2, 3, 4, 5, 6, 7, 8, 9, 32, 33, 255,
    255, 255, 255, 255, 34, 35, 10, 11, 12, 13, 14, 15, 16, 17, 18, 19, 255, 0, 1, 2, 3, 4, 5, 6,
    7, 8, 9, 32, 33, 64, 65, 255, 66, 67, 34, 35, 10, 11, 12, 13, 14, 15, 16, 17, 18, 19, 255,
];

// Whether a mode's vectors are given.
#[tactic(auto, unfolding(crate::specs::Tables::mapped, control::specs::Modes::one_of))]
pub fn is_mapped(mode: u8) -> bool
    ensures { result ≡ mapped mode }
{
    matches!(mode, 1 | 2 | 3 | 11)
}

// A mode's place among the four.
pub fn mode_number(mode: u8) -> usize
    requires { mapped mode ≡ true }
    ensures { (result < 4) × (mode_at result ≡ mode) }
{
    match mode {
        1 => 0,
        2 => 1,
        3 => 2,
        _ => 3,
    }
}

fn column(n: usize, slot: usize) -> u8
    requires { (n < 4) × (slot < 30) }
    ensures { result ≡ get_or column_table (30 * n + slot) 0 }
{
    COLUMNS[30 * n + slot]
}

fn partition(n: usize, slot: usize) -> u8
    requires { (n < 4) × (slot < 30) }
    ensures { result ≡ get_or partition_table (30 * n + slot) 0 }
{
    PARTITIONS[30 * n + slot]
}

fn column_source(column: u8) -> Source
    ensures { result ≡ column_source column }
{
    if column < 61 {
        return Source::Control(column as usize);
    }
    Source::Unused
}

// The two cells of a partition that begin in the column.
fn partition_source(code: u8, column: usize) -> Source
    requires { column < 36 }
    ensures { result ≡ partition_source code column }
{
    let p = code as usize;
    if p < 32 {
        return Source::Pm(36 * p + column);
    }
    if p < 64 {
        return Source::Px1(36 * (p - 32) + column);
    }
    if p < 96 {
        return Source::Px2(36 * (p - 64) + column);
    }
    Source::Unused
}

// What the subcarrier so many steps above a slot's reference subcarrier carries.
fn slot_source(n: usize, slot: usize, step: usize) -> Source
    requires { (n < 4) × (slot < 30) × (step < 19) }
    ensures { result ≡ slot_source n slot step }
{
    if step == 0 {
        return column_source(column(n, slot));
    }
    partition_source(partition(n, slot), 2 * (step - 1))
}

// What element k carries in the mode of that number.
pub fn source_of(n: usize, k: usize) -> Source
    requires { (n < 4) × (k < 1093) }
    ensures { result ≡ source_of (mode_at n) k }
{
    if k < 267 {
        return slot_source(n, k / 19, k % 19);
    }
    if k < 826 {
        return Source::Unused;
    }
    let j = k - 826;
    slot_source(n, 15 + j / 19, j % 19)
}

// What element k of a mode's vectors carries, for a program that prints it once `fill_vector` has answered 0. It refuses nothing, and is no entry point of
// `layer1`: where there is no such vector or element it says that nothing is carried.
pub fn source_at(mode: u8, k: usize) -> Source
    ensures { result ≡ source_at mode k }
{
    if !is_mapped(mode) {
        return Source::Unused;
    }
    if k >= 1093 {
        return Source::Unused;
    }
    source_of(mode_number(mode), k)
}
