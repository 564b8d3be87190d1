// How the interleaver of its channel writes a coded bit (sections 10.2.3, 10.2.4 and 10.2.6).
ghost use Rattle.std.specs.Prelude.{◌≡◌, ◌*◌, ◌≤◌, ◌<◌};
ghost use Rattle.interleaving.specs.PX.{partitions, cells};
ghost use Rattle.locating.specs.Writing.{partition_of, counter_of, p1_writing, pids_writing, px_writing};

use pm::Position;

// The number of the bit in the equations, i; k of 10.2.3.3 or 10.2.4.3, in 10.2.6 the counter of the partition; the position in the matrix, in 10.2.6 the internal one; and its cell. The step of 10.2.6 that has a cell's number reads it.
#[derive(Clone, Copy)]
pub struct Writing {
    pub step: usize,
    pub k: usize,
    pub position: Position,
    pub cell: usize,
}

// 10.2.3: of P1 bit i.
pub fn write_p1(i: usize) -> Writing
    requires { i < 365440 }
    ensures { result ≡ p1_writing i }
{
    let position = pm::p1_position(i);
    let cell = pm::cell_of(position);
    Writing {
        step: i,
        k: i / 320,
        position,
        cell,
    }
}

// 10.2.4: of PIDS bit i of the sixteen frames.
pub fn write_pids(i: usize) -> Writing
    requires { i < 3200 }
    ensures { result ≡ pids_writing i }
{
    let position = pm::pids_position(i);
    let cell = pm::cell_of(position);
    Writing {
        step: i,
        k: i / 20 % 10 + 1142,
        position,
        cell,
    }
}

// An entry of a partition of the internal matrix.
#[derive(Clone, Copy)]
struct Entry {
    partition: usize,
    count: usize,
}

// 10.2.6.1: the partition that step i goes to, and the counter that it fetches. In MP2 (kind 0) M is 4, and with the offset of 2 partition 0 begins within a run; else M is 2.
fn entry_of(kind: usize, i: usize) -> Entry
    requires { (kind < 2) × (i < cells kind) }
    ensures { (result.partition ≡ partition_of kind i) × (result.count ≡ counter_of kind i) × (result.partition < 4) × (result.count < 36864) }
{
    if kind == 0 {
        let x = i + 2;
        let partition = x % 8 / 4;
        let count = x / 8 * 4 + x % 4 - (2 - 2 * partition);
        return Entry { partition, count };
    }
    let partition = i % 8 / 2;
    let count = i / 8 * 2 + i % 2;
    Entry { partition, count }
}

// The cells of a row of the internal matrix.
fn width(kind: usize) -> usize
    requires { kind < 2 }
    ensures { (result ≡ partitions kind * 36) × (result ≤ 144) }
{
    if kind == 0 {
        return 72;
    }
    144
}

// 10.2.6: of step i, by its partition and counter.
pub fn write_px(kind: usize, i: usize) -> Writing
    requires { (kind < 2) × (i < cells kind) }
    ensures { (result ≡ px_writing kind i) × (result.cell < cells kind) }
{
    let e = entry_of(kind, i);
    let partition = e.partition;
    let k = e.count;
    let block = (k / 1152 + (k % 1152 + partition * 7)) % 32;
    let y = 11 * k % 1152;
    let row = y / 36;
    let column = y % 36;
    let w = width(kind);
    let cell = (32 * block + row) * w + (36 * partition + column);
    let position = Position {
        block,
        row,
        partition,
        column,
    };
    Writing {
        step: i,
        k,
        position,
        cell,
    }
}
