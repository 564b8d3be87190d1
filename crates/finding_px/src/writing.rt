// Interleaver I for P1' (sections 10.4.2.3 and 10.4.2.4), bit by bit: how a coded bit of a frame is written.
ghost use Rattle.std.specs.Prelude.{◌≡◌, ◌<◌, ◌≤◌, get_or};
ghost use Rattle.interleaving.specs.PX.{v4};
ghost use Rattle.interleaving.specs.PX2.{v8, frame_bits};
ghost use Rattle.finding_px.specs.Writing.{p1'_writing, written};

use locating::Writing;
use pm::Position;

// Tables 10-17 and 10-19, a table for each column: J, B, C, M and N. The first entry is for row 0, MP5; the second for row 1, MP6.
const J: [usize; 2] = [4, 8];

const B: [usize; 2] = [2, 2];

const C: [usize; 2] = [36, 36];

const M: [usize; 2] = [2, 1];

const N: [usize; 2] = [9216, 18432];

// v, of J partitions: of MP5 and of MP6.
const V4: [usize; 4] = [0, 1, 2, 3];

const V8: [usize; 8] = [0, 1, 3, 2, 4, 5, 7, 6];

// The partition whose turn is s, in MP5.
fn partition_of_4(s: usize) -> usize
    requires { s < 4 }
    ensures { (result ≡ get_or v4 s 0) × (result < 4) }
{
    V4[s]
}

// The partition whose turn is s, in MP6.
pub fn partition(s: usize) -> usize
    requires { s < 8 }
    ensures { (result ≡ get_or v8 s 0) × (result < 8) }
{
    V8[s]
}

// 10.2.3.3: how bit i, of the number k, is written in the block b and the partition p; its matrix begins at the cell `start`, and a row of it has `width` cells.
fn written(i: usize, k: usize, b: usize, p: usize, start: usize, width: usize) -> Writing
    requires { (k < 1152) × (b < 2) × (p < 8) × (start ≤ 129024) × (width ≤ 288) }
    ensures { result ≡ written i k b p start width }
{
    let row = k * 11 % 32;
    let column = (k * 11 + k / 288) % C[0];
    let position = Position {
        block: b,
        row,
        partition: p,
        column,
    };
    Writing {
        step: i,
        k,
        position,
        cell: start + ((32 * b + row) * width + (C[0] * p + column)),
    }
}

// 10.2.3, MP5: of bit i of a frame.
fn narrow(frame: usize, i: usize) -> Writing
    requires { (frame < 8) × (i < 9216) }
    ensures { result ≡ p1'_writing 0 frame i }
{
    let p = partition_of_4(i / M[0] % J[0]);
    let k = i / (J[0] * B[0]);
    written(i, k, (i + k) % B[0], p, frame * N[0], J[0] * C[0])
}

// 10.2.3, MP6: of bit i of a frame.
fn wide(frame: usize, i: usize) -> Writing
    requires { (frame < 8) × (i < 18432) }
    ensures { result ≡ p1'_writing 1 frame i }
{
    let p = partition(i / M[1] % J[1]);
    let k = i / (J[1] * B[1]);
    let b = (i / J[1] + p * 7) % B[1];
    written(i, k, b, p, frame * N[1], J[1] * C[1])
}

// How a coded bit of one of the eight P1' frames is written: row 0 is for MP5, row 1 for MP6.
pub fn write_second(row: usize, frame: usize, bit: usize) -> Writing
    requires { (row < 2) × (frame < 8) × (bit < frame_bits row) }
    ensures { result ≡ p1'_writing row frame bit }
{
    if row == 0 {
        return narrow(frame, bit);
    }
    wide(frame, bit)
}
