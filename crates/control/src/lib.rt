// System control processing: section 11 of SY_IDD_1011s. An internal crate: lengths and ranges are required, and the crate above gives document 01's numbers.
#![tactic(auto)]

ghost use Rattle.std.specs.Prelude.{◌≡◌, ◌+◌, ◌*◌, ◌/◌, ◌<◌, ◌≤◌, ◌%◌, ◌^◌, length, unwrap_or, IfSome};
ghost use Rattle.std.specs.Int.Bits.{bit_and};
ghost use Rattle.std.specs.Int.Count.{ones};
ghost use Rattle.bits.specs.Bits.{number};
ghost use Rattle.bits.specs.Tests.{same, lowest};
ghost use Rattle.control.specs.Modes.{covered};
ghost use Rattle.control.specs.Control.{rsid, assembled, encoded, block_of, control_of};
ghost use Rattle.control.specs.Departs.{departs, number_in, strays};
ghost use Rattle.control.specs.Lookup.{looked_up};
ghost use Rattle.control.specs.Words.{plain, digits, decoded, reserved_read};

// Table 11-3: the two rows of four, by the column's number after division by 4.
const TO_30: [u32; 4] = [0b10, 0b01, 0b00, 0b11];

const FROM_31: [u32; 4] = [0b10, 0b11, 0b00, 0b01];

// The reference subcarrier identification of a column.
fn rsid_of(column: usize) -> u32
    ensures { (result ≡ rsid column) × (result < 4) }
{
    if column < 31 {
        TO_30[column % 4]
    } else {
        FROM_31[column % 4]
    }
}

// Sync, SCI and P3ISI: the bits of Table 11-1 that are the same in every sequence.
const FIXED: u32 = 0x6440_0700;
// Bit 24, bits 21 to 19, bits 16 to 12 and bits 8 to 1.
const OVER_23: u32 = 0x0100_0000;

const OVER_18: u32 = 0x0038_0000;

const OVER_11: u32 = 0x0001_f000;

const OVER_0: u32 = 0x0000_01fe;

// The reserved bits where Table 11-1 has them: the weights 1, 2, 4 in bits 7, 16, 24.
fn reserved_bits(reserved: u8) -> u32
    requires { reserved < 8 }
    ensures { result ≡ reserved / 4 % 2 * 2 ^ 24 + reserved / 2 % 2 * 2 ^ 16 + reserved % 2 * 2 ^ 7 }
{
    let z = reserved as u32;
    ((z / 4 % 2) << 24) + ((z / 2 % 2) << 16) + ((z % 2) << 7)
}

// The fields of the sequence without the parity bits.
fn plain_of(mode: u8, count: u8, reserved: u8, column: usize) -> u32
    requires { (mode < 64) × (count < 16) × (reserved < 8) }
    ensures { (result ≡ plain mode count reserved column) × (result < 2 ^ 31) }
{
    let fields = (rsid_of(column) << 20) + ((count as u32) << 12) + ((mode as u32) << 1);
    FIXED + reserved_bits(reserved) + fields
}

// The modulo 2 sum of the bits of x at which the mask has a 1.
fn parity_under(x: u32, mask: u32) -> u32
    ensures { result ≡ ones (bit_and x mask) % 2 }
{
    u32::count_ones(x & mask) % 2
}

// The system control data sequence of a column, bit 31 first.
pub fn sequence_of(mode: u8, count: u8, reserved: u8, column: usize) -> u32
    requires { (mode < 64) × (count < 16) × (reserved < 8) }
    ensures { result ≡ number 32 (assembled mode count reserved column) }
{
    let x = plain_of(mode, count, reserved, column);
    let p23 = parity_under(x, OVER_23);
    let p18 = parity_under(x, OVER_18);
    let p11 = parity_under(x, OVER_11);
    let p0 = parity_under(x, OVER_0);
    x + (p23 << 23) + (p18 << 18) + (p11 << 11) + p0
}

// One column of a block, row 0 first: each bit of the sequence is added modulo 2 to the last one stored.
fn column_of(mode: u8, count: u8, reserved: u8, column: usize) -> u32
    requires { (mode < 64) × (count < 16) × (reserved < 8) }
    ensures { result ≡ number 32 (encoded mode count reserved column) }
{
    let x = sequence_of(mode, count, reserved, column);
    let mut y: u32 = 0;
    for row in 0..32u32 {
        y = y * 2 + ((y ^ (x >> (31 - row))) & 1);
    }
    y
}

// The digits of four columns at a place, side by side.
fn four(a: u32, b: u32, c: u32, d: u32, place: usize) -> u8
    requires { place < 32 }
    ensures { result ≡ digits a b c d place }
{
    let x = (a >> place) % 2 * 8 + (b >> place) % 2 * 4 + (c >> place) % 2 * 2 + (d >> place) % 2;
    x as u8
}

// Writes the control block of a mode, a count and reserved bits. By Table 11-3 its columns are four, which a row repeats: to column 30 in order, and then with the second and the fourth changed.
fn fill_block(mode: u8, count: u8, reserved: u8, out: &mut [u8])
    requires { (mode < 64) × (count < 16) × (reserved < 8) × (length out.old ≡ 256) }
    ensures { out.new ≡ block_of mode count reserved }
{
    let a = column_of(mode, count, reserved, 0);
    let b = column_of(mode, count, reserved, 1);
    let c = column_of(mode, count, reserved, 2);
    let d = column_of(mode, count, reserved, 3);
    for row in 0..32 {
        let place = 31 - row;
        let first = four(a, b, c, d, place);
        let middle = four(a, b, c, b, place);
        let last = four(a, d, c, b, place);
        let j = row * 8;
        out[j] = first * 17;
        out[j + 1] = first * 17;
        out[j + 2] = first * 17;
        out[j + 3] = first * 16 + middle;
        out[j + 4] = last * 17;
        out[j + 5] = last * 17;
        out[j + 6] = last * 17;
        out[j + 7] = last * 16 + last / 8 * 8;
    }
}

// Writes all sixteen blocks.
pub fn fill_control(mode: u8, reserved: u8, out: &mut [u8])
    requires { (mode < 64) × (reserved < 8) × (length out.old ≡ 4096) }
    ensures { out.new ≡ control_of mode reserved }
{
    for count in 0..16 {
        let from = count as usize * 256;
        let to = from + 256;
        fill_block(mode, count, reserved, &mut out[from..to]);
    }
}

// Whether a block is the one of this mode, this count and these reserved bits.
pub fn block_is(mode: u8, count: u8, reserved: u8, block: &[u8]) -> bool
    requires { (mode < 64) × (count < 16) × (reserved < 8) }
    ensures { result ≡ same block.now (block_of mode count reserved) }
{
    let mut want = [0; 256];
    fill_block(mode, count, reserved, &mut want);
    bits::same(block, &want)
}

// The lowest block that is not the one of this mode, its count and these reserved bits.
fn departing_from(mode: u8, reserved: u8, control: &[u8]) -> Option<u8>
    requires { (mode < 64) × (reserved < 8) × (length control.now ≡ 4096) }
    ensures lowest { unwrap_or result 16 ≡ lowest 16 (departs mode reserved control.now) }
    ensures inside { IfSome result (λ c. c < 16) }
{
    for c in 0..16 {
        let start = c as usize * 256;
        let end = start + 256;
        if !block_is(mode, c, reserved, &control[start..end]) {
            return Some(c);
        }
    }
    None
}

// What a control block alone says.
#[derive(Clone, Copy)]
pub struct BlockNumbers {
    pub mode: u8,
    pub count: u8,
    pub reserved: u8,
}

// The bit of column 0 at a row from 1 on, before differential encoding.
fn decoded_at(block: &[u8], row: usize) -> u8
    requires { (length block.now ≡ 256) × (0 < row) × (row < 32) }
    ensures { result ≡ decoded block.now row }
{
    let here = bits::get(block, row * 64);
    let above = bits::get(block, (row - 1) * 64);
    (here ^ above) & 1
}

// The k bits of column 0 from a row on, before differential encoding, as a number.
fn field_at(block: &[u8], row: usize, k: usize) -> u8
    requires { (length block.now ≡ 256) × (0 < row) × (row + k ≤ 32) × (k ≤ 6) }
    ensures { result ≡ number k (λ i. decoded block.now (row + i)) }
{
    let mut x: u8 = 0;
    for i in 0..k {
        x = (x << 1) | decoded_at(block, row + i);
    }
    x
}

// The reserved bits of column 0 as a number.
fn reserved_at(block: &[u8]) -> u8
    requires { length block.now ≡ 256 }
    ensures { (result ≡ reserved_read block.now) × (result < 8) }
{
    let z2 = decoded_at(block, 7);
    let z1 = decoded_at(block, 15);
    let z0 = decoded_at(block, 24);
    z2 * 4 + z1 * 2 + z0
}

// The number of an L1 frame's control: that of block 0, by its reserved bits and one comparison.
pub fn number_in(mode: u8, control: &[u8]) -> u8
    requires { (mode < 64) × (length control.now ≡ 4096) }
    ensures { (result ≡ number_in mode control.now) × (result < 8) }
{
    let reserved = reserved_at(&control[0..256]);
    let carried = block_is(mode, 0, reserved, &control[0..256]);
    if !carried {
        return 0;
    }
    reserved
}

// The lowest block that is not the one of this mode, its count and the number of block 0.
pub fn first_departing(mode: u8, control: &[u8]) -> Option<u8>
    requires { (mode < 64) × (length control.now ≡ 4096) }
    ensures lowest { unwrap_or result 16 ≡ lowest 16 (strays mode control.now) }
    ensures inside { IfSome result (λ c. c < 16) }
{
    let reserved = number_in(mode, control);
    departing_from(mode, reserved, control)
}

// Whether the mode is MP1, MP2, MP3, MP11, MP5 or MP6.
#[tactic(auto, unfolding(crate::specs::Modes::covered, crate::specs::Modes::one_of, crate::specs::Modes::modes))]
pub fn is_covered(mode: u8) -> bool
    ensures { result ≡ covered mode }
{
    matches!(mode, 1 | 2 | 3 | 11 | 5 | 6)
}

// The mode, count and number of a block, by the fields of its column 0 and one comparison.
pub fn lookup(block: &[u8]) -> Option<BlockNumbers>
    requires { length block.now ≡ 256 }
    ensures { result ≡ looked_up block.now }
{
    let mode = field_at(block, 25, 6);
    let count = field_at(block, 16, 4);
    let reserved = reserved_at(block);
    let known = is_covered(mode);
    if !known {
        return None;
    }
    let equal = block_is(mode, count, reserved, block);
    if !equal {
        return None;
    }
    Some(BlockNumbers {
        mode,
        count,
        reserved,
    })
}
