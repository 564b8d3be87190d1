// The lines of an answer sheet.
ghost use Rattle.std.specs.Prelude.{◌≡◌, ◌+◌, ◌≤◌, length};
ghost use Rattle.calls.specs.Called.{matrices};
ghost use Rattle.text.specs.Put.{Put};
ghost use Rattle.sheettext.specs.Texts.{asked, bit_text, channel_name, found, is_refused, matrix_name, names, of_px, owner, place, value_in, value_text};

use sheetlines::{Cell, CodedBit, Entry, Question};
use text::{field, put};

// Puts the name of the matrix in which a channel is sent, and a space.
fn put_matrix(out: &mut [u8], at: usize, channel: u8) -> usize
    requires { at + 4 ≤ length out.old }
    ensures { Put out.old out.new at result 4 (matrix_name channel) }
{
    if channel < 3 {
        return put(out, at, b"PM ");
    }
    if channel == 3 {
        return put(out, at, b"PX1 ");
    }
    put(out, at, b"PX2 ")
}

// Puts the name of a channel, and a space.
fn put_channel(out: &mut [u8], at: usize, channel: u8) -> usize
    requires { at + 5 ≤ length out.old }
    ensures { Put out.old out.new at result 5 (channel_name channel) }
{
    if channel == 1 {
        return put(out, at, b"P1 ");
    }
    if channel == 2 {
        return put(out, at, b"PIDS ");
    }
    if channel == 3 {
        return put(out, at, b"P3 ");
    }
    put(out, at, b"P4 ")
}

// Puts what a line asks for.
fn put_asked(out: &mut [u8], at: usize, question: Option<Question>) -> usize
    requires { at + 88 ≤ length out.old }
    ensures { Put out.old out.new at result 88 (asked question) }
{
    let Some(question) = question else {
        return at;
    };
    match question {
        Question::Pm { frame, row, column } => {
            let k = field(out, at, frame, b' ');
            let m = put(out, k, b"PM ");
            let n = field(out, m, row as u64, b' ');
            field(out, n, column as u64, b' ')
        }
        Question::Px {
            frame,
            channel,
            pair,
            row,
            column,
        } => {
            let k = field(out, at, frame, b' ');
            let l = put_matrix(out, k, channel);
            let m = field(out, l, pair as u64, b' ');
            let n = field(out, m, row as u64, b' ');
            field(out, n, column as u64, b' ')
        }
        Question::Bit {
            frame,
            channel,
            tframe,
            bit,
        } => {
            let k = field(out, at, frame, b' ');
            let m = put_channel(out, k, channel);
            let n = field(out, m, tframe as u64, b' ');
            field(out, n, bit as u64, b' ')
        }
    }
}

// Puts a number that P3 and P4 have, and P1 and PIDS have not.
fn put_of_px(out: &mut [u8], at: usize, channel: u8, n: u64) -> usize
    requires { at + 21 ≤ length out.old }
    ensures { Put out.old out.new at result 21 (of_px channel n) }
{
    if channel < 3 {
        return at;
    }
    field(out, at, n, b' ')
}

// Puts whose bit stands in a cell.
fn put_owner(out: &mut [u8], at: usize, coded: CodedBit) -> usize
    requires { at + 87 ≤ length out.old }
    ensures { Put out.old out.new at result 87 (owner coded) }
{
    let k = put_channel(out, at, coded.channel);
    let m = put_of_px(out, k, coded.channel, coded.from);
    let n = field(out, m, coded.frame as u64, b' ');
    text::number(out, n, coded.bit as u64)
}

// Puts in which cell a bit stands.
fn put_place(out: &mut [u8], at: usize, channel: u8, cell: Cell) -> usize
    requires { at + 87 ≤ length out.old }
    ensures { Put out.old out.new at result 87 (place channel cell) }
{
    let k = put_matrix(out, at, channel);
    let l = field(out, k, cell.sent, b' ');
    let m = put_of_px(out, l, channel, cell.pair as u64);
    let n = field(out, m, cell.row as u64, b' ');
    text::number(out, n, cell.column as u64)
}

// Puts what is found: to a bit the cell, to a cell the bit.
fn put_found(
    out: &mut [u8],
    at: usize,
    question: Option<Question>,
    coded: CodedBit,
    cell: Cell,
) -> usize
    requires { at + 87 ≤ length out.old }
    ensures { Put out.old out.new at result 87 (found question coded cell) }
{
    let Some(question) = question else {
        return at;
    };
    match question {
        Question::Pm { .. } => put_owner(out, at, coded),
        Question::Px { .. } => put_owner(out, at, coded),
        Question::Bit { .. } => put_place(out, at, coded.channel, cell),
    }
}

// Puts the names of an answer.
pub fn put_names(
    out: &mut [u8],
    at: usize,
    question: Option<Question>,
    entry: Option<Entry>,
) -> usize
    requires { at + 175 ≤ length out.old }
    ensures { Put out.old out.new at result 175 (names question entry) }
{
    let Some(entry) = entry else {
        return at;
    };
    match entry {
        Entry::Stands { coded, cell } => {
            let m = put_asked(out, at, question);
            put_found(out, m, question, coded, cell)
        }
        Entry::Fill { sent: _ } => {
            let m = put_asked(out, at, question);
            put(out, m, b"FILL")
        }
    }
}

// Puts the value of a bit that is sent, or LATER.
fn put_bit(out: &mut [u8], at: usize, sent: bool, value: u8) -> usize
    requires { at + 22 ≤ length out.old }
    ensures { Put out.old out.new at result 22 (bit_text sent value) }
{
    if !sent {
        return put(out, at, b" LATER\n");
    }
    let m = put(out, at, b" ");
    field(out, m, value as u64, b'\n')
}

// Puts what stands behind the names of an answer, in a run of `count` L1 frames.
pub fn put_value(out: &mut [u8], at: usize, count: u64, entry: Option<Entry>, value: u8) -> usize
    requires { at + 22 ≤ length out.old }
    ensures { Put out.old out.new at result 22 (value_text count entry value) }
{
    let Some(entry) = entry else {
        return at;
    };
    match entry {
        Entry::Stands { coded: _, cell } => put_bit(out, at, cell.sent < count, value),
        Entry::Fill { sent: _ } => put(out, at, b"\n"),
    }
}

// The bit that stands in a cell, of the matrices of its L1 frame.
pub fn value_of(entry: Option<Entry>, pm: &[u8], px1: &[u8], px2: &[u8]) -> u8
    ensures { result ≡ value_in (matrices pm.now px1.now px2.now) entry }
{
    let Some(entry) = entry else {
        return 0;
    };
    match entry {
        Entry::Stands { coded, cell } => {
            if coded.channel < 3 {
                return sheetlines::bit_at(pm, cell.number);
            }
            if coded.channel == 3 {
                return sheetlines::bit_at(px1, cell.number);
            }
            sheetlines::bit_at(px2, cell.number)
        }
        Entry::Fill { sent: _ } => 0,
    }
}

// Whether nothing can be answered.
pub fn is_refused(entry: Option<Entry>) -> bool
    ensures { result ≡ is_refused entry }
{
    entry.is_none()
}
