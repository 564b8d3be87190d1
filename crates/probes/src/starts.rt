// Starts that are refused.
use crate::lent::{is_same, memory};
use crate::lines::{count, given, kept, small, text};
use layer1::Outcome;
use programs::Streams;

#[derive(Clone, Copy)]
enum Side {
    Sender,
    Reader,
}

// Starts a side with no delay memory.
fn start(side: Side, mode: u8, m3: &mut [u8], m4: &mut [u8]) -> Outcome {
    match side {
        Side::Sender => layer1::start_sender(mode, m3, m4, &mut [0u8; 0]),
        Side::Reader => layer1::start_reader(mode, m3, m4, &mut [0u8; 0]),
    }
}

// The answer and the state that a start gives, and whether a byte of the memory changed.
fn probe(rt: &impl Streams, side: Side, mode: u8, m3: &mut [u8], m4: &mut [u8]) {
    let before = memory(m3, m4);
    let outcome = start(side, mode, m3, m4);
    let after = memory(m3, m4);
    given(rt, outcome);
    kept(rt, is_same(&before, &after));
}

// A start on memories of these lengths.
fn lend(rt: &impl Streams, side: Side, mode: u8, n3: usize, n4: usize) {
    let mut m3 = [90u8; 27649];
    let mut m4 = [90u8; 27649];
    let a = programs::within(n3, &m3);
    let b = programs::within(n4, &m4);
    text(rt, b" in mode ");
    small(rt, mode);
    text(rt, b" on ");
    count(rt, a);
    text(rt, b" and ");
    count(rt, b);
    probe(rt, side, mode, &mut m3[..a], &mut m4[..b]);
}

// Starts a sender; its memory for MP11 is twice 18,432 bytes.
fn sender(rt: &impl Streams, mode: u8, n3: usize, n4: usize) {
    text(rt, b"start a sender");
    lend(rt, Side::Sender, mode, n3, n4);
}

// Starts a reader; its memory for MP11 is twice 27,648 bytes.
fn reader(rt: &impl Streams, mode: u8, n3: usize, n4: usize) {
    text(rt, b"start a reader");
    lend(rt, Side::Reader, mode, n3, n4);
}

pub fn starts(rt: &impl Streams) {
    sender(rt, 4, 18432, 18432);
    sender(rt, 12, 18432, 18432);
    sender(rt, 12, 18431, 18431);
    sender(rt, 11, 18431, 18432);
    sender(rt, 11, 18432, 18431);
    sender(rt, 11, 18433, 18433);
    reader(rt, 4, 27648, 27648);
    reader(rt, 12, 27648, 27648);
    reader(rt, 12, 27647, 27647);
    reader(rt, 11, 27647, 27648);
    reader(rt, 11, 27648, 27647);
    reader(rt, 11, 18432, 18432);
}
