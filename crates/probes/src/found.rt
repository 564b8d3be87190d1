// The cell finder, rows of a matrix, and the lookup of a control block.
use crate::lent::turn_over;
use crate::lines::{count, small, text, told};
use layer1::Found;
use programs::Streams;

fn find(rt: &impl Streams, row: usize, column: usize) {
    text(rt, b"find ");
    count(rt, row);
    text(rt, b" ");
    count(rt, column);
    match layer1::find(row, column) {
        Ok(Found::P1 { bit }) => {
            text(rt, b": P1 0 ");
            count(rt, bit);
        }
        Ok(Found::Pids { frame, bit }) => {
            text(rt, b": PIDS ");
            count(rt, frame);
            text(rt, b" ");
            count(rt, bit);
        }
        Err(answer) => told(rt, answer),
    }
    text(rt, b"\n");
}

pub fn cells(rt: &impl Streams) {
    find(rt, 511, 719);
    find(rt, 512, 0);
    find(rt, 511, 720);
    find(rt, 512, 720);
}

// How long a row of PM is that is handed back.
fn pm_row(rt: &impl Streams, row: usize, pm: &[u8]) {
    text(rt, b"row ");
    count(rt, row);
    text(rt, b" of PM of ");
    count(rt, pm.len());
    text(rt, b": ");
    count(rt, layer1::pm_row(row, pm).len());
    text(rt, b"\n");
}

// How long a row of PX1 or PX2 is that is handed back.
fn px_row<'a>(rt: &impl Streams, channel: u8, row: usize, px1: &'a [u8], px2: &'a [u8]) {
    text(rt, b"channel ");
    small(rt, channel);
    text(rt, b" row ");
    count(rt, row);
    text(rt, b" of PX1 of ");
    count(rt, px1.len());
    text(rt, b" and PX2 of ");
    count(rt, px2.len());
    text(rt, b": ");
    count(rt, layer1::px_row(channel, row, px1, px2).len());
    text(rt, b"\n");
}

pub fn pm_rows(rt: &impl Streams) {
    let pm = [0u8; 46080];
    let short = [0u8; 46079];
    pm_row(rt, 0, &pm);
    pm_row(rt, 511, &pm);
    pm_row(rt, 512, &pm);
    pm_row(rt, 511, &short);
}

pub fn px_rows(rt: &impl Streams) {
    let px = [0u8; 9216];
    let short = [0u8; 9215];
    px_row(rt, 3, 511, &px, &px);
    px_row(rt, 4, 511, &px, &px);
    px_row(rt, 2, 511, &px, &px);
    px_row(rt, 5, 511, &px, &px);
    px_row(rt, 3, 512, &px, &px);
    px_row(rt, 3, 0, &short, &px);
    px_row(rt, 3, 0, &px, &short);
}

// What a lookup tells of a block.
fn look_up(rt: &impl Streams, block: &[u8]) {
    match layer1::lookup(block) {
        Ok(said) => {
            text(rt, b": mode ");
            small(rt, said.mode);
            text(rt, b" count ");
            small(rt, said.count);
            text(rt, b" number ");
            small(rt, said.reserved);
        }
        Err(answer) => told(rt, answer),
    }
    text(rt, b"\n");
}

// Block 13 of the control blocks of an L1 frame, then a byte too short and too long, and with its first bit turned over.
fn look_up_13(rt: &impl Streams, control: &mut [u8]) {
    if control.len() < 3585 {
        return;
    }
    text(rt, b"look up block 13");
    look_up(rt, &control[3328..3584]);
    text(rt, b"look up 255 bytes of it");
    look_up(rt, &control[3328..3583]);
    text(rt, b"look up 257 bytes from it on");
    look_up(rt, &control[3328..3585]);
    text(rt, b"look up it with a bit turned over");
    turn_over(control, 26624);
    look_up(rt, &control[3328..3584]);
}

// The same of control blocks whose length is known.
pub fn lookups(rt: &impl Streams, control: &mut [u8; 4096]) {
    look_up_13(rt, control);
}
