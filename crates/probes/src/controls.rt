// The control sequences that a sending writes.
use crate::found::lookups;
use crate::lines::{given, small, text};
use programs::Streams;
use runs::State;

// Whether row 31, the last eight bytes, of each control block is zero.
fn is_row_31_zero(control: &[u8]) -> bool {
    for i in 0..control.len() {
        if i % 256 >= 248 {
            if control[i] != 0 {
                return false;
            }
        }
    }
    true
}

// Sends the first L1 frame of a mode, of this number and of zeros, and leaves its control blocks.
fn send(rt: &impl Streams, mode: u8, reserved: u8, control: &mut [u8; 4096]) {
    let want = layer1::sender_lengths(mode);
    let mut input = [0u8; 27649];
    input[0] = reserved;
    let mut pm = [0u8; 46080];
    let mut px1 = [0u8; 9216];
    let mut px2 = [0u8; 18432];
    let mut s3 = [0u8; 18432];
    let mut s4 = [0u8; 18432];
    let mut delay = [0u8; 27648];
    let a = programs::within(run_input::frames_length(mode, want[3], want[4]), &input);
    let c = programs::within(want[6], &px1);
    let d = programs::within(want[7], &px2);
    let e = programs::within(want[9], &s3);
    let f = programs::within(want[10], &s4);
    let g = programs::within(want[11], &delay);
    let state = State {
        mode,
        half: 0,
        age: 0,
        reserved: 0,
    };
    given(
        rt,
        run_input::send_input(
            state,
            want[3],
            want[4],
            &input[..a],
            &mut pm,
            &mut px1[..c],
            &mut px2[..d],
            control,
            &mut s3[..e],
            &mut s4[..f],
            &mut delay[..g],
        ),
    );
}

// Row 31 of the control blocks of a mode and a number.
fn row_31(rt: &impl Streams, mode: u8, reserved: u8, control: &mut [u8; 4096]) {
    text(rt, b"control of mode ");
    small(rt, mode);
    text(rt, b" number ");
    small(rt, reserved);
    send(rt, mode, reserved, control);
    if is_row_31_zero(control) {
        text(rt, b", row 31 zero\n");
        return;
    }
    text(rt, b", row 31 not zero\n");
}

// A number that is too high (document 02, S-2).
fn too_high(rt: &impl Streams, reserved: u8) {
    let mut control = [1u8; 4096];
    text(rt, b"send in mode 1 number ");
    small(rt, reserved);
    send(rt, 1, reserved, &mut control);
    text(rt, b"\n");
}

pub fn controls(rt: &impl Streams) {
    let mut control = [1u8; 4096];
    row_31(rt, 1, 0, &mut control);
    row_31(rt, 2, 0, &mut control);
    row_31(rt, 3, 0, &mut control);
    row_31(rt, 5, 0, &mut control);
    row_31(rt, 6, 0, &mut control);
    row_31(rt, 11, 0, &mut control);
    too_high(rt, 8);
    too_high(rt, 255);
    row_31(rt, 11, 6, &mut control);
    lookups(rt, &mut control);
}
