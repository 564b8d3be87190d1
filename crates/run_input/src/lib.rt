// An L1 frame to be sent out of a program's input.
#![tactic(auto)]

mod inputs;

pub use inputs::{frames_length, number_of, send_frame, send_input};
