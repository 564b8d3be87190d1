// The input of an answer sheet: a list, an empty line and L1 frames end to end.
#![tactic(auto)]

mod inputs;

pub use inputs::{are_named, empty_at, empty_line, frame_size, frames_size, is_older};
