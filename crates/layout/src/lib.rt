// Document 02, S-13: a dump and an L1 frame in bytes.
#![tactic(auto)]

mod headers;
mod lengths;

pub use headers::{head_answer, header_of, word_at};
pub use lengths::{end_of, frame_bytes};
