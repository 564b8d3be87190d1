// The entry points of `layer1` for C but those of a run (crate `exported_runs`): numbers and slices of numbers alone cross, and what a call returns beside its buffers is a word of fields (crate `words`). `include/layer1.h` declares them.
#![tactic(auto)]

mod decoded;
mod judged;
mod lengths;
mod questions;
mod restored;
mod row_words;
mod sharing;
mod vectors;

pub use decoded::layer1_nearest;
pub use judged::layer1_judge;
pub use lengths::{layer1_reader_length, layer1_sender_length};
pub use questions::{
    layer1_find, layer1_find_px, layer1_lookup, layer1_lookup_frame, layer1_place_of,
};
pub use restored::layer1_restore;
pub use row_words::{layer1_pm_row, layer1_px_row};
pub use sharing::layer1_share_places;
pub use vectors::layer1_fill_vector;
