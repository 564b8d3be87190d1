// The C library: the functions of `include/layer1.h`, each with the contract of the library's function that it calls, of the crates `exported`, `exported_places`, `exported_runs`, `exported_sheets` and `version`. What `rt lib` makes of this crate is the archive liblayer1.a. `tools/thin.py` writes these files.
#![tactic(auto)]

mod decoded;
mod found;
mod judged;
mod lengths;
mod located;
mod number;
mod questions;
mod reads;
mod restored;
mod row_words;
mod sends;
mod sharing;
mod sheet;
mod starts;
mod vectors;
mod worked;

pub use decoded::layer1_nearest;
pub use found::{layer1_find_in, layer1_find_px_in};
pub use judged::layer1_judge;
pub use lengths::{layer1_reader_length, layer1_sender_length};
pub use located::{layer1_locate, layer1_locate_in, layer1_locate_px, layer1_locate_px_in};
pub use number::layer1_version;
pub use questions::{
    layer1_find, layer1_find_px, layer1_lookup, layer1_lookup_frame, layer1_place_of,
};
pub use reads::layer1_read;
pub use restored::layer1_restore;
pub use row_words::{layer1_pm_row, layer1_px_row};
pub use sends::layer1_send;
pub use sharing::layer1_share_places;
pub use sheet::layer1_sheet;
pub use starts::{layer1_start_reader, layer1_start_sender};
pub use vectors::layer1_fill_vector;
pub use worked::{layer1_working, layer1_working_in};
