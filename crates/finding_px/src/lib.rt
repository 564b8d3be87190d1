// Whose coded bit stands in a cell of PX1 or PX2, into which cell of them a coded bit goes, and how P1' is written there, in all six modes.
#![tactic(auto)]

mod finder;
mod locator;
mod older;
mod second;
mod writing;

pub use finder::{FoundPxIn, find_px_in};
pub use locator::locate_px_in;
pub use older::as_older;
pub use second::{columns, delay, row_of};
pub use writing::write_second;
