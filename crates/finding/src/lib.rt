// Whose coded bit stands in a cell of PM, and into which cell a coded bit goes, in all six modes.
#![tactic(auto)]

mod finder;
mod locator;
mod vector_u;

pub use finder::{Owner, find_in, find_in_by};
pub use locator::locate_in;
pub use vector_u::p1_coded;
