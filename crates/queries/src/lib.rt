// Documents 01 and 02: what a cell of PM holds and where a row and a column stand, and what a control block or the sixteen of an L1 frame say; and what a cell of PX1 or PX2 holds.
#![tactic(auto)]

mod blocks;
mod finder;
mod finder_px;
mod places;

pub use blocks::{BlockNumbers, FrameNumbers, lookup, lookup_frame};
pub use finder::{Found, find, find_by};
pub use finder_px::{FoundPx, columns, find_px, kind_of_number};
pub use places::place_of;
pub use pm::Position;
