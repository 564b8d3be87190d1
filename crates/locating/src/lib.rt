// The finders turned round: into which cell a coded bit goes.
#![tactic(auto)]

mod locator;
mod locator_px;
mod writing;

pub use locator::{Located, locate};
pub use locator_px::{LocatedPx, locate_px};
pub use pm::Position;
pub use writing::{Writing, write_p1, write_pids, write_px};
