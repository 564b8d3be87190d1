// The text of an answer sheet, put behind what a buffer holds: each function answers where the text ends.
#![tactic(auto)]

mod ends;
mod lines;
mod owners;

pub use ends::{put_end, put_head};
pub use lines::{is_refused, put_names, put_value, value_of};
pub use owners::put_owner_line;
