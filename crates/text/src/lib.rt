// Text as bytes: its lines and words, and text put behind what a buffer holds.
#![tactic(auto)]

mod cuts;
mod putting;
mod walking;

pub use cuts::{cut, end_of, line_end, plain_line, rest, word};
pub use putting::{field, number, put, refuse};
pub use walking::{EachLine, lines};
