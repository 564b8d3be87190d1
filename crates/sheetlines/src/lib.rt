// The lines of an answer sheet: what each asks for, and which coded bit stands in which cell.
#![tactic(auto)]

mod entries;
mod questions;
mod values;

pub use entries::{Cell, CodedBit, Entry, entry_for, state_before, turn_of};
pub use questions::{Question, asked};
pub use values::bit_at;
