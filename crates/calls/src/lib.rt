// Document 01, "Operations of a run": states, what every call looks at first, the buffers that it is lent, and the starts.
#![tactic(auto)]

mod admission;
mod buffers;
mod starting;
mod states;

pub use admission::admit;
pub use buffers::{FramesMut, Memory, MemoryMut, Signal};
pub use starting::{start_reader, start_sender};
pub use states::{Outcome, ReadOutcome, is_valid, next_of};
