// The answer sheet as one function on bytes.
#![tactic(auto)]

mod refusals;
mod sheets;

pub use sheets::{Written, sheet};
