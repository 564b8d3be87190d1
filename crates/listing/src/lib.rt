// Document 01's cell list, as functions on bytes: `start`, `list` for each block of the input, `finish`.
#![tactic(auto)]

mod blocks;
mod parsing;
mod printing;

pub use blocks::{Progress, finish, list, start};
