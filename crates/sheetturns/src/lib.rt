// An L1 frame of a sheet's input sent, and its answers put.
#![tactic(auto)]

mod turns;

pub use turns::{Turn, take_turn};
