// The run of a sheet's input: its L1 frames sent one after the other, and their answers put.
#![tactic(auto)]

mod frames;

pub use frames::put_run;
