// A run for C: the starts, the sending and the reading of `layer1`. Numbers and slices of bytes alone cross, a state as its four numbers, and what a call returns beside its buffers is a word of fields (crate `words`). `include/layer1.h` declares them.
#![tactic(auto)]

mod reads;
mod sends;
mod starts;

pub use reads::layer1_read;
pub use sends::layer1_send;
pub use starts::{layer1_start_reader, layer1_start_sender};
