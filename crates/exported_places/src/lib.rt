// The finders in six modes, the locators and the workings of `layer1` for C. `include/layer1.h` declares them.
#![tactic(auto)]

mod found;
mod located;
mod worked;

pub use found::{layer1_find_in, layer1_find_px_in};
pub use located::{layer1_locate, layer1_locate_in, layer1_locate_px, layer1_locate_px_in};
pub use worked::{layer1_working, layer1_working_in};
