// The lines that the program `allocate` reads and prints, as one function on bytes.
#![tactic(auto)]

mod fields;
mod printing;

pub use printing::answer;
