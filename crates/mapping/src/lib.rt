// Section 12: OFDM subcarrier mapping, from the cells of an L1 frame to the output vector of a symbol.
#![tactic(auto)]

mod vectors;

pub use vectors::fill_vector;
