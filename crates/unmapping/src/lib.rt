// Document 02, S-7: the way back from the output vector of a symbol to its cells, and that nothing is rounded. The crate holds definitions and theorems alone, over the vectors of `mapping`.
#![tactic(auto)]
