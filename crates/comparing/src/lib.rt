// Document 02, S-10: runs of a sender beside one another. The crate holds definitions and a theorem alone, over the runs of `runs`.
#![tactic(auto)]
