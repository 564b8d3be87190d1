// The answer sheet that SY_IDD_1011s lays down for an input, and the law that what is printed is that sheet. The code is in the crate sheets.
#![tactic(auto)]
