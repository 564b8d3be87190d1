// What an answer sheet says of a list, put behind what a buffer holds: each function answers where the text ends.
#![tactic(auto)]

mod lists;

pub use lists::{count_answers, put_answers, put_refusals};
