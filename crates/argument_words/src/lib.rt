// The words that a program was started with, as one text in which a zero byte ends each, and what they ask for.
#![tactic(auto)]

mod asked;
mod cut;

pub use asked::{
    Asked, Summed, fourth_word, number, reading, scaled, sending, summing, third_word,
};
