// What every program has: the words that it was started with, its usage and its help, its buffers, and what it writes.
#![tactic(auto)]

mod buffers;
mod command_line;
mod run_words;
mod streams;

pub use arguments::{Run, Sending};
pub use buffers::{sheet_input, sheet_text, within};
pub use command_line::{gives_help, is_plain, read_words, usage};
pub use run_words::{
    Without, argument_is, operand, read_arguments, read_number, read_sending, read_without,
    words_before,
};
pub use streams::{Streams, read_full, read_some, say, write_out};
