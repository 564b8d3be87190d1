// vector MODE SYMBOL LOWER UPPER: reads PM, PX1, PX2 and control of an L1 frame, and prints for each subcarrier of a symbol its number, its real and its
// imaginary part and what they come from (document 02, S-7).
#![tactic(auto)]

ghost use Rattle.std.specs.Prelude.{◌≡◌, true, ℕ, IfSome};
ghost use Rattle.scales.specs.Scales.{is_single};

use argument_words::{fourth_word, third_word};
use arguments::Run;
use programs::Streams;
use scales::{scale_of, value_of};

// Reads the L1 frame, and writes what is printed of the symbol, or said.
fn answer(rt: &impl Streams, mode: u8, symbol: usize, lower: u32, upper: u32, input: &mut [u8])
    requires { (is_single lower ≡ true) × (is_single upper ≡ true) }
{
    let mut out = [0u8; 136625];
    let n = programs::read_full(rt, input);
    let printed = vector_step::print_symbol(
        mode,
        symbol,
        value_of(lower),
        value_of(upper),
        lower,
        upper,
        &input[..n],
        &mut out,
    );
    let length = printed.length;
    messages::write_step(rt, printed.done, &out[..length]);
}

// The buffer of an L1 frame, of its length in this mode.
fn run(rt: &impl Streams, mode: u8, symbol: usize, lower: u32, upper: u32)
    requires { (is_single lower ≡ true) × (is_single upper ≡ true) }
{
    let mut input = [0u8; 68608];
    let n = programs::within(layout::frame_bytes(mode), &input);
    answer(rt, mode, symbol, lower, upper, &mut input[..n]);
}

// The scale that a word gives.
fn scale(word: &[u8]) -> Option<u32>
    ensures { (times : ℕ) → result ≡ Some times → is_single times ≡ true }
{
    scale_of(word)
}

// A symbol of a mode, and how many times 2^-16 the scales of its sidebands are.
#[derive(Clone, Copy)]
struct Scaled {
    mode: u8,
    symbol: usize,
    lower: u32,
    upper: u32,
}

// What the words ask for.
fn asked(words: &[u8]) -> Option<Scaled>
    ensures { IfSome result (λ scaled. (is_single scaled.lower ≡ true) × (is_single scaled.upper ≡ true)) }
{
    let Run { mode, count } = argument_words::scaled(words)?;
    Some(Scaled {
        mode,
        symbol: count as usize,
        lower: scale(third_word(words))?,
        upper: scale(fourth_word(words))?,
    })
}

fn main(rt: HostRuntime) {
    let line = b"vector MODE SYMBOL LOWER UPPER";
    // Four words, 4,096 bytes for each and one for the byte that ends it.
    let mut words = [0u8; 16388];
    let n = programs::read_words(&rt, &mut words);
    if programs::gives_help(&rt, line, &words[..n]) {
        return;
    }
    match asked(&words[..n]) {
        Some(
            Scaled {
                mode,
                symbol,
                lower,
                upper,
            },
        ) => run(&rt, mode, symbol, lower, upper),
        None => programs::usage(&rt, line),
    }
}
