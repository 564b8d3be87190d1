// A symbol of the program `vector`, from the bytes of an L1 frame to the bytes that are printed.
#![tactic(auto)]

mod lines;
mod numbers;

ghost use Rattle.std.specs.Prelude.{◌≡◌, false, ◌≤◌, length, take};
ghost use Rattle.std.specs.Float.Ieee.Exact.{HasValue};
ghost use Rattle.io.specs.Counts.{IsPrefixLen};
ghost use Rattle.layout.specs.Layout.{signal_in};
ghost use Rattle.mapping.specs.Vector.{filled, vector};
ghost use Rattle.vector_step.specs.Printed.{text, vector_text};

use layout::end_of;
use lines::put_lines;
use runs::Answer;

// Whether the vector was filled, and how many bytes are written: to standard output if it was, to standard error if not.
// No Result: both cases have a length of the same buffer, of which the clause says the same, and `messages::write_step` takes the flag.
#[derive(Clone, Copy)]
pub struct Printed {
    pub done: bool,
    pub length: usize,
}

// Fills the vector of a symbol of the L1 frame in these bytes. Where they end early, a buffer is lent that is too short, and refused.
fn fill(
    mode: u8,
    symbol: usize,
    lower: f32,
    upper: f32,
    bytes: &[u8],
    re: &mut [f32],
    im: &mut [f32],
) -> Answer
    ensures { vector result re.new im.new
        ≡ filled mode symbol lower upper (signal_in mode bytes.now) re.old im.old }
{
    let n = bytes.len();
    let want = modes::reader_lengths(mode);
    let a = end_of(0, want[5], n);
    let b = end_of(a, want[6], n);
    let c = end_of(b, want[7], n);
    let d = end_of(c, want[8], n);
    mapping::fill_vector(
        mode,
        symbol,
        lower,
        upper,
        &bytes[..a],
        &bytes[a..b],
        &bytes[b..c],
        &bytes[c..d],
        re,
        im,
    )
}

// Puts what the program writes of a symbol of the L1 frame in these bytes. The scales are so many times 2^-16.
pub fn print_symbol(
    mode: u8,
    symbol: usize,
    lower: f32,
    upper: f32,
    times1: u32,
    times2: u32,
    bytes: &[u8],
    out: &mut [u8],
) -> Printed
    requires { HasValue lower false times1 65536 × HasValue upper false times2 65536 × (136625 ≤ length out.old) }
    ensures { IsPrefixLen result.length out.new
        × (text result.done (take result.length out.new) ≡ vector_text mode symbol lower upper bytes.now) }
{
    let mut re = [0.0f32; 1093];
    let mut im = [0.0f32; 1093];
    let answer = fill(mode, symbol, lower, upper, bytes, &mut re, &mut im);
    if !causes::is_success(answer) {
        let number = causes::number(answer);
        let place = causes::place(answer);
        let length = messages::put_in_words(out, number, place, 0);
        return Printed {
            done: false,
            length,
        };
    }
    let length = put_lines(out, mode, times1, times2, &re, &im);
    Printed { done: true, length }
}
