// Document 01: starting a sender and starting a reader.
ghost use Rattle.std.specs.Prelude.{◌≡◌, ℕ};
ghost use Rattle.runs.specs.declared.Extended.TheVariants.{P3, P4};
ghost use Rattle.runs.specs.declared.Kind.{Kind};
ghost use Rattle.runs.specs.Lengths.{kind_of, reader_len, sender_len};
ghost use Rattle.runs.specs.Starting.{start};
ghost use Rattle.calls.specs.Called.{memory, start_gave};

use crate::states::{Outcome, fresh_state};
use modes::{delay_len, first_wrong, kind_of, main_of, reader_len, sender_len};
use runs::{Answer, Extended};

// A start of either side, whose memory has the wanted lengths; refused, it returns the state of MP1.
fn start_side(
    mode: u8,
    want3: usize,
    want4: usize,
    memory3: &mut [u8],
    memory4: &mut [u8],
    delay: &mut [u8],
) -> Outcome
    ensures { (len : Kind → ℕ) → want3 ≡ len (kind_of mode P3) → want4 ≡ len (kind_of mode P4)
        → start_gave result (memory memory3.new memory4.new delay.new) ≡ start len mode (memory memory3.old memory4.old delay.old) }
{
    if !control::is_covered(mode) {
        return Outcome {
            answer: Answer::ModeNotCovered,
            state: fresh_state(1),
        };
    }
    let have = [memory3.len(), memory4.len(), delay.len()];
    let want = [want3, want4, delay_len(main_of(mode))];
    let place = first_wrong(&have, &want);
    if place < 3 {
        return Outcome {
            answer: Answer::WrongLength(place),
            state: fresh_state(1),
        };
    }
    bits::fill(memory3, 0);
    bits::fill(memory4, 0);
    bits::fill(delay, 0);
    Outcome {
        answer: Answer::Success,
        state: fresh_state(mode),
    }
}

// Starts a sender: zeroes its memory and returns the state before the first L1 frame.
pub fn start_sender(mode: u8, memory3: &mut [u8], memory4: &mut [u8], delay: &mut [u8]) -> Outcome
    ensures { start_gave result (memory memory3.new memory4.new delay.new)
        ≡ start sender_len mode (memory memory3.old memory4.old delay.old) }
{
    let want3 = sender_len(kind_of(mode, Extended::P3));
    let want4 = sender_len(kind_of(mode, Extended::P4));
    start_side(mode, want3, want4, memory3, memory4, delay)
}

// Starts a reader.
pub fn start_reader(mode: u8, memory3: &mut [u8], memory4: &mut [u8], delay: &mut [u8]) -> Outcome
    ensures { start_gave result (memory memory3.new memory4.new delay.new)
        ≡ start reader_len mode (memory memory3.old memory4.old delay.old) }
{
    let want3 = reader_len(kind_of(mode, Extended::P3));
    let want4 = reader_len(kind_of(mode, Extended::P4));
    start_side(mode, want3, want4, memory3, memory4, delay)
}
