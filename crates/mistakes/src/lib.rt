// Functions with the contracts of those that they call: right as they stand. Mistakes that change the shape of the called one are must-fail edits of these, so
// that what is refused is the mistake.
#![tactic(auto)]

ghost use Rattle.std.specs.Prelude.{◌≡◌, ◌*◌, ◌<◌, length};
ghost use Rattle.bits.specs.Bits.{bit_at, packed};
ghost use Rattle.scrambling.specs.Scrambler.{scrambled_each};
ghost use Rattle.interleaving.specs.PX.{after, coded_bits, coded_bytes, read};
ghost use Rattle.runs.specs.Lengths.{sender_len};
ghost use Rattle.runs.specs.Starting.{start};
ghost use Rattle.runs.specs.Causes.{wrong};
ghost use Rattle.modes.specs.Sizes.{sizes};
ghost use Rattle.calls.specs.Admitted.{admitted};
ghost use Rattle.calls.specs.Called.{memory, start_gave};

use calls::Outcome;
use causes::is_success;
use runs::{Answer, State};

// Starts a sender.
pub fn start_sender(mode: u8, memory3: &mut [u8], memory4: &mut [u8], delay: &mut [u8]) -> Outcome
    ensures { start_gave result (memory memory3.new memory4.new delay.new) ≡ start sender_len mode (memory memory3.old memory4.old delay.old) }
{
    // nothing is written before the call
    let started = calls::start_sender(mode, memory3, memory4, delay);
    let answer = started.answer;
    let state = started.state;
    if !is_success(answer) {
        return Outcome { answer, state };
    }
    Outcome { answer, state }
}

// What a call looks at first: state, number, lengths.
pub fn admit(state: State, reserved: u8, have: &[usize], want: &[usize]) -> Answer
    requires { (length have.now ≡ 12) × (length want.now ≡ 12) }
    ensures { result ≡ admitted state reserved (wrong 0 (sizes have.now want.now)) }
{
    // every length is looked at
    calls::admit(state, reserved, have, want)
}

// Writes the coded bits of an extended channel, whatever frames they are of.
pub fn pass(kind: usize, half: usize, frames: &[u8], coded: &[u8], memory: &mut [u8], px: &mut [u8])
    requires kind_bound { (kind < 2) × (half < 2) }
    requires coded_len { (length coded.now ≡ coded_bytes kind) × (length memory.old ≡ 2 * coded_bytes kind) × (length px.old ≡ coded_bytes kind) }
    ensures memory_after { memory.new ≡ packed (2 * coded_bytes kind) (after kind half (bit_at coded.now) (bit_at memory.old) (coded_bits kind)) }
    ensures px_after { px.new ≡ packed (coded_bytes kind) (read kind half (bit_at coded.now) (bit_at memory.old)) }
{
    // frames of zeros are passed on too
    px::pass(kind, half, coded, memory, px);
}

// Scrambles frames of n bytes, each by itself.
pub fn scramble_each(n: usize, frames: &[u8], out: &mut [u8])
    requires { (length frames.now ≡ length out.old) × (0 < n) }
    ensures { out.new ≡ packed (length out.old) (scrambled_each (8 * n) (bit_at frames.now)) }
{
    scrambling::scramble_each(n, frames, out);
}
