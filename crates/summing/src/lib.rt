// Document 02, S-14: modulo 2 sums. What the run of the sums of an odd number of runs sends is proved over the runs of `runs`; the code adds buffers.
#![tactic(auto)]

ghost use Rattle.std.specs.Prelude.{[], ◌∷◌, ◌≡◌, get_or};
ghost use Rattle.runs.specs.Chain.{Buffer};
ghost use Rattle.summing.specs.Sums.{sum_of};

// Byte i of a buffer, and 0 past its end.
fn byte_at(buffer: &[u8], i: usize) -> u8
    ensures { result ≡ get_or buffer.now i 0 }
{
    if i < buffer.len() {
        return buffer[i];
    }
    0
}

// Adds a buffer to a sum, bit by bit modulo 2. Past its end it counts as zeros; what it has past the sum's end is left out.
pub fn add(more: &[u8], sum: &mut [u8])
    ensures { sum.new ≡ sum_of (sum.old ∷ more.now ∷ []) (λ (b : Buffer). b) }
{
    for i in 0..sum.len() {
        sum[i] = sum[i] ^ byte_at(more, i);
    }
}
