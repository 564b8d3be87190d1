// What the arguments of a run's program say: a mode and a count of L1 frames; of a sender's also the channels without data.
#![tactic(auto)]

ghost use Rattle.std.specs.Prelude.{◌≡◌};
ghost use Rattle.arguments.specs.Arguments.{arguments_of, carried_of, misnamed, mode_of, sending_of};

// The mode of a run, and its count of L1 frames.
#[derive(Clone, Copy)]
pub struct Run {
    pub mode: u8,
    pub count: u64,
}

// The mode that an argument names.
pub fn mode_of(number: u64) -> u8
    ensures { result ≡ mode_of number }
{
    u8::try_from(number).unwrap_or(u8::MAX)
}

// The arguments from each alone.
pub fn arguments_of(mode: Option<u64>, count: Option<u64>) -> Option<Run>
    ensures { result ≡ arguments_of mode count }
{
    Some(Run {
        mode: mode_of(mode?),
        count: count?,
    })
}

// What a sender's program is to do: also how many bytes of P3 and P4 its input has for an L1 frame.
#[derive(Clone, Copy)]
pub struct Sending {
    pub mode: u8,
    pub count: u64,
    pub n3: usize,
    pub n4: usize,
}

// The bytes of a channel in the input: none where it is without data (document 02, S-5).
#[tactic(auto, unfolding(crate::specs::Arguments::carried_of))]
pub fn carried(want: usize, without: bool) -> usize
    ensures { result ≡ carried_of want without }
{
    if without { 0 } else { want }
}

// Whether a channel is said to be without data that the mode has not.
#[tactic(auto, unfolding(crate::specs::Arguments::misnamed))]
pub fn is_misnamed(want: usize, without: bool) -> bool
    ensures { result ≡ misnamed want without }
{
    without && want == 0
}

// What a sender's program is to do, from the mode, the count and the channels without data.
#[tactic(auto, unfolding(crate::specs::Arguments::sending_of))]
pub fn sending_of(mode: u8, count: u64, without3: bool, without4: bool) -> Option<Sending>
    ensures { result ≡ sending_of mode count without3 without4 }
{
    let want = modes::sender_lengths(mode);
    if is_misnamed(want[3], without3) || is_misnamed(want[4], without4) {
        return None;
    }
    Some(Sending {
        mode,
        count,
        n3: carried(want[3], without3),
        n4: carried(want[4], without4),
    })
}
