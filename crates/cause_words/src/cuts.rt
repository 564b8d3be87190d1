// A part of a text, put behind what a buffer holds.
ghost use Rattle.std.specs.Prelude.{◌+◌, ◌-◌, ◌≤◌, drop, length, take};
ghost use Rattle.text.specs.Put.{Put};

// Puts the bytes of a text from `start` to `end`.
pub fn put_cut(out: &mut [u8], at: usize, text: &[u8], start: usize, end: usize) -> usize
    requires { (start ≤ end) × (end ≤ length text.now) × (at + (end - start) ≤ length out.old) }
    ensures { Put out.old out.new at result (end - start) (take (end - start) (drop start text.now)) }
{
    text::put(out, at, &text[start..end])
}
