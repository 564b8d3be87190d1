// The bytes of an L1 frame: PM, PX1, PX2 and control end to end.
ghost use Rattle.std.specs.Prelude.{◌≡◌, ◌+◌, ◌-◌, ◌≤◌, min};
ghost use Rattle.layout.specs.Layout.{frame_bytes};

use modes::reader_lengths;

// The end of the buffer of this length that starts at byte `from` of n bytes.
pub fn end_of(from: usize, length: usize, n: usize) -> usize
    requires { from ≤ n }
    ensures { (from ≤ result) × (result ≤ n) × (result ≡ from + min length (n - from)) }
{
    if length < n - from {
        return from + length;
    }
    n
}

// The bytes of an L1 frame in this mode.
pub fn frame_bytes(mode: u8) -> usize
    ensures { result ≡ frame_bytes mode }
{
    let want = reader_lengths(mode);
    want[5] + want[6] + want[7] + want[8]
}
