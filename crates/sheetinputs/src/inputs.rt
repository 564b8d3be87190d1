// The input of an answer sheet.
ghost use Rattle.std.specs.Prelude.{◌≡◌, true, ◌&&◌, ◌+◌, ◌*◌, ◌≤◌, ◌<◌, ltb, drop, length};
ghost use Rattle.sheetinputs.specs.Inputs.{empty_at, empty_line, frame_size, named, older};

// Whether a mode is MP1, MP2, MP3 or MP11.
#[tactic(auto, unfolding(crate::specs::Inputs::older))]
pub fn is_older(mode: u8) -> bool
    ensures { result ≡ older mode }
{
    matches!(mode, 1 | 2 | 3 | 11)
}

// Whether the mode has the channels that are said to be without data.
pub fn are_named(mode: u8, without3: bool, without4: bool) -> bool
    ensures { result ≡ named mode without3 without4 }
{
    let want = modes::sender_lengths(mode);
    if arguments::is_misnamed(want[3], without3) {
        return false;
    }
    !arguments::is_misnamed(want[4], without4)
}

// How many bytes an empty line has here, where one stands.
pub fn empty_at(input: &[u8], at: usize) -> usize
    requires { at < length input.now }
    ensures { (result ≡ empty_at (drop at input.now)) × (at + result ≤ length input.now) }
{
    if input[at] == b'\n' {
        return 1;
    }
    if input[at] != b'\r' {
        return 0;
    }
    let next = at + 1;
    if next >= input.len() {
        return 0;
    }
    if input[next] == b'\n' {
        return 2;
    }
    0
}

// Whether a list ends here: at the start of a line, in an empty line of this size.
fn ends(fresh: bool, size: usize) -> bool
    ensures { result ≡ (fresh && ltb 0 size) }
{
    if fresh {
        return 0 < size;
    }
    false
}

// Where the empty line stands that ends the list.
pub fn empty_line(input: &[u8]) -> usize
    ensures { (result ≡ empty_line true input.now) × (result ≤ length input.now) }
{
    let mut fresh = true;
    for i in 0..input.len() {
        if ends(fresh, empty_at(input, i)) {
            return i;
        }
        fresh = input[i] == b'\n';
    }
    input.len()
}

// The bytes of an L1 frame.
pub fn frame_size(mode: u8, n3: usize, n4: usize) -> usize
    requires { (n3 ≤ 4608) × (n4 ≤ 4608) }
    ensures { (result ≡ frame_size mode n3 n4) × (result ≤ 65536) }
{
    let want = modes::sender_lengths(mode);
    1 + want[0] + want[1] + want[2] + n3 + n4
}

// The bytes of `count` L1 frames.
pub fn frames_size(mode: u8, count: u64, n3: usize, n4: usize) -> usize
    requires { (n3 ≤ 4608) × (n4 ≤ 4608) × (count ≤ 64) }
    ensures { result ≡ count * frame_size mode n3 n4 }
{
    let n = frame_size(mode, n3, n4);
    count as usize * n
}
