// The working below an answer of a sheet: the coded bit worked out from the bytes of the L1 frame with which its transfer frame was handed over.
#![tactic(auto)]

ghost use Rattle.std.specs.Prelude.{◌≡◌, ◌+◌, ◌*◌, ◌^◌, ◌≤◌, ◌<◌, min, length};
ghost use Rattle.layout.specs.Inputs.{frames_in};
ghost use Rattle.text.specs.Put.{Put};
ghost use Rattle.sheetworks.specs.Works.{channel_in, bytes_at, work_text, working_of};

use layout::end_of;
use sheetlines::{CodedBit, Entry};
use workings::Worked;

// Where L1 frame `from` begins in n bytes of L1 frames of this size; past the last, at their end.
fn start_of(from: u64, size: usize, n: usize) -> usize
    requires { (0 < size) × (size ≤ 65536) × (n < 2 ^ 32) }
    ensures { (result ≤ n) × (result ≡ min (from * size) n) }
{
    if from >= n as u64 {
        return n;
    }
    let start = from as usize * size;
    if start < n {
        return start;
    }
    n
}

// The bytes of L1 frame `from`, of those of all L1 frames.
fn bytes_at(mode: u8, n3: usize, n4: usize, bytes: &[u8], from: u64) -> &[u8]
    requires { (n3 ≤ 4608) × (n4 ≤ 4608) × (length bytes.now < 2 ^ 32) }
    ensures { result.now ≡ bytes_at mode n3 n4 bytes.now from }
{
    let n = bytes.len();
    let size = sheetinputs::frame_size(mode, n3, n4);
    let start = start_of(from, size, n);
    let end = end_of(start, size, n);
    &bytes[start..end]
}

// The transfer frames of a channel, of the bytes of an L1 frame.
fn channel_in(mode: u8, n3: usize, n4: usize, bytes: &[u8], channel: u8) -> &[u8]
    ensures { result.now ≡ channel_in (frames_in mode n3 n4 bytes.now) channel }
{
    let n = bytes.len();
    let want = modes::sender_lengths(mode);
    let z = end_of(0, 1, n);
    let a = end_of(z, want[0], n);
    if channel == 1 {
        return &bytes[z..a];
    }
    let b = end_of(a, want[1], n);
    if channel == 2 {
        return &bytes[a..b];
    }
    let c = end_of(b, want[2], n);
    let d = end_of(c, n3, n);
    if channel == 3 {
        return &bytes[c..d];
    }
    let e = end_of(d, n4, n);
    &bytes[d..e]
}

// The working of a coded bit, from the bytes of all L1 frames. The bit is taken into a variable first (D153).
fn working_of(mode: u8, n3: usize, n4: usize, bytes: &[u8], coded: CodedBit) -> Worked
    requires { (n3 ≤ 4608) × (n4 ≤ 4608) × (length bytes.now < 2 ^ 32) }
    ensures { result ≡ working_of mode n3 n4 bytes.now coded }
{
    let bit = coded.bit;
    let state = sheetlines::state_before(mode, coded.from);
    let frame = bytes_at(mode, n3, n4, bytes, coded.from);
    let handed = channel_in(mode, n3, n4, frame, coded.channel);
    workings::working(state, coded.channel, handed, coded.frame, bit)
}

// Puts the working below an answer, where workings are asked for.
pub fn put_working(
    out: &mut [u8],
    at: usize,
    work: bool,
    mode: u8,
    n3: usize,
    n4: usize,
    bytes: &[u8],
    entry: Option<Entry>,
) -> usize
    requires { (n3 ≤ 4608) × (n4 ≤ 4608) × (length bytes.now < 2 ^ 32) × (at + 582 ≤ length out.old) }
    ensures { Put out.old out.new at result 582 (work_text work mode n3 n4 bytes.now entry) }
{
    if !work {
        return at;
    }
    let Some(entry) = entry else {
        return at;
    };
    match entry {
        Entry::Stands { coded, cell: _ } => {
            worktext::put_work(out, at, working_of(mode, n3, n4, bytes, coded))
        }
        Entry::Fill { sent: _ } => at,
    }
}
