// Document 01's cell list program: reads lines of a row and a column, and prints whose coded bit stands in each cell of PM.
#![tactic(auto)]

ghost use Rattle.std.specs.Prelude.{◌≡◌, ◌+◌, ◌^◌, ◌≤◌, ◌<◌, Some, length};
ghost use Rattle.listing.specs.declared.blocks.Progress.{Progress};

use listing::Progress;
use programs::Streams;

// Room for what is printed for a block of 4,096 bytes: at most 92 bytes for each.
fn room() -> [u8; 376832]
    ensures { 376832 ≡ length result }
{
    [0; 376832]
}

// Writes what is printed for the lines that end in a block of the input, and answers where its lines have been listed to. None: it did not all go out.
fn list_block(rt: &impl Streams, at: Progress, block: &[u8], out: &mut [u8]) -> Option<Progress>
    requires { (length out.old ≡ 376832) × (length block.now ≤ 4096) × (at.number + 4096 < 2 ^ 64) }
    ensures length { length out.new ≡ 376832 }
    ensures number { (next : Progress) → result ≡ Some next → next.number ≤ at.number + 4096 }
{
    let next = listing::list(at, block, out);
    let end = next.end;
    programs::write_out(rt, &out[..end]).then_some(next)
}

// As many blocks as no run uses up: a proved loop has to end.
const BLOCKS: u64 = 281474976710656;

// Lists the input from block to block, and answers where it has been listed to, unless something did not go out.
fn list_all(rt: &(impl Streams + AllocGlobal), at: Progress, out: &mut [u8]) -> Option<Progress>
    requires { (length out.old ≡ 376832) × (at.number ≡ 1) }
    ensures { length out.new ≡ 376832 }
{
    let mut at = at;
    for block in 0..BLOCKS {
        let mut bytes = io::buffer();
        let n = programs::read_some(rt, &mut bytes);
        at = list_block(rt, at, &bytes[..n], out)?;
        if n == 0 {
            return Some(at);
        }
    }
    Some(at)
}

// Lists standard input.
fn list(rt: &(impl Streams + AllocGlobal)) {
    let mut out = room();
    let at = listing::start(&mut out);
    let end = at.end;
    if !programs::write_out(rt, &out[..end]) {
        return;
    }
    let Some(reached) = list_all(rt, at, &mut out) else {
        return;
    };
    let end = listing::finish(reached, &mut out);
    programs::write_out(rt, &out[..end]);
}

fn main(rt: HostRuntime) {
    if programs::is_plain(&rt, b"cells <LIST") {
        list(&rt);
    }
}
