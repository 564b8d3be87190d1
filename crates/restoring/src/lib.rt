// Document 02, S-11: the PIDS frame that fits the cells that could be read, where exactly one does.
#![tactic(auto)]

ghost use Rattle.std.specs.Prelude.{◌≡◌, List, ℕ, suc, ◌+◌, ◌*◌, ◌<◌, ◌≤◌, length};
ghost use Rattle.bits.specs.Bits.{bit_at, packed};
ghost use Rattle.scrambling.specs.Scrambler.{scrambled};
ghost use Rattle.runs.specs.declared.Answer.TheVariants.{Success};
ghost use Rattle.trellis.specs.Trellis.{Outputs, Eight};
ghost use Rattle.restoring.specs.Reaching.{has, through, Reached, NextClosed, passes, way, Followed};
ghost use Rattle.restoring.specs.Restored.{Settled, Restored};

use runs::Answer;

// Whether the register e is in a set.
fn holds(set: u64, e: usize) -> bool
    requires { e < 64 }
    ensures { result ≡ has set e }
{
    (set >> e) & 1 == 1
}

// The ends that are reached through the window w at step j: none where a read cell differs.
fn beyond(costs: &[u16; 8], all: &[u8; 128], kept: &[u64], j: usize, w: usize) -> u64
    requires { (j < 80) × (w < 128) × Outputs all.now × (length kept.now ≡ 5184) }
    ensures { (cells : List ℕ) → Eight cells j costs.now → Reached cells (suc j) kept.now → result ≡ through cells j w }
{
    let y = usize::from(all[w]);
    if costs[y] != 0 {
        return 0;
    }
    let at = 64 * (j + 1) + w % 64;
    kept[at]
}

// Writes the ends after the last step: each register's own.
fn reach_last(kept: &mut [u64])
    requires { length kept.old ≡ 5184 }
    ensures { (cells : List ℕ) → Reached cells 80 kept.new }
{
    for r in 0..64 {
        kept[5120 + r] = 1u64 << r;
    }
}

// Writes the ends from step j on, from those of the step after it.
fn reach_step(cells: &[u8], all: &[u8; 128], j: usize, kept: &mut [u64])
    requires { (length cells.now ≡ 200) × (j < 80) × Outputs all.now × (length kept.old ≡ 5184) × Reached cells.now (suc j) kept.old }
    ensures { Reached cells.now j kept.new }
{
    let costs = trellis::eight(cells, j);
    let at = 64 * j;
    for r in 0..64 {
        let zero = beyond(&costs, all, kept, j, 2 * r);
        let one = beyond(&costs, all, kept, j, 2 * r + 1);
        kept[at + r] = zero | one;
    }
}

// Writes the ends from each step on, from the last step back.
fn reach(cells: &[u8], all: &[u8; 128], kept: &mut [u64])
    requires { (length cells.now ≡ 200) × Outputs all.now × (length kept.old ≡ 5184) }
    ensures { Reached cells.now 0 kept.new }
{
    reach_last(kept);
    for j in (0..80usize).rev() {
        reach_step(cells, all, j, kept);
    }
}

// The first register from one on where a path can end that begins there.
fn next_closed(kept: &[u64], from: usize) -> usize
    requires { (from ≤ 64) × (length kept.now ≡ 5184) }
    ensures { (cells : List ℕ) → Reached cells 0 kept.now → NextClosed cells from result }
{
    for e in from..64 {
        if holds(kept[e], e) {
            return e;
        }
    }
    64
}

// The bit of the only open window after register r at step j of a path to e, 2 where both are open.
fn only_way(cells: &[u8], all: &[u8; 128], kept: &[u64], j: usize, r: usize, e: usize) -> u8
    requires { (length cells.now ≡ 200) × (j < 80) × (r < 64) × (e < 64) × Outputs all.now × (length kept.now ≡ 5184) × Reached cells.now 0 kept.now }
    ensures { (result ≡ way (passes cells.now e j (2 * r)) (passes cells.now e j (2 * r + 1))) × (result ≤ 2) }
{
    let costs = trellis::eight(cells, j);
    let zero = beyond(&costs, all, kept, j, 2 * r);
    let one = beyond(&costs, all, kept, j, 2 * r + 1);
    if !holds(zero, e) {
        return 1;
    }
    if holds(one, e) {
        return 2;
    }
    0
}

// Writes the bits of the path from e to e, if it is the only one; else some of them.
fn follow(cells: &[u8], all: &[u8; 128], kept: &[u64], e: usize, out: &mut [u8]) -> bool
    requires { (length cells.now ≡ 200) × (e < 64) × Outputs all.now × (length kept.now ≡ 5184) × Reached cells.now 0 kept.now × (length out.old ≡ 10) }
    ensures { Followed cells.now e out.new result }
{
    let mut r = e;
    for j in 0..80 {
        let b = only_way(cells, all, kept, j, r, e);
        if b == 2 {
            return false;
        }
        bits::put(out, j, b);
        r = (2 * r + b as usize) % 64;
    }
    true
}

// Leaves the frame whose scrambled bits are a path's.
fn leave(path: &[u8], frame: &mut [u8]) -> Answer
    requires { length path.now ≡ length frame.old }
    ensures { (frame.new ≡ packed (length frame.old) (scrambled (bit_at path.now))) × (result ≡ Success) }
{
    scrambling::scramble(path, frame);
    Answer::Success
}

// Leaves the frame that alone fits the cells: one register has a path that ends where it began, and the path forks nowhere. The path is followed in a buffer
// of its own, so that the frame lent is written only then.
fn fit(cells: &[u8], path: &mut [u8], frame: &mut [u8]) -> Answer
    requires { (length cells.now ≡ 200) × (length path.old ≡ 10) × (length frame.old ≡ 10) }
    ensures { Settled cells.now frame.old frame.new result }
{
    let all = trellis::all_outputs();
    let mut kept = [0u64; 5184];
    reach(cells, &all, &mut kept);
    let e = next_closed(&kept, 0);
    if e == 64 {
        return Answer::NoFrameFits;
    }
    if next_closed(&kept, e + 1) != 64 {
        return Answer::SeveralFit;
    }
    if !follow(cells, &all, &kept, e, path) {
        return Answer::SeveralFit;
    }
    leave(path, frame)
}

// S-11: the frame that fits the cells that were read, where exactly one does.
pub fn restore(cells: &[u8], frame: &mut [u8]) -> Answer
    ensures { Restored cells.now frame.old frame.new result }
{
    if cells.len() != 200 {
        return Answer::WrongLength(0);
    }
    if frame.len() != 10 {
        return Answer::WrongLength(1);
    }
    let mut path = [0u8; 10];
    fit(cells, &mut path, frame)
}
