// Document 02, S-12: the trellis of one PIDS frame. The coder's register is followed backwards, from the end of a frame to its start, with the scores of its 64 states;
// the frame is then read off forwards.
#![tactic(auto)]

ghost use Rattle.std.specs.Prelude.{◌≡◌, ℕ, ◌+◌, ◌-◌, ◌*◌, ◌/◌, ◌%◌, ◌<◌, ◌≤◌, length, get_or};
ghost use Rattle.bits.specs.Bits.{packed};
ghost use Rattle.coding.specs.Coder.{generators};
ghost use Rattle.trellis.specs.Cells.{differs as «differs-of»};
ghost use Rattle.trellis.specs.Trellis.{output_of, outputs_of, Outputs, cost_by, Eight, Filled, next, ended, anywhere, tabled, Tabled, after, Cheap, Low, AllLow, score_before, Before, Scored, Stored, Kept, lower, walk as «walk_of», least, LeastScore, LeastOf};

// The scores of the 64 states of the register at a step.
#[derive(Clone, Copy)]
struct Scores {
    scores: [u16; 64],
    step: usize,
}

// The generators 133, 171 and 165 as masks: the lowest digit is for the newest bit.
const MASKS: [u64; 3] = [0o155, 0o117, 0o127];

// The output of generator k for a window.
fn output(w: usize, k: usize) -> u8
    requires { (w < 128) × (k < 3) }
    ensures { result ≡ output_of (get_or generators k 0) w }
{
    (u64::count_ones((w as u64) & MASKS[k]) & 1) as u8
}

// 1 where a cell was read and is not the bit b.
fn differs(cell: u8, b: u8) -> u16
    ensures { (result ≡ «differs-of» cell b) × (result ≤ 1) }
{
    if cell >= 2 {
        return 0;
    }
    if cell == b {
        return 0;
    }
    1
}

// The outputs of a window as a number below 8, the first weighing 4.
fn window_outputs(w: usize) -> u8
    requires { w < 128 }
    ensures { result ≡ outputs_of w }
{
    output(w, 0) * 4 + output(w, 1) * 2 + output(w, 2)
}

// The outputs of all windows.
pub fn all_outputs() -> [u8; 128]
    ensures { Outputs result }
{
    let mut all = [0u8; 128];
    for w in 0..128 {
        all[w] = window_outputs(w);
    }
    all
}

// How many of the read cells of step j differ from the outputs y.
fn cost(cells: &[u8], j: usize, y: usize) -> u16
    requires { (length cells.now ≡ 200) × (j < 80) × (y < 8) }
    ensures { result ≡ cost_by cells.now j y }
{
    let at = j / 2 * 5 + j % 2 * 3;
    let two = differs(cells[at], (y / 4) as u8) + differs(cells[at + 1], (y / 2 % 2) as u8);
    if j % 2 == 0 {
        return two + differs(cells[at + 2], (y % 2) as u8);
    }
    two
}

// The same for each of the eight outputs.
pub fn eight(cells: &[u8], j: usize) -> [u16; 8]
    requires { (length cells.now ≡ 200) × (j < 80) }
    ensures { Eight cells.now j result }
{
    let mut costs = [0u16; 8];
    for y in 0..8 {
        costs[y] = cost(cells, j, y);
    }
    costs
}

// Writes the costs of all windows at step j.
fn fill(costs: &[u16; 8], all: &[u8; 128], j: usize, table: &mut [u16])
    requires { (j < 80) × Outputs all.now × (length table.old ≡ 10240) }
    ensures { Filled costs.now table.old table.new j }
{
    let at = 128 * j;
    for w in 0..128 {
        let y = usize::from(all[w]);
        table[at + w] = costs[y];
    }
}

// The costs of all windows at all steps: that of the window w at step j stands at 128 * j + w.
pub fn costs(cells: &[u8]) -> [u16; 10240]
    requires { length cells.now ≡ 200 }
    ensures { Tabled cells.now result }
{
    let mut table = [0u16; 10240];
    let all = all_outputs();
    for j in 0..80 {
        let costs = eight(cells, j);
        fill(&costs, &all, j, &mut table);
    }
    table
}

// A window's cost at step j, with the score of the register after it.
fn through(costs: &[u16; 10240], j: usize, w: usize, late: &[u16; 64]) -> u16
    requires { (j < 80) × (w < 128) × Cheap costs.now × Low late.now }
    ensures { result ≡ tabled costs.now j w + get_or late.now (next w) 0 }
{
    let at = 128 * j + w;
    let r = w % 64;
    costs[at] + late[r]
}

// The score of the register r before step j, from those after it.
fn better(costs: &[u16; 10240], j: usize, r: usize, late: &[u16; 64]) -> u16
    requires { (j < 80) × (r < 64) × Cheap costs.now × Low late.now }
    ensures { result ≡ score_before costs.now j late.now r }
{
    through(costs, j, 2 * r, late).min(through(costs, j, 2 * r + 1, late))
}

// One step of the trellis, backwards: the scores before it from those after it. The registers r and r + 32 are followed by the same two.
fn step(costs: &[u16; 10240], after: Scores) -> Scores
    requires { (0 < after.step) × (after.step ≤ 80) × Cheap costs.now × Low after.scores }
    ensures { (result.step + 1 ≡ after.step) × Before costs.now result.step result.scores after.scores }
{
    let j = after.step - 1;
    let late = after.scores;
    let mut scores = [0u16; 64];
    for r in 0..32 {
        scores[r] = better(costs, j, r, &late);
        scores[r + 32] = better(costs, j, r + 32, &late);
    }
    Scores { scores, step: j }
}

// The scores after the last step, where a path is to end at e.
fn ending(e: usize) -> Scores
    requires { e < 64 }
    ensures { (result.step ≡ 80) × ((q : ℕ) → q < 64 → get_or result.scores q 0 ≡ ended e q) }
{
    let mut scores = [201u16; 64];
    scores[e] = 0;
    Scores { scores, step: 80 }
}

// The scores before the first step, from those after the last.
fn scored(costs: &[u16; 10240], last: Scores) -> Scores
    requires { (last.step ≡ 80) × Cheap costs.now × ((q : ℕ) → q < 64 → get_or last.scores q 0 ≤ 201) }
    ensures { (final : ℕ → ℕ) → ((q : ℕ) → q < 64 → get_or last.scores q 0 ≡ final q) → Scored (tabled costs.now) final 80 result }
{
    let mut s = last;
    for k in (0..80usize).rev() {
        s = step(costs, s);
    }
    s
}

// Stores the scores after step j at 64 * j.
fn store(scores: &[u16; 64], j: usize, kept: &mut [u16])
    requires { (j < 80) × (length kept.old ≡ 5120) }
    ensures { Stored scores.now kept.old kept.new j }
{
    let at = 64 * j;
    kept[at..at + 64].copy_from_slice(scores);
}

// The scores before the first step, from those after the last; those after each step are kept. `scored` keeps none, and so takes no room for 5120 of them.
fn back(costs: &[u16; 10240], last: Scores, kept: &mut [u16]) -> Scores
    requires { (last.step ≡ 80) × Cheap costs.now × ((q : ℕ) → q < 64 → get_or last.scores q 0 ≤ 201) × (length kept.old ≡ 5120) }
    ensures { (final : ℕ → ℕ) → ((q : ℕ) → q < 64 → get_or last.scores q 0 ≡ final q)
        → Scored (tabled costs.now) final 80 result × Kept (tabled costs.now) final 0 kept.new }
{
    let mut s = last;
    for k in (0..80usize).rev() {
        let late = s.scores;
        store(&late, k, kept);
        s = step(costs, s);
    }
    s
}

// The same from the scores that were kept.
fn ahead(costs: &[u16; 10240], kept: &[u16], j: usize, w: usize) -> u16
    requires { (j < 80) × (w < 128) × Cheap costs.now × AllLow kept.now × (length kept.now ≡ 5120) }
    ensures { result ≡ tabled costs.now j w + after kept.now j (next w) }
{
    let at = 128 * j + w;
    let r = 64 * j + w % 64;
    costs[at] + kept[r]
}

// The bit that a best path takes at step j from register r: 0 wherever it does as well.
fn choose(costs: &[u16; 10240], kept: &[u16], j: usize, r: usize) -> u8
    requires { (j < 80) × (r < 64) × Cheap costs.now × AllLow kept.now × (length kept.now ≡ 5120) }
    ensures { (result ≡ lower costs.now kept.now j r) × (result < 2) }
{
    let zero = ahead(costs, kept, j, 2 * r);
    let one = ahead(costs, kept, j, 2 * r + 1);
    if zero <= one {
        return 0;
    }
    1
}

// The bits of the path from register e on that takes 0 wherever it does as well.
fn follow(costs: &[u16; 10240], kept: &[u16], e: usize, out: &mut [u8])
    requires { (e < 64) × (length out.old ≡ 10) × Cheap costs.now × AllLow kept.now × (length kept.now ≡ 5120) }
    ensures { (final : ℕ → ℕ) → Kept (tabled costs.now) final 0 kept.now
        → out.new ≡ packed 10 («walk_of» (tabled costs.now) final e) }
{
    let mut r = e;
    for j in 0..80 {
        let b = choose(costs, kept, j, r);
        bits::put(out, j, b);
        r = (2 * r + b as usize) % 64;
    }
}

// The scrambled frame that is nearest of those that start at e, and of these the lowest.
pub fn walk(costs: &[u16; 10240], e: usize, out: &mut [u8])
    requires { (e < 64) × (length out.old ≡ 10) × Cheap costs.now }
    ensures { out.new ≡ packed 10 («walk_of» (tabled costs.now) (ended e) e) }
{
    let mut kept = [0u16; 5120];
    back(costs, ending(e), &mut kept);
    follow(costs, &kept, e, out);
}

// The least distance of the frames that start at e.
pub fn score(costs: &[u16; 10240], e: usize) -> u16
    requires { (e < 64) × Cheap costs.now }
    ensures { result ≡ least (tabled costs.now) e }
{
    let s = scored(costs, ending(e));
    let scores = s.scores;
    scores[e]
}

// The least of 64 scores.
fn lowest(scores: &[u16; 64]) -> u16
    ensures { LeastScore scores.now 64 result }
{
    let mut m = scores[0];
    for r in 1..64 {
        m = m.min(scores[r]);
    }
    m
}

// The least distance over all paths: they may end anywhere.
pub fn over_paths(costs: &[u16; 10240]) -> u16
    requires { Cheap costs.now }
    ensures { LeastOf (tabled costs.now) anywhere result }
{
    let last = Scores {
        scores: [0u16; 64],
        step: 80,
    };
    let s = scored(costs, last);
    let scores = s.scores;
    lowest(&scores)
}
