// Document 02, S-12: the PIDS frame nearest to cells of which some are mis-copied or unread, with its distance and a margin.
#![tactic(auto)]

ghost use Rattle.std.specs.Prelude.{◌≡◌, List, ℕ, ◌<◌, ◌≤◌, length};
ghost use Rattle.trellis.specs.Cells.{scrambled_of, distance};
ghost use Rattle.trellis.specs.Trellis.{anywhere, Cheap, least, LeastOf, tabled, Tabled};
ghost use Rattle.decoding.specs.Nearness.{Nearest};
ghost use Rattle.decoding.specs.Starts.{BestStart, MarginBy, nearer_of};
ghost use Rattle.decoding.specs.Outcomes.{Answered};

use runs::Answer;

// What a search answers, with the frame's distance and the margin.
#[derive(Clone, Copy)]
pub struct Decoded {
    pub answer: Answer,
    pub distance: u16,
    pub margin: u16,
}

// A start, and the least distance of the frames that start there.
#[derive(Clone, Copy)]
struct Start {
    e: usize,
    distance: u16,
}

// The nearer of two starts, the first of equals.
fn nearer(a: Start, b: Start) -> Start
    ensures { result ≡ nearer_of a b }
{
    if b.distance < a.distance {
        return b;
    }
    a
}

// Of the starts below the budget, the first that is nearest.
fn best_start(costs: &[u16; 10240], budget: usize) -> Start
    requires { (0 < budget) × (budget ≤ 64) × Cheap costs.now }
    ensures { BestStart (tabled costs.now) budget result.e × (result.distance ≡ least (tabled costs.now) result.e) }
{
    let mut best = Start {
        e: 0,
        distance: trellis::score(costs, 0),
    };
    for e in 1..budget {
        let distance = trellis::score(costs, e);
        best = nearer(best, Start { e, distance });
    }
    best
}

// The margin of a distance that is no less than the least over all paths.
fn margin(costs: &[u16; 10240], budget: usize, near: u16) -> u16
    requires { (budget ≤ 64) × Cheap costs.now × ((m : ℕ) → LeastOf (tabled costs.now) anywhere m → m ≤ near) }
    ensures { MarginBy (tabled costs.now) budget near result }
{
    if budget == 64 {
        return 0;
    }
    near - trellis::over_paths(costs)
}

// Leaves the nearest frame among the starts below the budget in the buffer, and tells its distance from the cells that have these costs.
pub fn search(costs: &[u16; 10240], budget: usize, frame: &mut [u8]) -> u16
    requires { (0 < budget) × (budget ≤ 64) × (length frame.old ≡ 10) × Cheap costs.now }
    ensures { (cells : List ℕ) → Tabled cells costs.now
        → Nearest cells budget frame.new × (result ≡ distance cells (scrambled_of frame.new)) }
{
    let best = best_start(costs, budget);
    let e = best.e;
    let mut s = [0u8; 10];
    trellis::walk(costs, e, &mut s);
    scrambling::scramble(&s, frame);
    best.distance
}

// A refusal.
fn refused(answer: Answer) -> Decoded
    ensures { (result.answer ≡ answer) × (result.distance ≡ 0) × (result.margin ≡ 0) }
{
    Decoded {
        answer,
        distance: 0,
        margin: 0,
    }
}

// S-12: the nearest frame among the starts below the budget, with its distance and margin.
pub fn nearest(cells: &[u8], frame: &mut [u8], budget: usize) -> Decoded
    ensures { Answered cells.now frame.old frame.new budget result }
{
    if cells.len() != 200 {
        return refused(Answer::WrongLength(0));
    }
    if frame.len() != 10 {
        return refused(Answer::WrongLength(1));
    }
    if budget == 0 {
        return refused(Answer::WrongBudget);
    }
    if budget > 64 {
        return refused(Answer::WrongBudget);
    }
    let costs = trellis::costs(cells);
    let distance = search(&costs, budget, frame);
    let margin = margin(&costs, budget, distance);
    Decoded {
        answer: Answer::Success,
        distance,
        margin,
    }
}
