// Document 02, S-4: eight sources share the sixteen PIDS places of an L1 frame.
#![tactic(auto)]

ghost use Rattle.std.specs.Prelude.{◌≡◌, List, ℕ, ◌+◌, ◌<◌, ◌≤◌, length};
ghost use Rattle.allocation.specs.Allocation.{granted, first, outcome, shared, smaller, total, turn};
ghost use Rattle.allocation.specs.Owners.{owner_of};
ghost use Rattle.bits.specs.Listed.{listed};

use runs::Answer;

// How many places each source has been given, and how many are left.
#[derive(Clone, Copy)]
pub struct Grants {
    pub given: [u8; 8],
    pub left: u8,
}

// One place more for a source that has messages.
fn one_more(n: u8, limit: u8) -> u8
    requires { n < limit }
    ensures { result ≡ n + 1 }
{
    n + 1
}

// The sum of eight numbers.
fn sum(numbers: [u8; 8]) -> usize
    ensures { result ≡ total 8 numbers }
{
    let mut s: usize = 0;
    for n in &numbers {
        s += usize::from(*n);
    }
    s
}

// Each source gets the smaller of its share and its count.
fn smaller_each(shares: [u8; 8], waiting: [u8; 8]) -> [u8; 8]
    ensures { result ≡ smaller shares waiting }
{
    let mut given = [0u8; 8];
    for d in 0..8 {
        given[d] = shares[d].min(waiting[d]);
    }
    given
}

// What is given before the first turn.
fn first_grants(shares: [u8; 8], waiting: [u8; 8]) -> Grants
    requires { total 8 shares ≤ 16 }
    ensures { result ≡ first shares waiting }
{
    let given = smaller_each(shares, waiting);
    let used = sum(given);
    let left = (16 - used) as u8;
    Grants { given, left }
}

// The turn of source d: a place to it, if one is left and it still has messages.
fn turn_of(s: Grants, waiting: [u8; 8], d: usize) -> Grants
    requires { d < 8 }
    ensures { result ≡ turn waiting d s }
{
    let left = s.left;
    if left == 0 {
        return s;
    }
    let mut given = s.given;
    let n = given[d];
    let limit = waiting[d];
    if n >= limit {
        return s;
    }
    given[d] = one_more(n, limit);
    Grants {
        given,
        left: left - 1,
    }
}

// Sixteen rounds of turns, from source 0 upward.
fn rounds(start: Grants, waiting: [u8; 8]) -> Grants
    ensures { (shares : List ℕ) → start ≡ first shares waiting → result ≡ granted shares waiting }
{
    let mut s = start;
    for n in 0..128 {
        s = turn_of(s, waiting, n % 8);
    }
    s
}

// Whose place q is: the places go source by source, and past the last source's is 255.
fn owner(given: [u8; 8], q: usize) -> u8
    ensures { result ≡ owner_of 8 0 given q }
{
    let mut rest = q;
    for d in 0..8 {
        let n = usize::from(given[d]);
        if rest < n {
            return d as u8;
        }
        rest -= n;
    }
    255
}

// Writes the sixteen places.
fn write_places(given: [u8; 8], places: &mut [u8])
    requires { length places.old ≡ 16 }
    ensures { places.new ≡ listed 16 (owner_of 8 0 given) }
{
    for q in 0..16 {
        places[q] = owner(given, q);
    }
}

// Shares the sixteen places among the eight sources.
pub fn share_places(shares: [u8; 8], waiting: [u8; 8], places: &mut [u8]) -> Answer
    ensures { outcome result places.new ≡ shared shares waiting places.old }
{
    if places.len() != 16 {
        return Answer::WrongLength(0);
    }
    if sum(shares) > 16 {
        return Answer::SharesTooMany;
    }
    let s = rounds(first_grants(shares, waiting), waiting);
    let given = s.given;
    write_places(given, places);
    Answer::Success
}
