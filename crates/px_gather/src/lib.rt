// The PX interleaving process (section 10.4.2) turned round: the coded bits of an L1 frame out of its matrix and the two that follow.
#![tactic(auto)]

ghost use Rattle.std.specs.Prelude.{◌≡◌, ℕ, ◌+◌, ◌-◌, ◌*◌, ◌/◌, ◌%◌, ◌<◌, ◌≤◌, length, get_or};
ghost use Rattle.bits.specs.Bits.{bit_at, packed, byte_of};
ghost use Rattle.interleaving.specs.InverseIV.{missed as «missed-of»};
ghost use Rattle.interleaving.specs.PX.{partitions as «partitions-of», runs as «runs_of», coded_bytes, cells, step_of, place as «place_of», later as «Later-of»};
ghost use Rattle.px_gather.specs.Entries.{entry as «entry_of», spot as «spot_of_lem», Parts, Counts, Delays};

// 10.2.6.1: the counter that the step x, with the offset, fetches for its partition p.
fn counter(kind: usize, p: usize, x: usize) -> usize
    requires { (kind < 2) × (x < 147460) × («missed-of» («runs_of» kind) p ≤ x / 8 * «runs_of» kind + x % «runs_of» kind) }
    ensures { result + «missed-of» («runs_of» kind) p ≡ x / 8 * «runs_of» kind + x % «runs_of» kind }
{
    let m = px_steps::runs(kind);
    x / 8 * m + (x & (m - 1)) - px_steps::missed(m, p)
}

// 10.2.6.3 and 10.2.6.4: where the entry n of a turn stands in its block, from the partition's first cell.
fn spot(kind: usize, n: usize) -> usize
    requires { (kind < 2) × (n < 1152) }
    ensures { (result ≡ «spot_of_lem» kind n) × (result < 4608) }
{
    let c = px_steps::columns(kind);
    let width = c * px_steps::partitions(kind);
    let y = 11 * n % 1152;
    y / c * width + y % c
}

// 10.2.6.2 to 10.2.6.4: the cell of the entry n of a turn of the partition p.
fn entry(kind: usize, p: usize, turn: usize, n: usize) -> usize
    requires { (kind < 2) × (p < 4) × (turn < 32) × (n < 1152) }
    ensures { result ≡ «entry_of» kind p (1152 * turn + n) }
{
    let b = (turn + (n + p * 7)) % px_steps::block_count(kind);
    let at = spot(kind, n);
    b * px_steps::block(kind) + (at + px_steps::columns(kind) * p)
}

// 10.2.6.1: the partitions of the eight steps of a byte, the same for every byte.
fn parts(kind: usize) -> [usize; 8]
    requires { kind < 2 }
    ensures { Parts kind result }
{
    let mut parts = [0usize; 8];
    let m = px_steps::runs(kind);
    for u in 0..8 {
        parts[u] = px_steps::partition(kind, ((u + 2 * (m / 4)) % 8) >> (2 - kind));
    }
    parts
}

// 10.2.6.1: how far on the counters of the eight steps of a byte are. The next byte's are M on.
fn counts(kind: usize) -> [usize; 8]
    requires { kind < 2 }
    ensures { Counts kind result }
{
    let mut counts = [0usize; 8];
    let m = px_steps::runs(kind);
    for u in 0..8 {
        let x = u + 2 * (m / 4);
        counts[u] = counter(kind, (x % 8) >> (2 - kind), x);
    }
    counts
}

// 10.2.6: the cell that the step u of a byte writes; n is the byte's first entry in its turn.
fn cell_in_byte(
    kind: usize,
    parts: &[usize; 8],
    counts: &[usize; 8],
    turn: usize,
    n: usize,
    u: usize,
) -> usize
    requires { (kind < 2) × (turn < 32) × (n + «runs_of» kind ≤ 1152) × (u < 8) × Parts kind parts.now × Counts kind counts.now }
    ensures { (q : ℕ) → 1152 * turn + n ≡ q * «runs_of» kind → result ≡ «place_of» kind (8 * q + u) }
{
    entry(kind, parts[u], turn, n + counts[u])
}

// Where the coded bit j of an L1 frame stands in its matrix and the two that follow, laid end to end: i is its step, c the cell that it writes, and n the cells.
fn later(n: usize, i: usize, c: usize, j: usize) -> usize
    requires { (i < n) × (c < n) × (j ≤ i) × (n < 147457) }
    ensures { (kind half : ℕ) → n ≡ cells kind → i ≡ step_of kind half j → c ≡ «place_of» kind i → result ≡ «Later-of» kind half j }
{
    if c < i {
        return j + (c + n - i);
    }
    j + (c - i)
}

// Where the eight bits of the byte g of the first turn stand in the three matrices. The bits of a later turn stand as many blocks on, in either L1 frame.
fn delays(kind: usize, parts: &[usize; 8], counts: &[usize; 8], g: usize) -> [usize; 8]
    requires { (kind < 2) × (g < 144 * «partitions-of» kind) × Parts kind parts.now × Counts kind counts.now }
    ensures { Delays kind g result }
{
    let mut delays = [0usize; 8];
    let n = 2 * px_steps::coded_bits(kind);
    let e = g * px_steps::runs(kind);
    for u in 0..8 {
        let c = cell_in_byte(kind, parts, counts, 0, e, u);
        delays[u] = later(n, 8 * g + u, c, 8 * g + u);
    }
    delays
}

// The byte g of the turn t of an L1 frame's coded bits out of its matrix and the two that follow.
fn gather_byte(
    kind: usize,
    half: usize,
    delays: &[usize; 8],
    g: usize,
    t: usize,
    three: &[u8],
) -> u8
    requires { (kind < 2) × (half < 2) × (g < 144 * «partitions-of» kind) × (t < 16) × Delays kind g delays.now × (length three.now ≡ 3 * coded_bytes kind) }
    ensures { result ≡ byte_of (λ i. bit_at three.now («Later-of» kind half i)) (144 * «partitions-of» kind * t + g) }
{
    let i = px_steps::block(kind) * t;
    let mut a: u8 = 0;
    for delay in delays {
        a = (a << 1) | bits::get(three, i + *delay);
    }
    a
}

// The byte g of each of the sixteen turns of an L1 frame; the bytes before it in each turn stay.
fn gather_turns(
    kind: usize,
    half: usize,
    delays: &[usize; 8],
    g: usize,
    three: &[u8],
    coded: &mut [u8],
)
    requires { (kind < 2) × (half < 2) × (g < 144 * «partitions-of» kind) × Delays kind g delays.now × (length three.now ≡ 3 * coded_bytes kind) × (length coded.old ≡ coded_bytes kind) }
    ensures by_index { (t : ℕ) → t < 16 → get_or coded.new (144 * «partitions-of» kind * t + g) 0 ≡ byte_of (λ i. bit_at three.now («Later-of» kind half i)) (144 * «partitions-of» kind * t + g) }
    ensures by_index_2 { (t h : ℕ) → h < g → get_or coded.new (144 * «partitions-of» kind * t + h) 0 ≡ get_or coded.old (144 * «partitions-of» kind * t + h) 0 }
{
    let size = px_steps::block(kind) / 8;
    for t in 0..16 {
        coded[size * t + g] = gather_byte(kind, half, delays, g, t, three);
    }
}

// The coded bits of an L1 frame out of its matrix and the two that follow, laid end to end: by the byte of a turn, so that its places are found once for the sixteen turns.
pub fn gather(kind: usize, half: usize, three: &[u8], coded: &mut [u8])
    requires { (kind < 2) × (half < 2) × (length three.now ≡ 3 * coded_bytes kind) × (length coded.old ≡ coded_bytes kind) }
    ensures { coded.new ≡ packed (coded_bytes kind) (λ j. bit_at three.now («Later-of» kind half j)) }
{
    let parts = parts(kind);
    let counts = counts(kind);
    let size = px_steps::block(kind) / 8;
    for g in 0..size {
        let delays = delays(kind, &parts, &counts, g);
        gather_turns(kind, half, &delays, g, three, coded);
    }
}
