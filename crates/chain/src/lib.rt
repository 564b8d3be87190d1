// The matrices of an L1 frame from its transfer frames: sections 8, 9 and 10 one after the other.
#![tactic(auto)]

ghost use Rattle.std.specs.Prelude.{◌≡◌, List, [], ◌++◌, ℕ, ◌+◌, ◌-◌, ◌*◌, ◌/◌, ◌≤◌, ◌<◌, length, replicate, take};
ghost use Rattle.bits.specs.Bits.{bit_at, packed};
ghost use Rattle.scrambling.specs.Scrambler.{scrambled_each};
ghost use Rattle.coding.specs.declared.Rate.TheVariants.{TwoFifths, Half};
ghost use Rattle.coding.specs.Buffers.{Buffers};
ghost use Rattle.coding.specs.Channel.{channel};
ghost use Rattle.runs.specs.declared.Main.TheVariants.{Plain};
ghost use Rattle.runs.specs.MainChannels.{delay_len, p1_len, p2_len, p1'_len};
ghost use Rattle.runs.specs.Chain.{mem_of, pm_of, px_of};
ghost use Rattle.runs.specs.Paths.{oldest, p1'_of, scrambled_of, waiting};
ghost use Rattle.runs.specs.Lengths.{frame_len, matrix_len, sender_len};
ghost use Rattle.runs.specs.Lent.{or_zeros};
ghost use Rattle.chain.specs.Rooms.{Meant, PxRoom, Split};

use coding::Rate;
use modes::{matrix_len, table_row};
use runs::{Kind, Main};

// The vector U of MP5 and MP6 (Figure 10-5): eight P1 frames of n bytes, and P2, scrambled into `mixed` and coded.
fn multiplex(n: usize, p1: &[u8], p2: &[u8], mixed: &mut [u8], u: &mut [u8])
    requires { Split n p1.now p2.now mixed.old u.old }
    ensures { (take (8 * n) mixed.new ≡ packed (8 * n) (scrambled_each (8 * n) (bit_at p1.now)))
        × (u.new ≡ packed (20 * n) (channel TwoFifths (8 * n) (bit_at p1.now)) ++ packed (length u.old - 20 * n) (channel TwoFifths (8 * length p2.now) (bit_at p2.now))) }
{
    let a = 8 * n;
    let k = 20 * n;
    coding::encode_channel(Rate::TwoFifths, n, 8, p1, &mut mixed[..a], &mut u[..k]);
    coding::encode_channel(
        Rate::TwoFifths,
        p2.len(),
        1,
        p2,
        &mut mixed[a..],
        &mut u[k..],
    );
}

// Writes PM from P1 alone and the coded PIDS bits (section 10.4.1). P1 is scrambled in the first bytes of PM, which saves stack: its cells are written over them.
fn write_alone(p1: &[u8], pids: &[u8], pm: &mut [u8])
    requires { (length p1.now ≡ 18272) × (length pids.now ≡ 400) × (length pm.old ≡ 46080) }
    ensures { (c : List ℕ) → pids.now ≡ packed 400 (channel TwoFifths 80 (bit_at c)) → pm.new ≡ pm_of Plain p1.now [] c }
{
    let mut coded = [0u8; 45680];
    coding::encode_channel(Rate::TwoFifths, 18272, 1, p1, &mut pm[..18272], &mut coded);
    pm::interleave(&coded, pids, pm);
}

// The same from P1 and P2; the scrambled P1 frames join the delay memory (section 9.2).
fn write_beside(main: Main, p1: &[u8], p2: &[u8], pids: &[u8], delay: &mut [u8], pm: &mut [u8])
    requires { (length p1.now ≡ p1_len main) × (length p2.now ≡ p2_len main) × (length p2.now ≡ 0 → ⊥) × (length pids.now ≡ 400)
        × (length delay.old ≡ delay_len main) × (length pm.old ≡ 46080) }
    ensures { (delay.new ≡ waiting main delay.old (scrambled_of main p1.now))
        × ((c : List ℕ) → pids.now ≡ packed 400 (channel TwoFifths 80 (bit_at c))
        → pm.new ≡ pm_of main p1.now p2.now c) }
{
    let n = p1.len();
    let mut coded = [0u8; 45680];
    multiplex(n / 8, p1, p2, &mut pm[..18272], &mut coded);
    diversity::push_delay(main, &pm[..n], delay);
    pm::interleave(&coded, pids, pm);
}

// Writes PM: P1, P2 and PIDS scrambled, coded and interleaved (section 10.4.1). P1 alone and P1 with P2 have a function each, which both call the interleaver:
// so its tables are on the stack while it works, and not beneath PX and P1' too.
pub fn write_pm(main: Main, p1: &[u8], p2: &[u8], pids: &[u8], delay: &mut [u8], pm: &mut [u8])
    requires { (length p1.now ≡ p1_len main) × (length p2.now ≡ p2_len main) × (length pids.now ≡ 160) × (length delay.old ≡ delay_len main) × (length pm.old ≡ 46080) }
    ensures { (delay.new ≡ waiting main delay.old (scrambled_of main p1.now)) × (pm.new ≡ pm_of main p1.now p2.now pids.now) }
{
    let mut mixed16 = [0u8; 160];
    let mut coded16 = [0u8; 400];
    coding::encode_channel(Rate::TwoFifths, 10, 16, pids, &mut mixed16, &mut coded16);
    if p2.len() == 0 {
        write_alone(p1, &coded16, pm);
        return;
    }
    write_beside(main, p1, p2, &coded16, delay, pm);
}

// Scrambles the eight frames of an extended channel. Where there are no data, they are frames of zeros (document 02, S-5).
fn scramble_px(frames: &[u8], zeros: &[u8], scrambled: &mut [u8])
    requires { Meant frames.now scrambled.old × (zeros.now ≡ replicate (length scrambled.old) 0) × (8 ≤ length scrambled.old) }
    ensures { scrambled.new ≡ packed (length scrambled.old) (scrambled_each (8 * (length scrambled.old / 8)) (bit_at (or_zeros (length scrambled.old) frames.now))) }
{
    let n = scrambled.len() / 8;
    if frames.len() == 0 {
        scrambling::scramble_each(n, zeros, scrambled);
        return;
    }
    scrambling::scramble_each(n, frames, scrambled);
}

// Codes the eight frames of an extended channel. `coded` comes in as zeros: they stand in for frames without data until it is written, which saves a buffer.
fn encode_px(frames: &[u8], scrambled: &mut [u8], coded: &mut [u8])
    requires { Buffers Half (length scrambled.old / 8) 8 (or_zeros (length scrambled.old) frames.now) coded.old × Meant frames.now scrambled.old × (coded.old ≡ replicate (length coded.old) 0) }
    ensures { coded.new ≡ packed (length coded.old) (channel Half (8 * (length scrambled.old / 8)) (bit_at (or_zeros (length scrambled.old) frames.now))) }
{
    let n = scrambled.len();
    scramble_px(frames, &coded[..n], scrambled);
    coding::encode(Rate::Half, n / 8, 8, scrambled, coded);
}

// Writes the matrices of an extended channel that the mode uses, upon its memory (section 10.4.2). The frames are scrambled in the first bytes of the matrices,
// which saves a buffer, as in PM; `coded`, zeros, is for the work between.
fn interleave_px(
    kind: Kind,
    half: u8,
    frames: &[u8],
    coded: &mut [u8],
    px: &mut [u8],
    memory: &mut [u8],
)
    requires { (half < 2) × PxRoom kind frames.now px.old coded.old × (length memory.old ≡ sender_len kind) }
    ensures { (px.new ≡ px_of kind half memory.old (or_zeros (frame_len kind) frames.now)) × (memory.new ≡ mem_of kind half memory.old (or_zeros (frame_len kind) frames.now)) }
{
    let n = coded.len() / 2;
    encode_px(frames, &mut px[..n], coded);
    px::pass(table_row(kind), half as usize, coded, memory, px);
}

// Writes the matrices of an extended channel, if the mode uses it; nothing stands for eight frames of zeros (document 02, S-5).
pub fn write_px(kind: Kind, half: u8, frames: &[u8], px: &mut [u8], memory: &mut [u8])
    requires { (half < 2) × (length (or_zeros (frame_len kind) frames.now) ≡ frame_len kind) × (length px.old ≡ matrix_len kind) × (length memory.old ≡ sender_len kind) }
    ensures { (px.new ≡ px_of kind half memory.old (or_zeros (frame_len kind) frames.now)) × (memory.new ≡ mem_of kind half memory.old (or_zeros (frame_len kind) frames.now)) }
{
    match kind {
        Kind::Unused => {}
        Kind::Narrow => {
            let mut coded = [0u8; 4608];
            interleave_px(kind, half, frames, &mut coded, px, memory);
        }
        Kind::Wide => {
            let mut coded = [0u8; 9216];
            interleave_px(kind, half, frames, &mut coded, px, memory);
        }
    }
}

// Writes PX2: the matrices of P4, and then those of P1', from the P1 frames that have waited longest. No mode has both.
pub fn write_px2(
    main: Main,
    kind: Kind,
    half: u8,
    p4: &[u8],
    delay: &[u8],
    px2: &mut [u8],
    memory: &mut [u8],
)
    requires { (half < 2) × (length (or_zeros (frame_len kind) p4.now) ≡ frame_len kind) × (length delay.now ≡ delay_len main) × (length px2.old ≡ matrix_len kind + p1'_len main) × (length memory.old ≡ sender_len kind) }
    ensures by_index { (s : List ℕ) → px2.new ≡ px_of kind half memory.old (or_zeros (frame_len kind) p4.now) ++ p1'_of main (oldest main delay.now s) }
    ensures memory_after { memory.new ≡ mem_of kind half memory.old (or_zeros (frame_len kind) p4.now) }
{
    let k = matrix_len(kind);
    write_px(kind, half, p4, &mut px2[..k], memory);
    diversity::write_delayed(main, delay, &mut px2[k..]);
}
