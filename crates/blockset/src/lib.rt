// S-8: the sixteen control blocks of an L1 frame, looked up as a set. An internal crate: the length is required, and the crate above gives document 02's numbers.
#![tactic(auto)]

ghost use Rattle.std.specs.Prelude.{◌≡◌, ◌<◌, length};
ghost use Rattle.blockset.specs.LookupFrame.{fitting, says, looked_up_frame};
ghost use Rattle.blockset.specs.Words.{onward};

use control::BlockNumbers;

// What the sixteen blocks say as a set.
#[derive(Clone, Copy)]
pub struct FrameNumbers {
    pub mode: u8,
    pub reserved: u8,
}

// Why they say none: the lowest block that is faulty by itself; or, where none is, the lowest that does not fit.
#[derive(Clone, Copy)]
pub enum SetFault {
    Faulty(u8),
    Unfit(u8),
}

// What block c says by itself.
fn lookup_at(control: &[u8], c: u8) -> Option<BlockNumbers>
    requires { (length control.now ≡ 4096) × (c < 16) }
    ensures { result ≡ says control.now c }
{
    let from = c as usize * 256;
    let to = from + 256;
    control::lookup(&control[from..to])
}

// Whether the block at position c has the first block's mode and number, and its position for its count.
fn fits(first: BlockNumbers, c: u8, block: BlockNumbers) -> bool
    ensures { result ≡ fitting (Some first) c (Some block) }
{
    (block.mode == first.mode) & (block.reserved == first.reserved) & (block.count == c)
}

// How many of the first blocks all fit, once block c is looked at.
#[tactic(auto, unfolding(crate::specs::Words::onward))]
fn more(fitted: u8, c: u8, fit: bool) -> u8
    requires { c < 16 }
    ensures { result ≡ onward fitted c fit }
{
    if fitted == c && fit { c + 1 } else { fitted }
}

// The sixteen blocks of an L1 frame as a set, in one pass.
pub fn lookup_frame(control: &[u8]) -> Result<FrameNumbers, SetFault>
    requires { length control.now ≡ 4096 }
    ensures { result ≡ looked_up_frame control.now }
{
    let first = lookup_at(control, 0).ok_or(SetFault::Faulty(0))?;
    let mut fitted = more(0, 0, fits(first, 0, first));
    for c in 1..16 {
        let block = lookup_at(control, c).ok_or(SetFault::Faulty(c))?;
        fitted = more(fitted, c, fits(first, c, block));
    }
    if fitted < 16 {
        return Err(SetFault::Unfit(fitted));
    }
    Ok(FrameNumbers {
        mode: first.mode,
        reserved: first.reserved,
    })
}
