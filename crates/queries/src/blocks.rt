// Documents 01 and 02: a control block alone is looked up for its mode, block count and reserved number. S-8: so are the sixteen blocks of an L1 frame as a set.
ghost use Rattle.std.specs.Prelude.{◌≡◌};
ghost use Rattle.queries.specs.Lookup.{lookup_of, values};
ghost use Rattle.queries.specs.LookupFrame.{answered, lookup_frame_of, values as values_of_frame};

pub use blockset::FrameNumbers;
use blockset::SetFault;
pub use control::BlockNumbers;
use runs::Answer;

// Looks up the mode, the block count and the number of one control block.
pub fn lookup(block: &[u8]) -> Result<BlockNumbers, Answer>
    ensures { (result ≡ lookup_of block.now) × (values result ≡ values (lookup_of block.now)) }
{
    if block.len() != 256 {
        return Err(Answer::WrongLength(0));
    }
    control::lookup(block).ok_or(Answer::WrongControl(0))
}

// What refuses an L1 frame whose blocks say no mode and number as a set.
fn answer_to(fault: SetFault) -> Answer
    ensures { result ≡ answered fault }
{
    match fault {
        SetFault::Faulty(block) => Answer::WrongControl(block as usize),
        SetFault::Unfit(block) => Answer::MixedControl(block as usize),
    }
}

// Looks up the mode and the number of the sixteen control blocks of an L1 frame.
pub fn lookup_frame(control: &[u8]) -> Result<FrameNumbers, Answer>
    ensures { (result ≡ lookup_frame_of control.now) × (values_of_frame result ≡ values_of_frame (lookup_frame_of control.now)) }
{
    if control.len() != 4096 {
        return Err(Answer::WrongLength(0));
    }
    let FrameNumbers { mode, reserved } = blockset::lookup_frame(control).map_err(answer_to)?;
    Ok(FrameNumbers { mode, reserved })
}
