// Document 02, S-12: the nearest frame.
ghost use Rattle.exported.specs.Decoded.{AnsweredBy};

// The nearest frame among the starts below the budget, with its distance and margin. The budget is a whole word, so that none is taken for another.
#[unsafe(no_mangle)]
pub extern "C" fn layer1_nearest(cells: &[u8], frame: &mut [u8], budget: usize) -> u64
    ensures { AnsweredBy cells.now frame.old frame.new budget result }
{
    exported::layer1_nearest(cells, frame, budget)
}
