// Document 02, S-11: the frame that fits the cells that were read.
ghost use Rattle.exported.specs.Restored.{RestoredBy};

// The frame that fits the cells that were read, where exactly one does.
#[unsafe(no_mangle)]
pub extern "C" fn layer1_restore(cells: &[u8], frame: &mut [u8]) -> u64
    ensures { RestoredBy cells.now frame.old frame.new result }
{
    exported::layer1_restore(cells, frame)
}
