// The entry point of `layer1` for C that puts an answer sheet. `include/layer1.h` declares it.
ghost use Rattle.std.specs.Prelude.{◌≡◌};
ghost use Rattle.sheets.specs.Call.{sheet_call};
ghost use Rattle.exported_sheets.specs.Left.{said, sheet_left, sheet_left_by};

// Puts the answer sheet for an input.
#[unsafe(no_mangle)]
pub extern "C" fn layer1_sheet(
    mode: u8,
    count: u64,
    without3: u8,
    without4: u8,
    work: u8,
    input: &[u8],
    out: &mut [u8],
) -> u64
    ensures { sheet_left result out.new ≡ sheet_left_by (sheet_call mode count (said without3) (said without4) (said work) input.now out.old) }
{
    exported_sheets::layer1_sheet(mode, count, without3, without4, work, input, out)
}
