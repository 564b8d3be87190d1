// Buffers of a mode's lengths, and of a sheet's.
ghost use Rattle.std.specs.Prelude.{◌≡◌, min, length};
ghost use Rattle.io.specs.Counts.{IsPrefixLen};

// A mode's length of a buffer that is as long as any mode asks; the buffer's own length bounds it, so that a part of that length can be lent.
pub fn within(wanted: usize, buffer: &[u8]) -> usize
    ensures prefix_len { IsPrefixLen result buffer.now }
    ensures value { result ≡ min wanted (length buffer.now) }
{
    if wanted < buffer.len() {
        wanted
    } else {
        buffer.len()
    }
}

// Room for the longest input that has a sheet, and one byte more: of a longer one the rest cannot matter.
pub fn sheet_input() -> [u8; 1773634]
    ensures { 1773634 ≡ length result }
{
    [0; 1773634]
}

// Room for the text of a sheet.
pub fn sheet_text() -> [u8; 1200000]
    ensures { 1200000 ≡ length result }
{
    [0; 1200000]
}
