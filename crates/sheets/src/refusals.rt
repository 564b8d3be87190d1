// Why there is no sheet, at the start of a buffer.
ghost use Rattle.std.specs.Prelude.{◌+◌, ◌++◌, ◌≤◌, length};
ghost use Rattle.text.specs.Put.{Put};
ghost use Rattle.sheettext.specs.Texts.{last};

use text::{field, put};

// Puts these words and how many bytes the L1 frames would have.
pub fn put_want(out: &mut [u8], words: &[u8], want: usize) -> usize
    requires { length words.now + 21 ≤ length out.old }
    ensures { Put out.old out.new 0 result (length words.now + 21) (words.now ++ last want) }
{
    let m = put(out, 0, words);
    field(out, m, want as u64, b'\n')
}
