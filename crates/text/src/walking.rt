// The lines of a text, one after the other.
ghost use Rattle.std.specs.Prelude.{◌≡◌};
ghost use Rattle.std.specs.Iterator.{YieldsFirstRef, item_count};
ghost use Rattle.text.specs.Left.{lines_left};
ghost use Rattle.text.specs.Lines.{lines as «lines_of»};

use crate::cuts::cut;

// The lines of a text from one on: those of what is left of it.
#[derive(Drop)]
pub struct EachLine<'a> {
    rest: &'a [u8],
}

// The lines of a text.
pub fn lines(text: &[u8]) -> EachLine<'_>
    ensures { lines_left result ≡ «lines_of» text.now }
{
    EachLine { rest: text }
}

impl<'a> Iterator for EachLine<'a> {
    type Item = &'a [u8];

    ghost next_gives = { YieldsFirstRef lines_left };

    ghost remaining = { item_count lines_left };

    fn next(&mut self) -> Option<&'a [u8]> {
        let text = self.rest;
        if text.is_empty() {
            return None;
        }
        let (line, behind) = cut(text, b'\n');
        self.rest = behind;
        Some(line)
    }
}
