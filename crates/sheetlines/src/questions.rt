// What a line of the list asks for.
ghost use Rattle.std.specs.Prelude.{◌≡◌};
ghost use Rattle.sheetlines.specs.Questions.{named, plain_question, px_question, question_of, two as «two-of», two_question};

use operands::decimal;
use text::{plain_line, rest, word};

// A cell of an L1 frame: of PM, or of PX1 (channel 3) or PX2 (channel 4) with the block pair. Or a coded bit of channel 1 (P1), 2 (PIDS), 3 (P3) or 4 (P4), by the L1 frame with which its transfer frame was handed over.
#[derive(Clone, Copy)]
pub enum Question {
    Pm {
        frame: u64,
        row: usize,
        column: usize,
    },
    Px {
        frame: u64,
        channel: u8,
        pair: usize,
        row: usize,
        column: usize,
    },
    Bit {
        frame: u64,
        channel: u8,
        tframe: usize,
        bit: usize,
    },
}

// The number of a name: 0 of PM, 1 to 4 of P1, PIDS, P3 and P4, 5 of any other.
// Not a `match`: it leaves a goal for each byte that can differ, 14 in all, and the check closes none of them. This form needs no answer; so it is in `asked_plain`.
#[tactic(auto, unfolding(crate::specs::Questions::named))]
fn name_number(name: &[u8]) -> u8
    ensures { result ≡ named name.now }
{
    if bits::same(name, b"PM") {
        return 0;
    }
    if bits::same(name, b"P1") {
        return 1;
    }
    if bits::same(name, b"PIDS") {
        return 2;
    }
    if bits::same(name, b"P3") {
        return 3;
    }
    if bits::same(name, b"P4") {
        return 4;
    }
    5
}

// A cell of PM by its row and its column, or a coded bit by its transfer frame and its number in it.
#[tactic(auto, unfolding(crate::specs::Questions::two))]
fn two(name: u8, frame: u64, first: u64, second: u64) -> Option<Question>
    ensures { result ≡ «two-of» name frame first second }
{
    if name == 0 {
        return Some(Question::Pm {
            frame,
            row: first as usize,
            column: second as usize,
        });
    }
    if name < 5 {
        return Some(Question::Bit {
            frame,
            channel: name,
            tframe: first as usize,
            bit: second as usize,
        });
    }
    None
}

// The same, with the numbers as they stand in the line.
#[tactic(auto, unfolding(crate::specs::Questions::two_question))]
fn two_question(name: u8, frame: &[u8], place: &[u8]) -> Option<Question>
    ensures { result ≡ two_question name frame.now place.now }
{
    let frame = decimal(frame)?;
    let first = decimal(word(place))?;
    let second = decimal(rest(place))?;
    two(name, frame, first, second)
}

// A cell of PX1 or PX2: its block pair, its row and its column.
#[tactic(auto, unfolding(crate::specs::Questions::px_question))]
fn px_question(channel: u8, frame: &[u8], place: &[u8]) -> Option<Question>
    ensures { result ≡ px_question channel frame.now place.now }
{
    let cell = rest(place);
    Some(Question::Px {
        frame: decimal(frame)?,
        channel,
        pair: decimal(word(place))? as usize,
        row: decimal(word(cell))? as usize,
        column: decimal(rest(cell))? as usize,
    })
}

// What a line asks for that no CR ends.
#[tactic(auto, unfolding(crate::specs::Questions::asking, crate::specs::Questions::plain_question))]
fn asked_plain(line: &[u8]) -> Option<Question>
    ensures { result ≡ plain_question line.now }
{
    let frame = word(line);
    let tail = rest(line);
    let name = word(tail);
    let place = rest(tail);
    if bits::same(name, b"PX1") {
        return px_question(3, frame, place);
    }
    if bits::same(name, b"PX2") {
        return px_question(4, frame, place);
    }
    two_question(name_number(name), frame, place)
}

// What a line asks for, if it asks for something.
#[tactic(auto, unfolding(crate::specs::Questions::question_of))]
pub fn asked(line: &[u8]) -> Option<Question>
    ensures { result ≡ question_of line.now }
{
    asked_plain(plain_line(line))
}
