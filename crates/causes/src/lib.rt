// Documents 01 and 02, the table of causes: the number and the place of an answer.
#![tactic(auto)]

ghost use Rattle.std.specs.Prelude.{◌≡◌, ◌↔◌, IsTrue};
ghost use Rattle.runs.specs.Answers.{number_of, place_of};

use runs::Answer;

// Whether an answer is the one that is no cause.
pub fn is_success(answer: Answer) -> bool
    ensures { IsTrue result ↔ number_of answer ≡ 0 }
{
    matches!(answer, Answer::Success)
}

pub fn number(answer: Answer) -> u8
    ensures { result ≡ number_of answer }
{
    match answer {
        Answer::Success => 0,
        Answer::ModeNotCovered => 1,
        Answer::StateNotValid => 2,
        Answer::WrongLength(_) => 3,
        Answer::WrongControl(_) => 4,
        Answer::MainNotCoded(_) => 5,
        Answer::PidsNotCoded(_) => 6,
        Answer::FillNotZero(_) => 7,
        Answer::ExtendedNotCoded(_) => 8,
        Answer::ReservedTooHigh => 9,
        Answer::SharesTooMany => 10,
        Answer::SymbolTooHigh => 11,
        Answer::ScaleNotUsable(_) => 12,
        Answer::MixedControl(_) => 13,
        Answer::NoFrameFits => 14,
        Answer::SeveralFit => 15,
        Answer::WrongBudget => 16,
        Answer::WrongMark => 17,
        Answer::WrongVersion => 18,
        Answer::WrongEnd => 19,
    }
}

pub fn place(answer: Answer) -> usize
    ensures { result ≡ place_of answer }
{
    match answer {
        Answer::Success => 0,
        Answer::ModeNotCovered => 0,
        Answer::StateNotValid => 0,
        Answer::WrongLength(place) => place,
        Answer::WrongControl(block) => block,
        Answer::MainNotCoded(frame) => frame,
        Answer::PidsNotCoded(frame) => frame,
        Answer::FillNotZero(cell) => cell,
        Answer::ExtendedNotCoded(frame) => frame,
        Answer::ReservedTooHigh => 0,
        Answer::SharesTooMany => 0,
        Answer::SymbolTooHigh => 0,
        Answer::ScaleNotUsable(place) => place,
        Answer::MixedControl(block) => block,
        Answer::NoFrameFits => 0,
        Answer::SeveralFit => 0,
        Answer::WrongBudget => 0,
        Answer::WrongMark => 0,
        Answer::WrongVersion => 0,
        Answer::WrongEnd => 0,
    }
}
