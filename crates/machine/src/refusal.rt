// The refusals of the paper, named once. Each has the number that document 01 gives it, and a few plain words.
ghost use Rattle.std.specs.Prelude.{◌≡◌};
ghost use Rattle.machine.specs.Refusals as refusals;

use std::fmt;

#[derive(Clone, Copy, Debug, PartialEq, Eq)]
pub enum Refusal {
    EndsEarly = 1,
    WrongMark,
    OutOfRange,
    NoSuchState,
    LeftOver,
    BadWord,
    BadLimit,
    SmallArea,
    SmallSheet,
    OverLimit,
    OtherSize,
    NotReached,
    NotApart,
    WrongMap,
}

// The paper's number.
impl From<Refusal> for u8 {
    ghost from_gives = { λ r x. x ≡ refusals.number r };

    fn from(r: Refusal) -> u8 {
        // The numbers stand with the variants; no other form reads them.
        r as u8
    }
}

impl fmt::Display for Refusal {
    fn fmt<W: fmt::Write>(&self, f: &mut fmt::Formatter<W>) -> fmt::Result {
        f.write_str(match self {
            Refusal::EndsEarly => "it ends too early",
            Refusal::WrongMark => "a mark is not the one due",
            Refusal::OutOfRange => "a count of states, letters or columns is outside its range",
            Refusal::NoSuchState => "it names a state that is not there",
            Refusal::LeftOver => "bytes are left over",
            Refusal::BadWord => "a word has a wrong length or a letter that is not there",
            Refusal::BadLimit => "a limit is outside its range",
            Refusal::SmallArea => "the table or word area is too small",
            Refusal::SmallSheet => "the sheet area is too small",
            Refusal::OverLimit => "the model needs more states than the limit",
            Refusal::OtherSize => "it is for a machine with other states or letters",
            Refusal::NotReached => "a reaching word does not lead to its state",
            Refusal::NotApart => "two states are not told apart",
            Refusal::WrongMap => "the state map does not hold",
        })
    }
}
