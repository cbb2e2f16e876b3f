// What an operation answers, and what a clerk is told of it.
#![tactic(auto)]

ghost use Rattle.std.specs.Prelude.{◌≡◌};
ghost use Rattle.promises.specs.Order.{check, after};
ghost use Rattle.answer.specs.Told.{told_by, told_of, Says};

use std::fmt;

// The refusals. Each holds what is told of it beside its number.
#[derive(Clone, Copy)]
pub enum Refusal {
    // By settings and lengths; none of these names a place.
    PinsAbove,
    TextBack,
    FastRate,
    ImageLength,
    NotSuited,
    FontLength,
    ShortStrip,
    ShortFrame,
    OtherChip,
    ShortDestination,
    NoKey,
    WrongCanvas,
    ManyPlacements,
    // The index of the first stray pixel.
    Stray(usize),
    // The length of the sheet's longest beginning that some accepted sheet has.
    BrokenSheet(usize),
    // The index of the first byte that differs from the picture that a file's pixels make.
    NoPicture(usize),
    // The strip index of the first byte that external text does not show.
    NotValid(usize),
    // The strip index of the first fetch from a bank that is not fitted.
    NotFitted(usize),
    // The index of the first placement whose rectangle lies outside the frame or is empty.
    OutsideFrame(usize),
    // The index of the first write elsewhere, and the word before the list.
    Elsewhere(usize, u16),
}

impl fmt::Display for Refusal {
    // As the programs tell it.
    fn fmt<W: fmt::Write>(&self, f: &mut fmt::Formatter<W>) -> fmt::Result {
        write!(f, "status={}\nplace={}", self.number(), self.place())
    }
}

// Done with its value, or refused.
pub type Answer = Result<usize, Refusal>;

impl Refusal {
    // The number that a clerk sees.
    fn number(self) -> u8
        ensures { result ≡ (told_by self).number }
    {
        match self {
            Refusal::PinsAbove => 1,
            Refusal::TextBack => 3,
            Refusal::FastRate => 4,
            Refusal::ImageLength => 5,
            Refusal::NotSuited => 16,
            Refusal::FontLength => 6,
            Refusal::ShortStrip => 7,
            Refusal::ShortFrame => 8,
            Refusal::OtherChip => 13,
            Refusal::ShortDestination => 14,
            Refusal::NoKey => 12,
            Refusal::WrongCanvas => 18,
            Refusal::ManyPlacements => 19,
            Refusal::Stray(_) => 9,
            Refusal::BrokenSheet(_) => 11,
            Refusal::NoPicture(_) => 28,
            Refusal::NotValid(_) => 15,
            Refusal::NotFitted(_) => 17,
            Refusal::OutsideFrame(_) => 20,
            Refusal::Elsewhere(_, _) => 10,
        }
    }

    // The place of what is wrong, 0 where the documents name none.
    fn place(self) -> usize
        ensures { result ≡ (told_by self).place }
    {
        match self {
            Refusal::Stray(place)
            | Refusal::BrokenSheet(place)
            | Refusal::NoPicture(place)
            | Refusal::NotValid(place)
            | Refusal::NotFitted(place)
            | Refusal::OutsideFrame(place)
            | Refusal::Elsewhere(place, _) => place,
            _ => 0,
        }
    }

    // The old word where control writes are refused, else 0.
    fn value(self) -> usize
        ensures { result ≡ (told_by self).value }
    {
        match self {
            Refusal::Elsewhere(_, word) => usize::from(word),
            _ => 0,
        }
    }
}

// The number that a clerk sees.
pub fn number(a: Answer) -> u8
    ensures { result ≡ (told_of a).number }
{
    match a {
        Ok(_) => 0,
        Err(refusal) => refusal.number(),
    }
}

// The place of what is wrong, 0 where the documents name none.
pub fn place(a: Answer) -> usize
    ensures { result ≡ (told_of a).place }
{
    match a {
        Ok(_) => 0,
        Err(refusal) => refusal.place(),
    }
}

// The value: the operation's own where it is done, the old word where control writes are refused, else 0.
pub fn value(a: Answer) -> usize
    ensures { result ≡ (told_of a).value }
{
    match a {
        Ok(value) => value,
        Err(refusal) => refusal.value(),
    }
}

// Refuses where a condition holds.
pub fn refuse(when: bool, refusal: Refusal) -> Result<(), Refusal>
    ensures { Says (check when (told_by refusal)) result }
{
    if when { Err(refusal) } else { Ok(()) }
}

// The answer after one more check: the refusal where none was given before and its condition holds.
// Kept with an answer in and out: because its contract stands, and `report_after` says by it that the sheet's own refusal is first.
#[tactic(auto, unfolding(promises::specs::Order::after))]
pub fn check(answer: Answer, when: bool, refusal: Answer) -> Answer
    ensures { told_of result ≡ after (check when (told_of refusal)) (told_of answer) }
{
    let value = answer?;
    if when { refusal } else { Ok(value) }
}
