// What a public step answers: its value, or a refusal. specs/Told.antt says of every case which
// number, place and value that is.
#![tactic(auto)]

ghost use Rattle.std.specs.Prelude.{◌≡◌};
ghost use Rattle.answer.specs.Refusal.{number_of, Names};

use std::error::Error;
use std::fmt;

pub mod limit;

// docs/RULES.md, "Nine refusals", in the order of their numbers.
#[derive(Clone, Copy, Debug, PartialEq, Eq)]
pub enum Refusal {
    // a lent buffer is too short
    NoRoom = 1,
    // the tape ends inside a record, or before a close is read
    CutShort,
    // a kind unknown or out of order, or a byte after close
    OutOfOrder,
    // a field out of range, or an input of a public arithmetic step
    OutOfRange,
    // a row not one minute above the last, or a 601st row
    BadRows,
    // a 65th leg
    TooManyLegs,
    // no row for the mean latitude
    NoRow,
    // angular misclosure too large
    BadAngles,
    // position closure too large
    BadClosure,
}

impl Refusal {
    // The number of a refusal, 1 to 9.
    pub fn number(self) -> u32
        ensures { result ≡ number_of self }
    {
        self as u32
    }
}

// In the words of docs/REFUSALS.md (tools/refusals.py holds the two together).
impl fmt::Display for Refusal {
    fn fmt<W: fmt::Write>(&self, f: &mut fmt::Formatter<W>) -> fmt::Result {
        let said = match self {
            Refusal::NoRoom => "the lent memory is too small",
            Refusal::CutShort => "the tape ends inside a record, or before the close",
            Refusal::OutOfOrder => {
                f.write_str("out of order: ")?;
                "rows come first, then one project, one start, 1 to 64 legs and one close"
            }
            Refusal::OutOfRange => "a number is out of range",
            Refusal::BadRows => {
                "each row is one minute above the row before, and there are at most 600 rows"
            }
            Refusal::TooManyLegs => "this is the 65th leg, and there are at most 64",
            Refusal::NoRow => "no row has the mean latitude",
            Refusal::BadAngles => "the angular misclosure is above 10 seconds for each angle",
            Refusal::BadClosure => "the position closure is above 1 in 5,000 of the distance",
        };
        f.write_str(said)
    }
}

impl Error for Refusal {}

// A number that no refusal has.
#[derive(Clone, Copy, Debug, PartialEq, Eq)]
pub struct UnknownNumber {
    pub number: u32,
}

impl TryFrom<u32> for Refusal {
    type Error = UnknownNumber;

    ghost try_from_gives = { Names };

    fn try_from(number: u32) -> Result<Refusal, UnknownNumber> {
        match number {
            1 => Ok(Refusal::NoRoom),
            2 => Ok(Refusal::CutShort),
            3 => Ok(Refusal::OutOfOrder),
            4 => Ok(Refusal::OutOfRange),
            5 => Ok(Refusal::BadRows),
            6 => Ok(Refusal::TooManyLegs),
            7 => Ok(Refusal::NoRow),
            8 => Ok(Refusal::BadAngles),
            9 => Ok(Refusal::BadClosure),
            _ => Err(UnknownNumber { number }),
        }
    }
}

// What refuses a tape, or a record, and its place.
#[derive(Clone, Copy, Debug, PartialEq, Eq)]
pub struct Refused {
    pub refusal: Refusal,
    pub place: usize,
}

// An input of an arithmetic step was out of the range stated with the step: its one refusal, which
// has no place.
#[derive(Clone, Copy, Debug, PartialEq, Eq)]
pub struct OutOfRange;
