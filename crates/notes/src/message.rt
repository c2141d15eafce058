// What is wrong with a text or a tape, in words.
use crate::{Fault, Item, Word, Wrong};
use answer::Refusal;
use std::error::Error;
use std::fmt;

fn degrees<W: fmt::Write>(f: &mut fmt::Formatter<W>, what: &str) -> fmt::Result {
    write!(f, "the degrees of the {what}, a whole number")
}

fn minutes<W: fmt::Write>(f: &mut fmt::Formatter<W>, what: &str) -> fmt::Result {
    write!(f, "the minutes of the {what}, a whole number below 60")
}

fn seconds<W: fmt::Write>(f: &mut fmt::Formatter<W>, what: &str) -> fmt::Result {
    write!(
        f,
        "the seconds of the {what}, below 60 with at most 1 decimal"
    )
}

impl fmt::Display for Item {
    fn fmt<W: fmt::Write>(&self, f: &mut fmt::Formatter<W>) -> fmt::Result {
        match self {
            Item::LatitudeDegrees => degrees(f, "latitude"),
            Item::LatitudeMinutes => minutes(f, "latitude"),
            Item::Factor => f.write_str("the scale factor, with at most 7 decimals"),
            Item::Elevation => f.write_str("the mean elevation in feet, a whole number"),
            Item::Northing => f.write_str("the northing in feet, with at most 2 decimals"),
            Item::Easting => f.write_str("the easting in feet, with at most 2 decimals"),
            Item::AzimuthDegrees => degrees(f, "azimuth"),
            Item::AzimuthMinutes => minutes(f, "azimuth"),
            Item::AzimuthSeconds => seconds(f, "azimuth"),
            Item::AngleDegrees => degrees(f, "angle"),
            Item::AngleMinutes => minutes(f, "angle"),
            Item::AngleSeconds => seconds(f, "angle"),
            Item::Distance => f.write_str("the distance in feet, with at most 3 decimals"),
        }
    }
}

// The ranges of the numbers that stand behind a word. The longest ones are two pieces (`Page`).
fn ranges<W: fmt::Write>(f: &mut fmt::Formatter<W>, word: Word) -> fmt::Result {
    f.write_str("out of range: ")?;
    let said = match word {
        Word::Row => {
            "a row has a latitude of 0 00 to 90 00 and a scale factor of 0.9990000 to 1.0010000"
        }
        Word::Project => {
            f.write_str("a project has a mean latitude of 0 00 to 90 00 ")?;
            "and a mean elevation of -1000 to 20000 feet"
        }
        Word::Start => {
            "a start has coordinates of 0.00 to 10000000.00 feet and an azimuth below 360 degrees"
        }
        Word::Leg => {
            "a leg has an angle below 360 degrees and a distance of 1.000 to 20000.000 feet"
        }
        Word::Close | Word::Other => {
            f.write_str("a close has an angle and an azimuth below 360 degrees ")?;
            "and coordinates of 0.00 to 10000000.00 feet"
        }
    };
    f.write_str(said)
}

// What the reading of the tape refuses, with the refusal's number.
fn numbered<W: fmt::Write>(f: &mut fmt::Formatter<W>, refusal: Refusal) -> fmt::Result {
    write!(f, "{refusal} (refusal {})", refusal.number())
}

impl fmt::Display for Fault {
    fn fmt<W: fmt::Write>(&self, f: &mut fmt::Formatter<W>) -> fmt::Result {
        match self {
            Fault::UnknownWord => f.write_str("expected row, project, start, leg or close"),
            Fault::Missing(item) => write!(f, "expected {item}; the line ends before it"),
            Fault::NoNumber(item) => write!(f, "expected {item}; this is no such number"),
            Fault::Decimals(item) => write!(f, "expected {item}; this has too many decimals"),
            Fault::Sixty(item) => write!(f, "expected {item}; this is 60 or more"),
            Fault::Behind => {
                f.write_str("expected the end of the line; text stands behind the last number")
            }
            Fault::Range(word) => ranges(f, *word),
            Fault::Room | Fault::Nothing => f.write_str("no room for the tape"),
            Fault::Order => numbered(f, Refusal::OutOfOrder),
            Fault::Rows => numbered(f, Refusal::BadRows),
            Fault::Legs => numbered(f, Refusal::TooManyLegs),
            Fault::Latitude => numbered(f, Refusal::NoRow),
            Fault::Ended => f.write_str("the notes end before the close (refusal 2)"),
        }
    }
}

impl Error for Fault {}

impl Fault {
    // What the reading of a tape whose records are all in range says of its text.
    pub(crate) fn of(refusal: Refusal) -> Fault {
        match refusal {
            Refusal::OutOfOrder => Fault::Order,
            Refusal::BadRows => Fault::Rows,
            Refusal::TooManyLegs => Fault::Legs,
            Refusal::NoRow => Fault::Latitude,
            _ => Fault::Ended,
        }
    }
}

impl fmt::Display for Wrong {
    fn fmt<W: fmt::Write>(&self, f: &mut fmt::Formatter<W>) -> fmt::Result {
        match self.line {
            0 => write!(f, "end of the text: {}", self.fault),
            line => write!(f, "line {line}: {}", self.fault),
        }
    }
}

impl Error for Wrong {}
