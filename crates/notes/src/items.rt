// The words and the numbers of a line, each with what docs/NOTES.md says of it.
use crate::{Fault, Item, Word, units};
use records::Kind;

// The kind of record that a line's first word names.
pub fn kind_of(word: &[u8]) -> Option<Kind> {
    match word {
        b"row" => Some(Kind::Row),
        b"project" => Some(Kind::Project),
        b"start" => Some(Kind::Start),
        b"leg" => Some(Kind::Leg),
        b"close" => Some(Kind::Close),
        _ => None,
    }
}

impl Word {
    // The word of a kind.
    pub(crate) fn of(kind: Kind) -> Word {
        match kind {
            Kind::Row => Word::Row,
            Kind::Project => Word::Project,
            Kind::Start => Word::Start,
            Kind::Leg => Word::Leg,
            Kind::Close => Word::Close,
        }
    }
}

impl Item {
    pub(crate) fn decimals(self) -> usize {
        match self {
            Item::Factor => units::FACTOR_DECIMALS,
            Item::Northing | Item::Easting => units::COORDINATE_DECIMALS,
            Item::AzimuthSeconds | Item::AngleSeconds => units::SECONDS_DECIMALS,
            Item::Distance => units::DISTANCE_DECIMALS,
            _ => 0,
        }
    }

    // Minutes and seconds are below 60. Of the other items the writer of the tape alone judges.
    pub(crate) fn limited(self, value: u32) -> Result<u32, Fault> {
        let limit = match self {
            Item::LatitudeMinutes | Item::AzimuthMinutes | Item::AngleMinutes => {
                units::MINUTES_IN_DEGREE
            }
            Item::AzimuthSeconds | Item::AngleSeconds => units::TENTHS_IN_MINUTE,
            _ => return Ok(value),
        };
        if value < limit {
            Ok(value)
        } else {
            Err(Fault::Sixty(self))
        }
    }
}
