// The records of a tape: the kinds, the length of each, and the ranges of their fields.
#![tactic(auto)]

ghost use Rattle.std.specs.Prelude.{◌≡◌, ◌+◌};
ghost use Rattle.records.specs.Kinds.{byte_of, NamesKind};
ghost use Rattle.records.specs.Record.{body_of, rec_of, good_record};

use whole::Whole;

pub mod ranges;

// A kind of record, each with its byte.
#[derive(Clone, Copy, Debug, PartialEq, Eq)]
pub enum Kind {
    Project = 1,
    Start,
    Leg,
    Close,
    Row,
}

impl Kind {
    // The byte that a record of the kind begins with.
    pub fn byte(self) -> u8
        ensures { result ≡ byte_of self }
    {
        self as u8
    }

    // The length of the body that follows it.
    #[tactic(auto, unfolding(crate::specs::Record::body_of))]
    pub fn body(self) -> usize
        ensures { result ≡ body_of (byte_of self) }
    {
        match self {
            Kind::Project => 4,
            Kind::Start => 12,
            Kind::Leg => 8,
            Kind::Close => 16,
            Kind::Row => 6,
        }
    }

    // The length of both together.
    #[tactic(auto, using(crate::proofs::Bodies::body_at_most))]
    pub fn bytes(self) -> usize
        ensures { result ≡ 1 + body_of (byte_of self) }
    {
        1 + self.body()
    }
}

// A byte that no kind has.
#[derive(Clone, Copy, Debug, PartialEq, Eq)]
pub struct UnknownKind {
    pub byte: u8,
}

impl TryFrom<u8> for Kind {
    type Error = UnknownKind;

    ghost try_from_gives = { NamesKind };

    fn try_from(byte: u8) -> Result<Kind, UnknownKind> {
        match byte {
            1 => Ok(Kind::Project),
            2 => Ok(Kind::Start),
            3 => Ok(Kind::Leg),
            4 => Ok(Kind::Close),
            5 => Ok(Kind::Row),
            _ => Err(UnknownKind { byte }),
        }
    }
}

// A record, with its fields as docs/RULES.md, "The tape", names them.
#[derive(Clone, Copy, Debug, PartialEq, Eq)]
pub enum Record {
    Row {
        minute: u32,
        factor: u32,
    },
    Project {
        latitude: u32,
        elevation: Whole,
    },
    Start {
        northing: u32,
        easting: u32,
        mark: u32,
    },
    Leg {
        angle: u32,
        distance: u32,
    },
    Close {
        angle: u32,
        northing: u32,
        easting: u32,
        mark: u32,
    },
}

#[tactic(auto, unfolding(crate::specs::Record::rec_of))]
impl Record {
    pub fn kind(self) -> Kind
        ensures { byte_of result ≡ (rec_of self).kind }
    {
        match self {
            Record::Row { .. } => Kind::Row,
            Record::Project { .. } => Kind::Project,
            Record::Start { .. } => Kind::Start,
            Record::Leg { .. } => Kind::Leg,
            Record::Close { .. } => Kind::Close,
        }
    }

    // Whether each of its numbers is in the range of its field.
    pub fn good(self) -> bool
        ensures { result ≡ good_record self }
    {
        match self {
            Record::Row { minute, factor } => ranges::row_good(minute, factor),
            Record::Project {
                latitude,
                elevation,
            } => ranges::project_good(latitude, elevation),
            Record::Start {
                northing,
                easting,
                mark,
            } => ranges::start_good(northing, easting, mark),
            Record::Leg { angle, distance } => ranges::leg_good(angle, distance),
            Record::Close {
                angle,
                northing,
                easting,
                mark,
            } => ranges::close_good(angle, northing, easting, mark),
        }
    }
}
