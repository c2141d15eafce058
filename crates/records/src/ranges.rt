// The table of kinds in code: the length of each kind's body, and the ranges of its fields. The
// reader and the writer of a tape share them.
#![tactic(auto, using(crate::proofs::Bodies::tests), unfolding(crate::specs::Record::good_of))]

ghost use Rattle.std.specs.Prelude.{◌≡◌, [], ◌∷◌, pos};
ghost use Rattle.records.specs.Record.{row_kind, project_kind, start_kind, leg_kind, close_kind};
ghost use Rattle.records.specs.Record.{body_of, good_of, rec_of, good_record};

use crate::{Kind, Record};
use answer::limit::{
    HIGHEST, LEAST_DISTANCE, LEAST_FACTOR, LOWEST, MOST_COORDINATE, MOST_DISTANCE, MOST_FACTOR,
};
use minutes::quadrant::CIRCLE;
use whole::Whole;

// A minute of a row or of a latitude is 0..5,400, as those of the table of sines are.
const LAST_MINUTE: u32 = minutes::LAST_MINUTE as u32;

// An angle or an azimuth is below the circle: at most 12,959,999 tenths of a second.
const LAST_ANGLE: u32 = CIRCLE - 1;

// An elevation in feet, above sea level or below it.
const LOWEST_FEET: i64 = -(LOWEST as i64);

const HIGHEST_FEET: i64 = HIGHEST as i64;

// The length of the body of a kind by its byte; a byte that no kind has has none.
// Kept: it is public, and promises a length for every byte (`body_of`).
#[tactic(auto, using(crate::proofs::Bodies::no_body))]
pub fn body_len(kind: u8) -> usize
    ensures { result ≡ body_of kind }
{
    Kind::try_from(kind).map_or(0, Kind::body)
}

// Kept: the tests are public, and take the fields one by one, since the reader of a tape has them
// as numbers and no record.
pub fn row_good(minute: u32, factor: u32) -> bool
    ensures { result ≡ good_of row_kind (pos minute ∷ pos factor ∷ []) }
{
    minute <= LAST_MINUTE && (LEAST_FACTOR..=MOST_FACTOR).contains(&factor)
}

pub fn project_good(latitude: u32, elevation: Whole) -> bool
    ensures { result ≡ good_of project_kind (pos latitude ∷ elevation.v ∷ []) }
{
    latitude <= LAST_MINUTE && (LOWEST_FEET..=HIGHEST_FEET).contains(&elevation.v)
}

pub fn start_good(northing: u32, easting: u32, mark: u32) -> bool
    ensures { result ≡ good_of start_kind (pos northing ∷ pos easting ∷ pos mark ∷ []) }
{
    northing <= MOST_COORDINATE && easting <= MOST_COORDINATE && mark <= LAST_ANGLE
}

pub fn leg_good(angle: u32, distance: u32) -> bool
    ensures { result ≡ good_of leg_kind (pos angle ∷ pos distance ∷ []) }
{
    angle <= LAST_ANGLE && (LEAST_DISTANCE..=MOST_DISTANCE).contains(&distance)
}

pub fn close_good(angle: u32, northing: u32, easting: u32, mark: u32) -> bool
    ensures { result ≡ good_of close_kind
        (pos angle ∷ pos northing ∷ pos easting ∷ pos mark ∷ []) }
{
    angle <= LAST_ANGLE && start_good(northing, easting, mark)
}

// ---- of a record. Kept: both are public; they say what the record's own methods do.
pub fn kind(given: Record) -> u8
    ensures { result ≡ (rec_of given).kind }
{
    given.kind().byte()
}

pub fn good(given: Record) -> bool
    ensures { result ≡ good_record given }
{
    given.good()
}
