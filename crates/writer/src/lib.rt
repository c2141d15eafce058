// The writing of one record of a tape into lent bytes.
#![tactic(auto)]

ghost use Rattle.std.specs.Prelude.{◌≡◌, true, ◌++◌, ◌+◌, ◌≤◌, length, take, drop};
ghost use Rattle.records.specs.Record.{good_record, bytes_of_record};
ghost use Rattle.writer.specs.Write.{Wrote};

use answer::{Refusal, Refused};
use records::Record;

mod writing;

// The rest of the bytes lent on to the writer of the record's kind.
fn lend_on(out: &mut [u8], place: usize, given: Record)
    requires given_in_bounds { place + length (bytes_of_record given) ≤ length out.old }
    requires given_value { good_record given ≡ true }
    ensures { out.new ≡ take place out.old
        ++ (bytes_of_record given
        ++ drop (place + length (bytes_of_record given)) out.old) }
{
    match given {
        Record::Row { minute, factor } => writing::put_row(&mut out[place..], minute, factor),
        Record::Project {
            latitude,
            elevation,
        } => writing::put_project(&mut out[place..], latitude, elevation),
        Record::Start {
            northing,
            easting,
            mark,
        } => writing::put_start(&mut out[place..], northing, easting, mark),
        Record::Leg { angle, distance } => writing::put_leg(&mut out[place..], angle, distance),
        Record::Close {
            angle,
            northing,
            easting,
            mark,
        } => writing::put_close(&mut out[place..], angle, northing, easting, mark),
    }
}

// One record, written at a place of the lent bytes: its room is tested, then its fields, and the
// rest of the bytes is lent on to the writer of its kind. Any place may be given. It answers the
// next place.
pub fn write(out: &mut [u8], place: usize, given: Record) -> Result<usize, Refused>
    ensures { Wrote out.old out.new place
        (good_record given) (bytes_of_record given) result }
{
    let bytes = given.kind().bytes();
    if out.len().saturating_sub(place) < bytes {
        return Err(Refused {
            refusal: Refusal::NoRoom,
            place: 0,
        });
    }
    if !given.good() {
        return Err(Refused {
            refusal: Refusal::OutOfRange,
            place,
        });
    }
    lend_on(out, place, given);
    Ok(place + bytes)
}
