// Latitude and departure: how far a leg moves north and east, in hundredths of a foot. Azimuths run
// from south, hence the minus signs.
ghost use Rattle.std.specs.Prelude.{◌≡◌, ◌≤◌, pos, nat_abs};
ghost use Rattle.answer.specs.Told.{told_amount};
ghost use Rattle.minutes.specs.Exact.{nine_decimals};
ghost use Rattle.minutes.specs.Quadrant.{signed_by};
ghost use Rattle.minutes.specs.Entry.{entry};
ghost use Rattle.sines.specs.Sine.{entry_in};
ghost use Rattle.steps.specs.Course.{north as Course·north, east as Course·east};
ghost use Rattle.steps.specs.Course.{most_grid, move as Course·move, course_step, told_move};

use crate::range::at_most;
use answer::OutOfRange;
use minutes::ENTRIES;
use sines::Signed;
use whole::Whole;

// "a grid distance of 0..20,100,000", in thousandths of a foot
const MOST_GRID: u32 = 20_100_000;

// "the nearest hundredth, rounded once from the exact product": thousandths of a foot by nine
// decimals, of which 10 ^ 10 make a hundredth.
const PER_HUNDREDTH: u64 = 10_000_000_000;

// Both moves of a leg.
#[derive(Clone, Copy, Debug, PartialEq, Eq)]
pub struct Moves {
    pub north: Whole,
    pub east: Whole,
}

// How far a distance moves along an axis, by the sine that counts there: the size is rounded, and
// the opposite sign put on.
fn move_by(distance: u64, sine: Signed) -> Whole
    requires distance_le_most_grid { distance ≤ most_grid }
    requires size_le_nine_decimals { sine.size ≤ nine_decimals }
    ensures { result.v ≡ Course·move distance (signed_by sine.negative (pos sine.size)) }
{
    let moved = Whole::of_size(whole::half_up(distance * u64::from(sine.size), PER_HUNDREDTH));
    if sine.negative {
        return moved;
    }
    moved.opposite()
}

// The latitude of a leg by the cosine in a lent table, and its departure by the sine.
pub fn moves_in(table: &[u32; ENTRIES], distance: u64, azimuth: u32) -> Result<Moves, OutOfRange>
    ensures is_north { told_move Course·north result
        ≡ course_step (entry_in table.now) Course·north distance azimuth }
    ensures is_east { told_move Course·east result
        ≡ course_step (entry_in table.now) Course·east distance azimuth }
{
    at_most(MOST_GRID, distance)?;
    let sides = sines::sides_in(table, azimuth)?;
    let north = move_by(distance, sides.cosine);
    let east = move_by(distance, sides.sine);
    Ok(Moves { north, east })
}

// The latitude or the departure of a leg, by the one sine that counts.
fn moved(distance: u64, sine: Whole) -> Whole
    requires distance_le_most_grid { distance ≤ most_grid }
    requires size_le_nine_decimals { nat_abs sine.v ≤ nine_decimals }
    ensures { result.v ≡ Course·move distance sine.v }
{
    let negative = sine.below_zero();
    let size = sine.size() as u32;
    move_by(distance, Signed { size, negative })
}

// The latitude of a leg, by the cosine in a lent table.
// Kept: distance and azimuth by themselves, and a function for each axis, as C calls them.
pub fn latitude_in(table: &[u32; ENTRIES], distance: u64, azimuth: u32) -> Result<Whole, OutOfRange>
    ensures { told_amount result
        ≡ course_step (entry_in table.now) Course·north distance azimuth }
{
    at_most(MOST_GRID, distance)?;
    let cosine = sines::cosine_in(table, azimuth)?;
    Ok(moved(distance, cosine))
}

// The departure of a leg, by the sine in a lent table.
pub fn departure_in(
    table: &[u32; ENTRIES],
    distance: u64,
    azimuth: u32,
) -> Result<Whole, OutOfRange>
    ensures { told_amount result
        ≡ course_step (entry_in table.now) Course·east distance azimuth }
{
    at_most(MOST_GRID, distance)?;
    let sine = sines::sine_in(table, azimuth)?;
    Ok(moved(distance, sine))
}

// The latitude by the desk's own table.
pub fn latitude(distance: u64, azimuth: u32) -> Result<Whole, OutOfRange>
    ensures { told_amount result ≡ course_step entry Course·north distance azimuth }
{
    latitude_in(minutes::own(), distance, azimuth)
}

// The departure by the desk's own table.
pub fn departure(distance: u64, azimuth: u32) -> Result<Whole, OutOfRange>
    ensures { told_amount result ≡ course_step entry Course·east distance azimuth }
{
    departure_in(minutes::own(), distance, azimuth)
}
