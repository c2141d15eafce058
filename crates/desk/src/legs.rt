// The run along the legs: each adds its latitude, its departure and its grid distance.
ghost use Rattle.std.specs.Prelude.{◌≡◌, ◌+◌, ◌≤◌};
ghost use Rattle.answer.specs.Limit.{least_distance, most_distance};
ghost use Rattle.steps.specs.Distance.{least_combined, most_combined, grid};
ghost use Rattle.desk.specs.Inside.{longest_leg, with_legs, LegSound, Sound, RoomForLeg};
ghost use Rattle.desk.specs.Inside.{begun, advanced, sums_at, kept_to};
ghost use Rattle.sines.specs.Sine.{entry_in};

use crate::vector::Vector;
use crate::{Frame, Leg, MOST_STATIONS, Sums};
use answer::limit::MOST_LEGS;
use minutes::ENTRIES;
use steps::course;
use tape::Point;

fn grid_distance(distance: u32, factor: u32) -> u64
    requires least_distance_le_distance { (least_distance ≤ distance) × (distance ≤ most_distance) }
    requires least_combined_le_factor { (least_combined ≤ factor) × (factor ≤ most_combined) }
    ensures is { result ≡ grid distance factor }
    ensures size { result ≤ longest_leg }
{
    steps::distance::grid(distance as u64, factor as u64).unwrap()
}

// One leg on, by the sines of a lent table.
fn advance(table: &[u32; ENTRIES], factor: u32, leg: Leg, s: Sums) -> Sums
    requires leg_sound { LegSound factor leg.distance leg.azimuth }
    requires room_for_leg { RoomForLeg s }
    ensures { result ≡ advanced (entry_in table.now) factor leg s }
{
    let long = grid_distance(leg.distance, factor);
    let moves = course::moves_in(table, long, leg.azimuth).unwrap();
    Sums {
        at: s.at.plus(Vector::from(moves)),
        run: s.run + long,
    }
}

// What is summed before the first leg.
fn start(from: Point) -> Sums
    ensures { result ≡ begun from }
{
    Sums {
        at: Vector::from(from),
        run: 0,
    }
}

// The run along all legs: what is summed at every station is kept in the lent list, and what is
// summed at the last one comes back.
pub fn run_all(
    table: &[u32; ENTRIES],
    b: Frame,
    legs: &[Leg; MOST_LEGS],
    kept: &mut [Sums; MOST_STATIONS],
) -> Sums
    requires { Sound (with_legs b legs.now) }
    ensures kept { kept.new ≡ kept_to (entry_in table.now) (with_legs b legs.now) kept.old }
    ensures end { result ≡ sums_at (entry_in table.now) (with_legs b legs.now) b.legs }
{
    let mut s = start(b.from);
    kept[0] = s;
    for (k, leg) in legs[..b.legs].iter().enumerate() {
        s = advance(table, b.factor, *leg, s);
        kept[k + 1] = s;
    }
    s
}
