// Azimuths, clockwise from south, in tenths of a second: carried along the legs, closed on the
// given one, and balanced.
ghost use Rattle.std.specs.Prelude.{◌≡◌, ◌*◌, ◌%◌, ◌<◌};
ghost use Rattle.answer.specs.Told.{told_amount, told_count, told_verdict};
ghost use Rattle.minutes.specs.Quadrant.{circle};
ghost use Rattle.steps.specs.Azimuth.{from_mark_step, onward_step, misclosure_step};
ghost use Rattle.steps.specs.Azimuth.{misclosure_test, balanced_step};

use crate::range::{at_most, inside};
use answer::OutOfRange;
use answer::limit::MOST_LEGS;
use minutes::quadrant::{CIRCLE, HALF_CIRCLE};
use sines::in_circle;
use whole::Whole;

// Two whole turns, in tenths of a second.
const TWO_CIRCLES: u32 = 2 * CIRCLE;

// "Refused (8) exactly when its size exceeds 100 x (n+1)": the tenths that each angle may be off.
const MOST_PER_ANGLE: u64 = 100;

// A sum of less than three circles, modulo the circle. By comparisons, which cost each leg less
// than a division.
fn modulo(sum: u32) -> u32
    requires { sum < 3 * circle }
    ensures { result ≡ sum % circle }
{
    if sum < CIRCLE {
        return sum;
    }
    if sum < TWO_CIRCLES {
        return sum - CIRCLE;
    }
    sum - TWO_CIRCLES
}

// The azimuth of leg 1, from the azimuth to the mark and its angle right.
pub fn from_mark(mark: u32, angle: u32) -> Result<u64, OutOfRange>
    ensures { told_count result ≡ from_mark_step mark angle }
{
    in_circle(mark)?;
    in_circle(angle)?;
    Ok(u64::from(modulo(mark + angle)))
}

// The azimuth of each next leg, and the closing azimuth, from the azimuth before and the angle
// right there.
pub fn onward(before: u32, angle: u32) -> Result<u64, OutOfRange>
    ensures { told_count result ≡ onward_step before angle }
{
    in_circle(before)?;
    in_circle(angle)?;
    Ok(u64::from(modulo(before + HALF_CIRCLE + angle)))
}

// The angular misclosure: carried less given, the short way round.
pub fn misclosure(carried: u32, given: u32) -> Result<Whole, OutOfRange>
    ensures { told_amount result ≡ misclosure_step carried given }
{
    in_circle(carried)?;
    in_circle(given)?;
    let d = (carried + CIRCLE - given) % CIRCLE;
    if d <= HALF_CIRCLE {
        return Ok(Whole::from(d));
    }
    Ok(Whole::from(CIRCLE - d).opposite())
}

// Whether a misclosure over n legs, so n + 1 angles, is within its limit.
pub fn closes_angles(w: Whole, n: u64) -> Result<bool, OutOfRange>
    ensures { told_verdict result ≡ misclosure_test w.v n }
{
    let size = w.size();
    at_most(HALF_CIRCLE, size)?;
    inside(1, MOST_LEGS as u32, n)?;
    Ok(size <= MOST_PER_ANGLE * (n + 1))
}

// The carried azimuth less its share of the misclosure.
pub fn balanced(azimuth: u32, share: Whole) -> Result<u64, OutOfRange>
    ensures { told_count result ≡ balanced_step azimuth share.v }
{
    in_circle(azimuth)?;
    let size = share.size();
    at_most(HALF_CIRCLE, size)?;
    let turn = u64::from(CIRCLE);
    if share.below_zero() {
        return Ok((u64::from(azimuth) + size) % turn);
    }
    Ok((u64::from(azimuth) + turn - size) % turn)
}
