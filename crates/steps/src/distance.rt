// From a measured distance to a grid distance: factors in ten-millionths, distances in thousandths
// of a foot.
ghost use Rattle.std.specs.Prelude.{◌≡◌};
ghost use Rattle.answer.specs.Told.{told_count};
ghost use Rattle.steps.specs.Distance.{sea_level_step, combine_step, grid_step};

use crate::range::{at_most, inside};
use answer::OutOfRange;
use answer::limit::{HIGHEST, LEAST_DISTANCE, LEAST_FACTOR, LOWEST, MOST_DISTANCE, MOST_FACTOR};
use whole::Whole;

// "factors in ten-millionths": a factor of 1.
const UNIT_FACTOR: u64 = 10_000_000;

// "20,906,000 / (20,906,000 + elevation)": the mean radius of the earth in feet.
const MEAN_RADIUS: u64 = 20_906_000;

// The mean radius times a factor of 1. Over the radius plus the elevation it gives the sea level
// factor.
const RADIUS_BY_UNIT: u64 = MEAN_RADIUS * UNIT_FACTOR;

// "a combined factor of 9,980,000..10,020,010": the least.
const LEAST_COMBINED: u32 = 9_980_000;

// "a combined factor of 9,980,000..10,020,010": the most.
const MOST_COMBINED: u32 = 10_020_010;

// The sea level factor of a mean elevation in feet.
pub fn sea_level(elevation: Whole) -> Result<u64, OutOfRange>
    ensures { told_count result ≡ sea_level_step elevation.v }
{
    let feet = elevation.size();
    if elevation.below_zero() {
        at_most(LOWEST as u32, feet)?;
        return Ok(whole::half_up(RADIUS_BY_UNIT, MEAN_RADIUS - feet));
    }
    at_most(HIGHEST as u32, feet)?;
    Ok(whole::half_up(RADIUS_BY_UNIT, MEAN_RADIUS + feet))
}

// The sea level factor and the row's scale factor in one: their product.
pub fn combine(sea: u64, scale: u64) -> Result<u64, OutOfRange>
    ensures { told_count result ≡ combine_step sea scale }
{
    inside(LEAST_FACTOR, MOST_FACTOR, sea)?;
    inside(LEAST_FACTOR, MOST_FACTOR, scale)?;
    Ok(whole::half_up(sea * scale, UNIT_FACTOR))
}

// The grid distance of a measured one.
pub fn grid(distance: u64, factor: u64) -> Result<u64, OutOfRange>
    ensures { told_count result ≡ grid_step distance factor }
{
    inside(LEAST_DISTANCE, MOST_DISTANCE, distance)?;
    inside(LEAST_COMBINED, MOST_COMBINED, factor)?;
    Ok(whole::half_up(distance * factor, UNIT_FACTOR))
}
