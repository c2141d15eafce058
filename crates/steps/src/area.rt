// The doubled area of a loop, by its stations' offsets: northing, then easting, of each.
ghost use Rattle.std.specs.Prelude.{◌≡◌, true, ◌+◌, ◌*◌, ◌%◌, ◌/◌, ◌<◌, ◌≤◌, length};
ghost use Rattle.std.specs.Prelude.{leb, nat_abs};
ghost use Rattle.answer.specs.Told.{told_amount};
ghost use Rattle.answer.specs.Limit.{most_legs};
ghost use Rattle.steps.specs.Area.{most_offset, good_offsets, northing, easting};
ghost use Rattle.steps.specs.Area.{cross as Area·cross, doubled, area_step};

use crate::range::inside;
use answer::OutOfRange;
use answer::limit::MOST_LEGS;
use whole::Whole;

// "offsets of size up to 130,000,000", in hundredths of a foot
const MOST_OFFSET: i64 = 130_000_000;

// "1 to 64 stations", as many as a loop may have legs, with two offsets each.
const MOST_WORDS: u32 = 2 * MOST_LEGS as u32;

// The offsets of a station.
#[derive(Clone, Copy)]
struct Station {
    north: Whole,
    east: Whole,
}

// The offsets of the stations of a loop, each within its range.
#[derive(Clone, Copy)]
struct Loop<'a> {
    offsets: &'a [i64],
    ghost good: { good_offsets offsets.now ≡ true },
}

impl Loop<'_> {
    // The offsets of station i.
    fn station(&self, i: usize) -> Station
        requires { 2 * i + 1 < length self.now.offsets.now }
        ensures north { result.north.v ≡ northing self.now.offsets.now i }
        ensures east { result.east.v ≡ easting self.now.offsets.now i }
        ensures size { (nat_abs result.north.v ≤ most_offset)
            × (nat_abs result.east.v ≤ most_offset) }
    {
        Station {
            north: Whole {
                v: self.offsets[2 * i],
            },
            east: Whole {
                v: self.offsets[2 * i + 1],
            },
        }
    }

    // Twice the area of the triangle that stations i and j make with the origin.
    fn cross(&self, i: usize, j: usize) -> Whole
        requires i_in_bounds { 2 * i + 1 < length self.now.offsets.now }
        requires j_in_bounds { 2 * j + 1 < length self.now.offsets.now }
        ensures is { result.v ≡ Area·cross self.now.offsets.now i j }
        ensures size { nat_abs result.v ≤ 2 * most_offset * most_offset }
    {
        let here = self.station(i);
        let there = self.station(j);
        let ahead = here.north.times(there.east);
        let back = there.north.times(here.east);
        ahead.minus(back)
    }

    // The sum round the n stations.
    fn doubled(&self, n: usize) -> Whole
        requires { (2 * n ≡ length self.now.offsets.now) × (0 < n) × (n ≤ most_legs) }
        ensures { result.v ≡ doubled self.now.offsets.now }
    {
        let mut sum = Whole { v: 0 };
        for i in 0..n {
            sum = sum.plus(self.cross(i, next(i, n)));
        }
        sum
    }
}

// The station after i, round to the first. By a comparison, since a remainder would be a division
// for each station.
fn next(i: usize, n: usize) -> usize
    requires { i < n }
    ensures { result ≡ (i + 1) % n }
{
    if i + 1 == n {
        return 0;
    }
    i + 1
}

// Whether an offset is within its range. By two comparisons, which the compiler makes one: by its
// size it would take longer.
fn is_near(offset: i64) -> bool
    ensures { result ≡ leb (nat_abs offset) most_offset }
{
    -MOST_OFFSET <= offset && offset <= MOST_OFFSET
}

// Whether every offset is within its range.
fn good_offsets(offsets: &[i64]) -> bool
    ensures { result ≡ good_offsets offsets.now }
{
    offsets.iter().all(|z| is_near(*z))
}

// The doubled area of 1 to 64 stations.
// Kept: northing and easting in turn, as C lends them.
pub fn doubled_area(offsets: &[i64]) -> Result<Whole, OutOfRange>
    ensures { told_amount result ≡ area_step offsets.now }
{
    let words = offsets.len();
    inside(2, MOST_WORDS, words as u64)?;
    if words % 2 != 0 || !good_offsets(offsets) {
        return Err(OutOfRange);
    }
    Ok(Loop { offsets }.doubled(words / 2))
}
