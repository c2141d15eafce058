// The doubled area of a loop, from the stations' words.
ghost use Rattle.std.specs.Prelude.{◌≡◌, cond, ◌+◌, ◌*◌, ◌<◌, length, pos};
ghost use Rattle.steps.specs.Area.{doubled};
ghost use Rattle.desk.specs.Inside.{sum_bound, Bounded, station_at, taken_at, taken_from};
ghost use Rattle.desk.specs.Inside.{AreaRanged};

use crate::coordinates;
use crate::vector::Vector;
use whole::Whole;

// Station k, taken from the first.
fn from_first(words: &[i64], k: usize) -> Vector
    requires k_in_bounds { 2 * k + 1 < length words.now }
    requires k_within { Bounded sum_bound (station_at words.now k) }
    requires first_within { Bounded sum_bound (station_at words.now 0) }
    ensures { result ≡ taken_at words.now k }
{
    coordinates::station(words, k).minus(coordinates::station(words, 0))
}

// The sum round n stations. The first station makes no triangle with itself, so the sum ends at the
// last station but one.
fn round(words: &[i64], n: usize) -> Whole
    requires { AreaRanged n words.now }
    ensures { result.v ≡ doubled (taken_from words.now n) }
{
    let mut sum = Whole { v: 0 };
    let mut here = from_first(words, 0);
    for k in 1..n {
        let there = from_first(words, k);
        sum = sum.plus(here.cross(there));
        here = there;
    }
    sum
}

// The doubled area of a loop of n legs; zero where the traverse is no loop.
pub fn area(looped: bool, n: usize, words: &[i64]) -> Whole
    requires { AreaRanged n words.now }
    ensures { result.v ≡ cond looped (doubled (taken_from words.now n)) (pos 0) }
{
    if looped {
        return round(words, n);
    }
    Whole { v: 0 }
}
