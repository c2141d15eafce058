// The closure at the end of the run, and the adjusted coordinates of the stations in the lent
// words: of each station its northing, then its easting.
ghost use Rattle.std.specs.Prelude.{◌≡◌, ◌+◌, ◌*◌, ◌≤◌, ◌<◌, length, nat_abs};
ghost use Rattle.steps.specs.Closure.{most_tested, most_closure, most_sum, closes, precision};
ghost use Rattle.steps.specs.Share.{share};
ghost use Rattle.desk.specs.Answer.{station_words};
ghost use Rattle.desk.specs.Inside.{Bounded, RoomForLeg, Near, Shared, left, share_of, put_at};
ghost use Rattle.desk.specs.Inside.{put_to, station_at};

use crate::vector::Vector;
use crate::{Closure, MOST_STATIONS, Sums};
use tape::Point;
use whole::Whole;

// The closure: the sums at the end of the line less the fixed end.
pub fn closing(to: Point, end: Sums) -> Closure
    requires { RoomForLeg end }
    ensures { result ≡ left to end }
{
    Closure {
        at: end.at.minus(Vector::from(to)),
        distance: end.run,
    }
}

// Kept: `Near` stands in four contracts. A closure has it once it has passed `within_limit`, and is
// used in one place after that: a type of such closures would be made and taken apart there.
impl Closure {
    // Whether the closure is within the limit.
    pub(crate) fn within_limit(self) -> bool
        requires at_within { Bounded most_tested self.at }
        requires le_distance { (1 ≤ self.distance) × (self.distance ≤ most_sum) }
        ensures { result ≡ closes self.at.north.v self.at.east.v self.distance }
    {
        steps::closure::closes(self.at.north, self.at.east, self.distance).unwrap()
    }

    // The precision number of a closure within the limit.
    pub(crate) fn precision(self) -> u64
        requires { Near self }
        ensures { result ≡ precision self.at.north.v self.at.east.v self.distance }
    {
        steps::closure::precision(self.at.north, self.at.east, self.distance).unwrap()
    }

    // What a station is given of the closure, so far along the line.
    fn share(self, run: u64) -> Vector
        requires near { Near self }
        requires run_le_distance { run ≤ self.distance }
        ensures is { result ≡ share_of self run }
        ensures size { Bounded most_closure result }
    {
        Vector {
            north: part_of(self.at.north, run, self.distance),
            east: part_of(self.at.east, run, self.distance),
        }
    }
}

// The share of a closure along one axis.
fn part_of(closure: Whole, part: u64, all: u64) -> Whole
    requires v_bound { nat_abs closure.v ≤ most_closure }
    requires part_le_all { (part ≤ all) × (1 ≤ all) × (all ≤ most_sum) }
    ensures is { result.v ≡ share closure.v part all }
    ensures size { nat_abs result.v ≤ most_closure }
{
    steps::share::share(closure, part, all).unwrap()
}

// The coordinates of station k, into the lent words.
fn put(words: &mut [i64], k: usize, station: Vector)
    requires { 2 * k + 1 < length words.old }
    ensures { words.new ≡ put_at k station words.old }
{
    words[2 * k] = station.north.v;
    words[2 * k + 1] = station.east.v;
}

// The coordinates of station k, from the words.
pub fn station(words: &[i64], k: usize) -> Vector
    requires { 2 * k + 1 < length words.now }
    ensures { result ≡ station_at words.now k }
{
    Vector {
        north: Whole { v: words[2 * k] },
        east: Whole {
            v: words[2 * k + 1],
        },
    }
}

// Stations 0 to n, each less its share of the closure, from what was kept of them.
//
// Kept: that the words have room stands in four contracts. They are a caller's `&mut [i64]`, a form
// that the rules name, and it may be longer than 130.
pub fn put_all(n: usize, kept: &[Sums; MOST_STATIONS], c: Closure, words: &mut [i64])
    requires shared { Shared n kept.now c }
    requires near { Near c }
    requires station_words_in_bounds { station_words ≤ length words.old }
    ensures { words.new ≡ put_to kept.now c (n + 1) words.old }
{
    for (k, s) in kept[..n + 1].iter().enumerate() {
        put(words, k, s.at.minus(c.share(s.run)));
    }
}
