// The second step of a tape that reads, which adjusts: from a traverse whose angles are balanced to
// its closures and its adjusted stations, or refusal 9. No word is written before the test is
// passed.
ghost use Rattle.std.specs.Prelude.{◌≡◌, ◌+◌, ◌≤◌, length};
ghost use Rattle.desk.specs.Answer.{station_words, told_traverse};
ghost use Rattle.desk.specs.Answer.{adjusted_traverse, adjusted_words};
ghost use Rattle.desk.specs.Inside.{with_legs, Sound, Near, Shared, put_to};
ghost use Rattle.desk.specs.Inside.{AreaRanged, Figured};
ghost use Rattle.sines.specs.Sine.{entry_in};

use crate::{Closure, Figures, Frame, Leg, MOST_STATIONS, Sums, area, coordinates, legs};
use answer::limit::MOST_LEGS;
use answer::{Refusal, Refused};
use minutes::ENTRIES;

// The adjusted stations into the lent words, and the figures.
fn adjust_all(b: Frame, c: Closure, kept: &[Sums; MOST_STATIONS], words: &mut [i64]) -> Figures
    requires shared { Shared b.legs kept.now c }
    requires near { Near c }
    requires station_words_in_bounds { station_words ≤ length words.old }
    requires area_ranged { AreaRanged b.legs (put_to kept.now c (b.legs + 1) words.old) }
    ensures words { words.new ≡ put_to kept.now c (b.legs + 1) words.old }
    ensures figures { Figured b c words.new result }
{
    coordinates::put_all(b.legs, kept, c, words);
    let looped = b.from == b.to;
    Figures {
        legs: b.legs,
        w: b.w,
        north_closure: c.at.north,
        east_closure: c.at.east,
        precision: c.precision(),
        area: area::area(looped, b.legs, words),
        looped,
    }
}

// From the legs, by the sines of a lent table.
//
// Kept: frame and legs by themselves. Only this function and `run_all` take both, and a struct that
// held the list would be copied with it.
pub fn settle(
    table: &[u32; ENTRIES],
    b: Frame,
    legs: &[Leg; MOST_LEGS],
    words: &mut [i64],
) -> Result<Figures, Refused>
    requires sound { Sound (with_legs b legs.now) }
    requires station_words_in_bounds { station_words ≤ length words.old }
    ensures answer { told_traverse result
        ≡ adjusted_traverse (entry_in table.now) (with_legs b legs.now) }
    ensures words { words.new
        ≡ adjusted_words (entry_in table.now) (with_legs b legs.now) words.old }
{
    let mut kept = [Sums::NONE; MOST_STATIONS];
    let end = legs::run_all(table, b, legs, &mut kept);
    let c = coordinates::closing(b.to, end);
    if c.within_limit() {
        return Ok(adjust_all(b, c, &kept, words));
    }
    Err(Refused {
        refusal: Refusal::BadClosure,
        place: b.place,
    })
}
