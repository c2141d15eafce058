// The desk: a tape in, an adjusted traverse or its sheet out, in two steps. The first checks and
// balances the angles, the second closes and adjusts.
#![tactic(auto)]

ghost use Rattle.std.specs.Prelude.{◌≡◌, ◌≤◌, ◌<◌, length, MatchResult};
ghost use Rattle.answer.specs.declared.Refusal.TheVariants.{NoRoom};
ghost use Rattle.tape.specs.Fields.{fields_of};
ghost use Rattle.desk.specs.Answer.{station_words, told_traverse, checked_angles};
ghost use Rattle.desk.specs.Answer.{after_first, traversed, traversed_by};
ghost use Rattle.desk.specs.Answer.{words_after_first, traversed_words, traversed_words_by};
ghost use Rattle.desk.specs.Inside.{Known};
ghost use Rattle.desk.specs.Sheet.{sheet_bytes, over, Showed, printed_in};
ghost use Rattle.minutes.specs.Entry.{entry};
ghost use Rattle.sines.specs.Sine.{entry_in};

use answer::limit::MOST_LEGS;
use answer::{Refusal, Refused};
use minutes::ENTRIES;
use tape::{Control, Point};
use vector::Vector;
use whole::Whole;

// "stations 0 to n": one more than there are legs. specs/Answer.antt has the same name.
pub const MOST_STATIONS: usize = MOST_LEGS + 1;

// "under 130 words for coordinates" there is no room: a northing and an easting for each of
// stations 0 to 64. specs/Answer.antt has the same name.
pub const STATION_WORDS: usize = 2 * MOST_STATIONS;

// "under 4,096 bytes for the sheet" there is no room. specs/Sheet.antt has the same name.
pub const SHEET_BYTES: usize = 4_096;

// A traverse whose angles are balanced, but for its legs: how many legs it has, how many angles
// share W, the misclosure W, the combined factor, the two fixed points, and the place of the close.
// The legs stand in a list beside it. No latitude, departure or coordinate of a station stands in
// it.
#[derive(Clone, Copy, Debug, PartialEq, Eq)]
pub struct Frame {
    pub legs: usize,
    pub angles: usize,
    pub w: Whole,
    pub factor: u32,
    pub from: Point,
    pub to: Point,
    pub place: usize,
}

// A leg: its azimuth, which is the carried one until it is balanced, and its measured distance.
#[derive(Clone, Copy, Debug, PartialEq, Eq)]
pub struct Leg {
    pub azimuth: u32,
    pub distance: u32,
}

impl Leg {
    // What a list of legs has where no leg stands.
    const NONE: Leg = Leg {
        azimuth: 0,
        distance: 0,
    };
}

// What is summed along the legs up to a station: the preliminary coordinates and the distance run.
#[derive(Clone, Copy, Debug, PartialEq, Eq)]
pub struct Sums {
    pub at: Vector,
    pub run: u64,
}

impl Sums {
    // What a list of stations has where none is reached yet.
    const NONE: Sums = Sums {
        at: Vector {
            north: Whole { v: 0 },
            east: Whole { v: 0 },
        },
        run: 0,
    };
}

// The closure of a traverse: where its preliminary end lies, from the fixed end, and the distance
// run over all legs, which is S.
#[derive(Clone, Copy, Debug, PartialEq, Eq)]
pub struct Closure {
    pub at: Vector,
    pub distance: u64,
}

// The figures of an adjusted traverse: n, W, both closures, the precision number, the doubled area
// and whether it is a loop.
//
// Kept: area and mark by themselves, since both are told, 0 and no loop, to C and in `cases`. Each
// of these would take an Option apart into both again.
#[derive(Clone, Copy, Debug, PartialEq, Eq)]
pub struct Figures {
    pub legs: usize,
    pub w: Whole,
    pub north_closure: Whole,
    pub east_closure: Whole,
    pub precision: u64,
    pub area: Whole,
    pub looped: bool,
}

mod adjusting;
mod angles;
mod area;
mod checking;
mod coordinates;
mod factor;
mod legs;
mod lines;
mod vector;

// "Refusal 1 is tested first": what was lent is long enough.
fn has_room(lent: usize, wanted: usize) -> Result<(), Refused>
    ensures { MatchResult result (λ _. wanted ≤ lent)
        (λ r. (lent < wanted) × (r ≡ record { refusal = NoRoom; place = 0 })) }
{
    if lent < wanted {
        return Err(Refused {
            refusal: Refusal::NoRoom,
            place: 0,
        });
    }
    Ok(())
}

// A tape that reads, by the sines of a lent table: its angles are checked and balanced, then it is
// closed and adjusted.
//
// Kept: a tape and what is taken of it go together through four functions, of which each asks for
// `Known`. One struct of both with that fact in it was tried. Since it holds a reference, clauses
// name `taken.entry.tape.now` in place of `tape.now`, and its maker has a contract of its own: more
// is written than saved.
fn work(
    table: &[u32; ENTRIES],
    tape: &[u8],
    c: Control,
    words: &mut [i64],
) -> Result<Figures, Refused>
    requires known { Known tape.now c }
    requires station_words_in_bounds { station_words ≤ length words.old }
    ensures answer { told_traverse result
        ≡ after_first (entry_in table.now)
        (checked_angles (fields_of tape.now)) }
    ensures words { words.new
        ≡ words_after_first (entry_in table.now)
        (checked_angles (fields_of tape.now))
        words.old }
{
    let mut legs = [Leg::NONE; MOST_LEGS];
    let b = checking::check_angles(tape, c, &mut legs)?;
    adjusting::settle(table, b, &legs, words)
}

// The traverse by the sines of a lent table, whatever it holds: a tape in, an adjusted traverse
// out. No word is written on a refusal.
pub fn traverse_in(
    table: &[u32; ENTRIES],
    tape: &[u8],
    words: &mut [i64],
) -> Result<Figures, Refused>
    ensures answer { told_traverse result
        ≡ traversed_by (entry_in table.now) tape.now
        (length words.old) }
    ensures words { words.new
        ≡ traversed_words_by (entry_in table.now) tape.now
        words.old }
{
    has_room(words.len(), STATION_WORDS)?;
    let c = tape::take(tape)?;
    work(table, tape, c, words)
}

// The traverse of the rules, by the desk's own table.
pub fn traverse(tape: &[u8], words: &mut [i64]) -> Result<Figures, Refused>
    ensures answer { told_traverse result
        ≡ traversed tape.now (length words.old) }
    ensures words { words.new
        ≡ traversed_words tape.now words.old }
{
    traverse_in(minutes::own(), tape, words)
}

// The sheet of a tape that reads, by the sines of a lent table. Its words are its own, and are laid
// out only here, kept out of its caller, so that a tape that does not read pays for none.
#[inline(never)]
fn compose(
    table: &[u32; ENTRIES],
    tape: &[u8],
    c: Control,
    out: &mut [u8],
) -> Result<usize, Refused>
    requires known { Known tape.now c }
    requires sheet_bytes_in_bounds { sheet_bytes ≤ length out.old }
    ensures { Showed (entry_in table.now) tape.now
        out.old out.new result }
{
    let mut words = [0i64; STATION_WORDS];
    let figures = work(table, tape, c, &mut words)?;
    Ok(lines::put_all(out, figures, &words))
}

// The sheet step by the sines of a lent table, whatever it holds: the text of an accepted tape,
// from the first lent byte. No byte is written on a refusal.
pub fn sheet_in(table: &[u32; ENTRIES], tape: &[u8], out: &mut [u8]) -> Result<usize, Refused>
    ensures { Showed (entry_in table.now) tape.now
        out.old out.new result }
{
    has_room(out.len(), SHEET_BYTES)?;
    let c = tape::take(tape)?;
    compose(table, tape, c, out)
}

// The sheet of the rules, by the desk's own table.
pub fn sheet(tape: &[u8], out: &mut [u8]) -> Result<usize, Refused>
    ensures { Showed entry tape.now out.old out.new result }
{
    sheet_in(minutes::own(), tape, out)
}

// What the program prints: the sheet, or the line of a refusal; nothing in bytes that have no room
// for a sheet.
pub fn print(tape: &[u8], out: &mut [u8]) -> usize
    ensures long { result
        ≡ length (printed_in tape.now (length out.old)) }
    ensures bytes { out.new
        ≡ over (printed_in tape.now (length out.old)) out.old }
{
    if out.len() < SHEET_BYTES {
        return 0;
    }
    match sheet(tape, out) {
        Ok(n) => n,
        Err(refused) => {
            lines::put_count(out, 0, b"REFUSED ", u64::from(refused.refusal.number()))
        }
    }
}
