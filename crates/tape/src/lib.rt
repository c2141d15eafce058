// The tape: the reading of a whole tape, and its fields.
#![tactic(auto)]

ghost use Rattle.std.specs.Prelude.{◌≡◌, ◌+◌, ◌-◌, ◌≤◌, length, get_or};
ghost use Rattle.records.specs.Kinds.{byte_of};
ghost use Rattle.records.specs.Record.{leg_kind, body_of};
ghost use Rattle.tape.specs.Tape.{is_leg, reading_of, told_reading};
ghost use Rattle.tape.specs.Fields.{taken_of, told_taken, AllBytes};
ghost use Rattle.tape.specs.Legs.{sight_at};

use answer::Refused;
use records::Kind;
use whole::Whole;

// What has come last. The number 2 is kept for a record between the project and the start.
#[derive(Clone, Copy, Debug, PartialEq, Eq)]
pub enum Phase {
    // nothing, or a row
    AtRows = 0,
    AfterProject = 1,
    // the start
    LineBegun = 3,
    AfterLeg = 4,
    // the close
    Closed = 5,
}

// What has been read so far: what has come last, how many rows and legs, and the minute that the
// next row must have.
#[derive(Clone, Copy, Debug, PartialEq, Eq)]
pub struct State {
    pub phase: Phase,
    pub rows: u32,
    pub next: u32,
    pub legs: u32,
}

// A point of the grid, in hundredths of a foot.
#[derive(Clone, Copy, Debug, PartialEq, Eq)]
pub struct Point {
    pub north: u32,
    pub east: u32,
}

// The fields of a tape, but for the angles and distances: these stay on the tape, from the place
// `line` on, where the first leg stands; the close stands at `place`.
#[derive(Clone, Copy, Debug, PartialEq, Eq)]
pub struct Control {
    pub legs: usize,
    pub line: usize,
    pub elevation: Whole,
    pub scale: u32,
    pub from: Point,
    pub mark: u32,
    pub to: Point,
    pub given: u32,
    pub place: usize,
}

// What was sighted at a station, as it stands at a place: the angle and the distance of the leg
// there, and the place of the record after it. A close has an angle, and no leg after it: its next
// place is its own.
//
// Kept: a place where neither stands has zeros, as docs/RULES.md, "A leg at a place", says.
#[derive(Clone, Copy, Debug, PartialEq, Eq)]
pub struct Sight {
    pub angle: u32,
    pub distance: u32,
    pub next: usize,
}

mod digits;
mod order;
mod taking;

// The reading of any tape, before refusals 8 and 9.
pub fn read(tape: &[u8]) -> Result<State, Refused>
    ensures is { result ≡ reading_of tape.now }
    ensures told { told_reading result ≡ told_reading (reading_of tape.now) }
{
    order::read_all(tape)
}

// The reading of any tape, and the fields of one that reads. Callers walk its legs by `sight_at`,
// from `line` on.
#[tactic(auto, unfolding(crate::specs::Fields::taken_of))]
pub fn take(tape: &[u8]) -> Result<Control, Refused>
    ensures is { result ≡ taken_of tape.now }
    ensures told { told_taken result ≡ told_taken (taken_of tape.now) }
    ensures bytes { AllBytes tape.now }
{
    let last = order::read_all(tape)?;
    Ok(taking::control(tape, last))
}

// The first place at which no record of a kind stands whole: one comparison tests a place, with no
// sum that could overflow.
fn fits_before(tape: &[u8], kind: Kind) -> usize
    ensures { result ≡ length tape.now - body_of (byte_of kind) }
{
    tape.len().saturating_sub(kind.body())
}

// Whether a kind is one of the legs.
fn is_leg(kind: u8) -> bool
    ensures { result ≡ is_leg kind }
{
    kind == Kind::Leg.byte()
}

// What stands at a place where no leg stands whole: the close, or nothing.
#[tactic(auto, using(crate::proofs::Sights::sights), unfolding(records::specs::Record::body_of))]
fn closing_sight(tape: &[u8], at: usize) -> Sight
    requires { get_or tape.now at 0 ≡ leg_kind → length tape.now ≤ at + body_of leg_kind }
    ensures { result ≡ sight_at tape.now at }
{
    if at < fits_before(tape, Kind::Close) && tape[at] == Kind::Close.byte() {
        return Sight {
            angle: digits::four_at(tape, at + 1),
            distance: 0,
            next: at,
        };
    }
    Sight {
        angle: 0,
        distance: 0,
        next: at,
    }
}

// What stands at a place, of any tape and any place. Most often it is a leg.
#[tactic(auto, using(crate::proofs::Sights::sights), unfolding(records::specs::Record::body_of))]
pub fn sight_at(tape: &[u8], at: usize) -> Sight
    ensures { result ≡ sight_at tape.now at }
{
    if at < fits_before(tape, Kind::Leg) && tape[at] == Kind::Leg.byte() {
        return Sight {
            angle: digits::four_at(tape, at + 1),
            distance: digits::four_at(tape, at + 5),
            next: at + Kind::Leg.bytes(),
        };
    }
    closing_sight(tape, at)
}
