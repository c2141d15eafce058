// The reading of a tape in the order of docs/RULES.md, "The tape": rows, the project, the start,
// legs, the close, the end. Each record's own tests stand in the order of "Nine refusals" there.
//
// Rows may be many: where the last of them may stand, by the limit and by the tape's length, is
// known before the first is read, so that each is told by the fewest tests. Legs are read record by
// record.
#![tactic(auto, using(records::proofs::Bodies::tests), unfolding(records::specs::Record::body_of))]

ghost use Rattle.std.specs.Prelude.{◌≡◌, cond, true, false, ◌+◌, ◌-◌, ◌<◌, ◌≤◌, eqb, ltb, length};
ghost use Rattle.std.specs.Prelude.{get_or, leb, ◌&&◌, OnOk};
ghost use Rattle.answer.specs.Limit.{most_legs};
ghost use Rattle.records.specs.Kinds.{byte_of};
ghost use Rattle.records.specs.Record.{row_kind, project_kind, start_kind, leg_kind, close_kind};
ghost use Rattle.records.specs.Record.{body_of};
ghost use Rattle.tape.specs.declared.Phase.TheVariants.{AtRows, AfterProject, LineBegun, Closed};
ghost use Rattle.tape.specs.Tape.{most_rows, is_leg, with_leg, reading_of};
ghost use Rattle.tape.specs.Passing.{cursor, reading_from, past, past_row, past_leg, Passes};
ghost use Rattle.tape.specs.Passing.{passed_to};
ghost use Rattle.tape.specs.Passing.{due_of, good_there, InLine, Rowed, Opened, Walked};

use crate::{Phase, State, digits, fits_before, is_leg};
use answer::{Refusal, Refused, limit};
use records::{Kind, ranges};

// ---- "0 to 600 rows", "1 to 64 legs"
const MOST_ROWS: u32 = 600;

// The limit as wide as a count of legs in a state.
const MOST_LEGS: u32 = limit::MOST_LEGS as u32;

// Where the reading stands: a place, and what has been read before it.
// Kept: the tape stands beside it in seven functions. It stays while the cursor moves, and a cursor
// with the tape in it would be handed on with every record. `InLine` is asked where a leg or the
// close may come, which the type of a cursor does not know.
#[derive(Clone, Copy)]
struct Cursor {
    at: usize,
    st: State,
}

impl Cursor {
    // What refuses the record at the cursor.
    fn refused(self, refusal: Refusal) -> Refused
        ensures { result ≡ record { refusal = refusal; place = self.at } }
    {
        Refused {
            refusal,
            place: self.at,
        }
    }

    // Whether the record of a kind at the cursor is whole.
    fn whole(self, tape: &[u8], kind: Kind) -> bool
        requires { self.at ≤ length tape.now }
        ensures { result ≡ ltb (body_of (byte_of kind)) (length tape.now - self.at) }
    {
        kind.body() < tape.len() - self.at
    }

    // The cursor past a record of a kind, in another phase.
    fn past(self, kind: Kind, phase: Phase) -> Cursor
        requires { self.at + (1 + body_of (byte_of kind)) < 18446744073709551616 }
        ensures { result ≡ past self (1 + body_of (byte_of kind)) phase }
    {
        Cursor {
            at: self.at + kind.bytes(),
            st: State { phase, ..self.st },
        }
    }

    // The cursor past a leg.
    fn past_leg(self) -> Cursor
        requires room { self.at + (1 + body_of leg_kind) < 18446744073709551616 }
        requires few { self.st.legs < most_legs }
        ensures { result ≡ cursor (self.at + (1 + body_of leg_kind)) (with_leg self.st) }
    {
        Cursor {
            at: self.at + Kind::Leg.bytes(),
            st: State {
                phase: Phase::AfterLeg,
                legs: self.st.legs + 1,
                ..self.st
            },
        }
    }
}

impl State {
    // Whether one of the rows read so far has a minute: they have the last ones before the next.
    fn has_row(self, minute: u32) -> bool
        ensures { result ≡ (ltb minute self.next && leb (self.next - minute) self.rows) }
    {
        minute < self.next && self.next - minute <= self.rows
    }
}

// ---- places and kinds
// Whether one more of a kind stands at a place, of those that there is room for: they stand before
// the end.
fn more(tape: &[u8], at: usize, kind: Kind, end: usize) -> bool
    requires { end ≤ length tape.now }
    ensures { result ≡ cond (ltb at end) (eqb (get_or tape.now at 0) (byte_of kind)) false }
{
    at < end && tape[at] == kind.byte()
}

// Whether a leg stands at a place.
fn leg_stands(tape: &[u8], at: usize) -> bool
    ensures { result ≡ is_leg (get_or tape.now at 0) }
{
    at < tape.len() && is_leg(tape[at])
}

// That the one kind stands at the cursor that may: at the end of the tape it is cut short, before
// it another record is out of order.
fn due(tape: &[u8], c: Cursor, kind: Kind) -> Result<(), Refused>
    ensures { result ≡ due_of tape.now c.at (byte_of kind) }
{
    if tape.len() <= c.at {
        return Err(c.refused(Refusal::CutShort));
    }
    if tape[c.at] != kind.byte() {
        return Err(c.refused(Refusal::OutOfOrder));
    }
    Ok(())
}

// ---- a record: the cursor after it, or what refuses it
// A row that there is room for.
#[tactic(auto, using(crate::proofs::Laws::row), unfolding(records::specs::Record::body_of))]
fn row(tape: &[u8], c: Cursor) -> Result<Cursor, Refused>
    requires at_value { (get_or tape.now c.at 0 ≡ row_kind)
        × (c.at + (1 + body_of row_kind) ≤ length tape.now) }
    requires phase_value { (c.st.phase ≡ AtRows) × (c.st.rows < most_rows) }
    ensures { Passes tape.now c (past_row tape.now c) result }
{
    let minute = digits::two_at(tape, c.at + 1);
    if !ranges::row_good(minute, digits::four_at(tape, c.at + 3)) {
        return Err(c.refused(Refusal::OutOfRange));
    }
    if c.st.rows != 0 && minute != c.st.next {
        return Err(c.refused(Refusal::BadRows));
    }
    Ok(Cursor {
        at: c.at + Kind::Row.bytes(),
        st: State {
            phase: Phase::AtRows,
            rows: c.st.rows + 1,
            next: minute + 1,
            legs: c.st.legs,
        },
    })
}

// The project, where no row stands.
#[tactic(auto, using(crate::proofs::Laws::project), unfolding(records::specs::Record::body_of))]
fn project(tape: &[u8], c: Cursor) -> Result<Cursor, Refused>
    requires fact { get_or tape.now c.at 0 ≡ row_kind → ⊥ }
    requires phase_value { c.st.phase ≡ AtRows }
    ensures { Passes tape.now c (past c (1 + body_of project_kind) AfterProject) result }
{
    due(tape, c, Kind::Project)?;
    if !c.whole(tape, Kind::Project) {
        return Err(c.refused(Refusal::CutShort));
    }
    let latitude = digits::two_at(tape, c.at + 1);
    if !ranges::project_good(latitude, digits::signed_at(tape, c.at + 3)) {
        return Err(c.refused(Refusal::OutOfRange));
    }
    if !c.st.has_row(latitude) {
        return Err(c.refused(Refusal::NoRow));
    }
    Ok(c.past(Kind::Project, Phase::AfterProject))
}

#[tactic(auto, using(crate::proofs::Laws::start), unfolding(records::specs::Record::body_of))]
fn start(tape: &[u8], c: Cursor) -> Result<Cursor, Refused>
    requires { c.st.phase ≡ AfterProject }
    ensures { Passes tape.now c (past c (1 + body_of start_kind) LineBegun) result }
{
    due(tape, c, Kind::Start)?;
    if !c.whole(tape, Kind::Start) {
        return Err(c.refused(Refusal::CutShort));
    }
    if !ranges::start_good(
        digits::four_at(tape, c.at + 1),
        digits::four_at(tape, c.at + 5),
        digits::four_at(tape, c.at + 9),
    ) {
        return Err(c.refused(Refusal::OutOfRange));
    }
    Ok(c.past(Kind::Start, Phase::LineBegun))
}

// Whether the numbers of the leg at a place, which is whole, are in range.
#[tactic(auto, using(crate::proofs::Laws::leg_good), unfolding(records::specs::Record::body_of))]
fn leg_good(tape: &[u8], at: usize) -> bool
    requires at_value { is_leg (get_or tape.now at 0) ≡ true }
    requires at_in_bounds { body_of (get_or tape.now at 0) < length tape.now - at }
    ensures { result ≡ good_there tape.now at }
{
    ranges::leg_good(digits::four_at(tape, at + 1), digits::four_at(tape, at + 5))
}

// Whether the leg that stands at the cursor passes. The cursor after it is taken by the caller: one
// that came back in the result went through memory from leg to leg, nine instructions for each.
#[tactic(auto, using(crate::proofs::Laws::leg), unfolding(records::specs::Record::body_of))]
fn leg(tape: &[u8], c: Cursor) -> Result<(), Refused>
    requires at_value { is_leg (get_or tape.now c.at 0) ≡ true }
    requires in_line { InLine c.st }
    ensures passes { Passes tape.now c (past_leg tape.now c)
        (passed_to (past_leg tape.now c) result) }
    ensures whole { OnOk result (c.at + (1 + body_of leg_kind) ≤ length tape.now) }
    ensures few { OnOk result (c.st.legs < most_legs) }
{
    if MOST_LEGS <= c.st.legs {
        return Err(c.refused(Refusal::TooManyLegs));
    }
    if !c.whole(tape, Kind::Leg) {
        return Err(c.refused(Refusal::CutShort));
    }
    if !leg_good(tape, c.at) {
        return Err(c.refused(Refusal::OutOfRange));
    }
    Ok(())
}

// The close, where no leg stands. Before the first leg it may not come.
#[tactic(auto, using(crate::proofs::Laws::close), unfolding(records::specs::Record::body_of))]
fn close(tape: &[u8], c: Cursor) -> Result<Cursor, Refused>
    requires at_value { is_leg (get_or tape.now c.at 0) ≡ false }
    requires in_line { InLine c.st }
    ensures { Passes tape.now c (past c (1 + body_of close_kind) Closed) result }
{
    due(tape, c, Kind::Close)?;
    if c.st.phase == Phase::LineBegun {
        return Err(c.refused(Refusal::OutOfOrder));
    }
    if !c.whole(tape, Kind::Close) {
        return Err(c.refused(Refusal::CutShort));
    }
    if !ranges::close_good(
        digits::four_at(tape, c.at + 1),
        digits::four_at(tape, c.at + 5),
        digits::four_at(tape, c.at + 9),
        digits::four_at(tape, c.at + 13),
    ) {
        return Err(c.refused(Refusal::OutOfRange));
    }
    Ok(c.past(Kind::Close, Phase::Closed))
}

// ---- the parts of the tape
// All rows. One after the last that there is room for is cut short where fewer than 600 were read,
// and else one too many.
#[tactic(auto, using(crate::proofs::Laws::rows), unfolding(records::specs::Record::body_of))]
fn rows(tape: &[u8]) -> Result<Cursor, Refused>
    ensures { Rowed tape.now result }
{
    let end = fits_before(tape, Kind::Row).min(MOST_ROWS as usize * Kind::Row.bytes());
    let mut c = Cursor {
        at: 0,
        st: State {
            phase: Phase::AtRows,
            rows: 0,
            next: 0,
            legs: 0,
        },
    };
    while more(tape, c.at, Kind::Row, end) {
        c = row(tape, c)?;
    }
    if !more(tape, c.at, Kind::Row, tape.len()) {
        return Ok(c);
    }
    if c.st.rows < MOST_ROWS {
        return Err(c.refused(Refusal::CutShort));
    }
    Err(c.refused(Refusal::BadRows))
}

// Rows, the project and the start.
fn opening(tape: &[u8]) -> Result<Cursor, Refused>
    ensures { Opened tape.now result }
{
    let c = rows(tape)?;
    let c = project(tape, c)?;
    start(tape, c)
}

// The legs, one after the other.
fn line(tape: &[u8], first: Cursor) -> Result<Cursor, Refused>
    requires { InLine first.st }
    ensures { Walked tape.now first result }
{
    let mut c = first;
    while leg_stands(tape, c.at) {
        leg(tape, c)?;
        c = c.past_leg();
    }
    Ok(c)
}

// The close and the end.
#[tactic(auto, using(crate::proofs::Laws::finish), unfolding(records::specs::Record::body_of))]
fn finish(tape: &[u8], c: Cursor) -> Result<State, Refused>
    requires at_value { is_leg (get_or tape.now c.at 0) ≡ false }
    requires in_line { InLine c.st }
    ensures { result ≡ reading_from tape.now c }
{
    let end = close(tape, c)?;
    if end.at < tape.len() {
        return Err(end.refused(Refusal::OutOfOrder));
    }
    Ok(end.st)
}

// The whole tape: one pass, and nothing is copied.
pub fn read_all(tape: &[u8]) -> Result<State, Refused>
    ensures { result ≡ reading_of tape.now }
{
    let first = opening(tape)?;
    let last = line(tape, first)?;
    finish(tape, last)
}
