// The fields of a tape that reads, taken from where each of them stands.
#![tactic(auto, using(records::proofs::Bodies::tests), unfolding(records::specs::Record::body_of))]

ghost use Rattle.std.specs.Prelude.{◌≡◌, ◌+◌, ◌*◌};
ghost use Rattle.records.specs.Record.{row_kind, body_of};
ghost use Rattle.tape.specs.Fields.{fields_of, control_of, ReadsTo};

use crate::{Control, Point, State, digits};
use records::Kind;

// The place after so many rows.
fn place_after(rows: u32) -> usize
    ensures { result ≡ rows * (1 + body_of row_kind) }
{
    rows as usize * Kind::Row.bytes()
}

// The fields of a tape that reads to the given state. Its rows tell where the project stands, the
// start and the legs follow it, and the close ends the tape, so that no leg is passed over.
#[tactic(auto, using(crate::proofs::Standing::places), unfolding(records::specs::Record::body_of))]
pub fn control(tape: &[u8], last: State) -> Control
    requires { ReadsTo tape.now last }
    ensures { result ≡ control_of (fields_of tape.now) }
{
    let project = place_after(last.rows);
    let start = project + Kind::Project.bytes();
    let line = start + Kind::Start.bytes();
    let close = tape.len() - Kind::Close.bytes();
    let latitude = digits::two_at(tape, project + 1);
    let row = place_after(last.rows - (last.next - latitude));
    Control {
        legs: last.legs as usize,
        line,
        elevation: digits::signed_at(tape, project + 3),
        scale: digits::four_at(tape, row + 3),
        from: Point {
            north: digits::four_at(tape, start + 1),
            east: digits::four_at(tape, start + 5),
        },
        mark: digits::four_at(tape, start + 9),
        to: Point {
            north: digits::four_at(tape, close + 5),
            east: digits::four_at(tape, close + 9),
        },
        given: digits::four_at(tape, close + 13),
        place: close,
    }
}
