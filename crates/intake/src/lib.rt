// Reading of an input to its end, or until the lent room is full. Nothing here is of tapes: it is a
// tool of the programs, and asks for nothing.
#![tactic(auto)]

ghost use Rattle.std.specs.Prelude.{◌<◌, IfOk, length, take};
ghost use Rattle.std.specs.Io.{ReadsAtMost};
ghost use Rattle.std.specs.Io.KnownBytes.{Consumes, IsAtEnd};

use std::io::{self, Read};

// Reads until the room is full or the input ends, and answers how many bytes stand at its front:
// those that were next in the input.
// Kept: std reads in full into a Vec alone (`read_to_end`), or only where the input has as many
// bytes as are lent (`read_exact`).
pub fn read_full<R: Read>(from: &mut R, room: &mut [u8]) -> io::Result<usize>
    ensures count { ReadsAtMost result room.new }
    ensures bytes { IfOk result (λ n.
        Consumes (R.remaining from.old) (R.remaining from.new) (take n room.new)) }
    ensures end { IfOk result (λ n. n < length room.new → IsAtEnd (R.remaining from.new)) }
{
    let mut done = 0;
    while done < room.len() {
        match from.read(&mut room[done..])? {
            0 => break,
            n => done += n,
        }
    }
    Ok(done)
}
