// A tape on standard input, its field notes on standard output; a refused tape is one line on
// standard error, and then nothing is written as notes. The exit status says nothing of the tape:
// callers go by what is written. A read or a write that fails ends the program with an error.
#![tactic(auto)]

use answer::Refused;
use std::io::{self, Write};

// What is lent for the tape, and for its notes or the line of a refusal.
const ROOM_BYTES: usize = 65_536;

// The line of a refusal, put into lent bytes and written from there.
fn tell(refused: Refused, room: &mut [u8], err: &mut impl Write) -> io::Result<()> {
    let n = notes::refusal_of(refused.refusal.number(), refused.place, room);
    err.write_all(&room[..n])?;
    err.write_all(b"\n")
}

// A tape longer than the room is refused within it: the longest that reads has 4,811 bytes.
fn main(rt: HostRuntime) -> io::Result<()> {
    let mut tape = [0u8; ROOM_BYTES];
    let mut out = [0u8; ROOM_BYTES];
    let n = intake::read_full(&mut rt.stdin(), &mut tape)?;
    match notes::text_of(&tape[..n], &mut out) {
        Ok(n) => rt.stdout().write_all(&out[..n]),
        Err(refused) => tell(refused, &mut out, &mut rt.stderr()),
    }
}
