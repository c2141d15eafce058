// Field notes on standard input, their tape on standard output; a fault is one line on standard
// error, and then nothing is written as a tape. A byte-order mark before the notes is passed over.
// The exit status says nothing of the notes: callers go by what is written. A read or a write that
// fails ends the program with an error.
#![tactic(auto)]

use notes::Wrong;
use std::io::{self, Write};

// What is lent for the text, and for the tape or the line of a fault.
const ROOM_BYTES: usize = 65_536;

// The line of a fault, put into lent bytes and written from there: in one piece, so that no other
// program's text comes between its words.
fn tell(wrong: Wrong, room: &mut [u8], err: &mut impl Write) -> io::Result<()> {
    let n = notes::message_of(wrong.line, wrong.fault, room);
    err.write_all(&room[..n])?;
    err.write_all(b"\n")
}

// A text that fills the room may go on after it. Nobody needs one: the longest traverse takes
// 13,800 bytes, comments apart.
fn main(rt: HostRuntime) -> io::Result<()> {
    let mut room = [0u8; ROOM_BYTES];
    let mut out = [0u8; ROOM_BYTES];
    let n = intake::read_full(&mut rt.stdin(), &mut room)?;
    if n == room.len() {
        return rt
            .stderr()
            .write_all(b"the text is longer than 65,535 bytes\n");
    }
    let text = notes::without_bom(&room[..n]);
    match notes::tape_of(text, &mut out) {
        Ok(n) => rt.stdout().write_all(&out[..n]),
        Err(wrong) => tell(wrong, &mut out, &mut rt.stderr()),
    }
}
