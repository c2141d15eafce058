// N, field notes: a text after its length. Answered by its tape in hexadecimal digits, the tape's
// own text, whether the two texts are the same, and what is said where one byte less is lent than
// the tape takes; or by what is wrong with the text. What is expected is made from docs/NOTES.md.
use crate::input::{ROOM_BYTES, read_bytes};
use crate::output::print_refused;
use notes::Wrong;
use std::io::{self, Read, Write};

fn print_hex(to: &mut impl Write, bytes: &[u8]) -> io::Result<()> {
    for byte in bytes {
        write!(to, "{byte:02x}")?;
    }
    writeln!(to, "")
}

fn print_wrong(to: &mut impl Write, wrong: Wrong, room: &mut [u8]) -> io::Result<()> {
    let n = notes::message_of(wrong.line, wrong.fault, room);
    to.write_all(&room[..n])?;
    to.write_all(b"\n")
}

// A tape that reads has a text: another answer shows as a difference.
fn print_back(to: &mut impl Write, text: &[u8], tape: &[u8], room: &mut [u8]) -> io::Result<()> {
    match notes::text_of(tape, room) {
        Ok(n) => {
            let back = &room[..n];
            to.write_all(back)?;
            let same = if text == back { "unchanged" } else { "changed" };
            writeln!(to, "{same}")
        }
        Err(refused) => print_refused(to, refused),
    }
}

// A text again, with too little room: a tape would show as a difference.
fn print_short(
    to: &mut impl Write,
    text: &[u8],
    out: &mut [u8],
    room: &mut [u8],
) -> io::Result<()> {
    match notes::tape_of(text, out) {
        Ok(_) => writeln!(to, "room"),
        Err(wrong) => print_wrong(to, wrong, room),
    }
}

pub fn answer(from: &mut impl Read, to: &mut impl Write) -> io::Result<()> {
    let mut bytes = [0u8; ROOM_BYTES];
    let text = read_bytes(from, &mut bytes)?;
    let mut out = [0u8; ROOM_BYTES];
    let mut room = [0u8; ROOM_BYTES];
    match notes::tape_of(text, &mut out) {
        Ok(n) => {
            print_hex(to, &out[..n])?;
            print_back(to, text, &out[..n], &mut room)?;
            if n == 0 {
                return Ok(());
            }
            print_short(to, text, &mut out[..n - 1], &mut room)
        }
        Err(wrong) => print_wrong(to, wrong, &mut room),
    }
}
