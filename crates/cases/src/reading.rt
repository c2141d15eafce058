// T, the reading of a tape: a tape after its length. Answered by number and place.
use crate::input::{ROOM_BYTES, read_bytes};
use crate::output::print_refused;
use std::io::{self, Read, Write};

pub fn answer(from: &mut impl Read, to: &mut impl Write) -> io::Result<()> {
    let mut room = [0u8; ROOM_BYTES];
    match tape::read(read_bytes(from, &mut room)?) {
        Ok(_) => write!(to, "0 0")?,
        Err(refused) => print_refused(to, refused)?,
    }
    writeln!(to, "")
}
