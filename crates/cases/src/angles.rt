// A, an angle of four bytes: answered by its sine and its cosine, a line each, and both again with
// the library's table lent.
use crate::input::read_u32;
use crate::output::tell;
use std::io::{self, Read, Write};

pub fn answer(from: &mut impl Read, to: &mut impl Write) -> io::Result<()> {
    let angle = read_u32(from)?;
    let own = minutes::own();
    tell(to, sines::sine(angle))?;
    tell(to, sines::cosine(angle))?;
    tell(to, sines::sine_in(own, angle))?;
    tell(to, sines::cosine_in(own, angle))
}
