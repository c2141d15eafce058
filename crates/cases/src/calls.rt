// S, a call of an arithmetic step: the step's number (one byte) and its arguments (eight bytes
// each, angles four; before the offsets of the doubled area stands their count, one byte). Answered
// by number, place and value.
use crate::input::{WORDS, read_i64, read_u8, read_u32, read_u64, read_whole};
use crate::output::tell;
use std::io::{self, Read, Write};
use steps::{area, azimuth, closure, course, distance, share};

fn tell_area(from: &mut impl Read, to: &mut impl Write) -> io::Result<()> {
    let mut words = [0i64; WORDS];
    let count = usize::from(read_u8(from)?);
    let offsets = &mut words[..count];
    for offset in offsets.iter_mut() {
        *offset = read_i64(from)?;
    }
    tell(to, area::doubled_area(offsets))
}

// Kept: each arm reads arguments of its own; a table of functions would be one of pointers, and no
// plainer.
pub fn answer(from: &mut impl Read, to: &mut impl Write) -> io::Result<()> {
    match read_u8(from)? {
        1 => tell(to, distance::sea_level(read_whole(from)?)),
        2 => tell(to, distance::combine(read_u64(from)?, read_u64(from)?)),
        3 => tell(to, distance::grid(read_u64(from)?, read_u64(from)?)),
        4 => tell(to, azimuth::from_mark(read_u32(from)?, read_u32(from)?)),
        5 => tell(to, azimuth::onward(read_u32(from)?, read_u32(from)?)),
        6 => tell(to, azimuth::misclosure(read_u32(from)?, read_u32(from)?)),
        7 => tell(
            to,
            azimuth::closes_angles(read_whole(from)?, read_u64(from)?).map(u8::from),
        ),
        8 => tell(to, azimuth::balanced(read_u32(from)?, read_whole(from)?)),
        9 => tell(
            to,
            share::share(read_whole(from)?, read_u64(from)?, read_u64(from)?),
        ),
        10 => tell(
            to,
            share::angle_share(read_whole(from)?, read_u64(from)?, read_u64(from)?),
        ),
        11 => tell(to, course::latitude(read_u64(from)?, read_u32(from)?)),
        12 => tell(to, course::departure(read_u64(from)?, read_u32(from)?)),
        13 => tell(
            to,
            closure::closes(read_whole(from)?, read_whole(from)?, read_u64(from)?).map(u8::from),
        ),
        14 => tell(
            to,
            closure::precision(read_whole(from)?, read_whole(from)?, read_u64(from)?),
        ),
        15 => tell_area(from, to),
        // latitude and departure with the library's table lent
        16 => tell(
            to,
            course::latitude_in(minutes::own(), read_u64(from)?, read_u32(from)?),
        ),
        17 => tell(
            to,
            course::departure_in(minutes::own(), read_u64(from)?, read_u32(from)?),
        ),
        _ => Ok(()),
    }
}
