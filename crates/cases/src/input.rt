// What a bundle consists of: numbers, high byte first, and bytes after their length. After its
// end all are 0, or no bytes. A read that fails is an error, and ends the program.
use intake::read_full;
use std::io::{self, Read};
use whole::Whole;

// As many words as a case may lend: a count of one byte is below this.
pub const WORDS: usize = 256;

// As many bytes as a case may hold: a length of two bytes is below this.
pub const ROOM_BYTES: usize = 65_536;

fn next<const N: usize>(from: &mut impl Read) -> io::Result<[u8; N]> {
    let mut bytes = [0u8; N];
    read_full(from, &mut bytes)?;
    Ok(bytes)
}

pub fn read_u8(from: &mut impl Read) -> io::Result<u8> {
    Ok(u8::from_be_bytes(next(from)?))
}

pub fn read_u16(from: &mut impl Read) -> io::Result<u16> {
    Ok(u16::from_be_bytes(next(from)?))
}

pub fn read_u32(from: &mut impl Read) -> io::Result<u32> {
    Ok(u32::from_be_bytes(next(from)?))
}

pub fn read_u64(from: &mut impl Read) -> io::Result<u64> {
    Ok(u64::from_be_bytes(next(from)?))
}

pub fn read_i64(from: &mut impl Read) -> io::Result<i64> {
    Ok(i64::from_be_bytes(next(from)?))
}

pub fn read_whole(from: &mut impl Read) -> io::Result<Whole> {
    Ok(Whole { v: read_i64(from)? })
}

// A length in two bytes and as many bytes after it, or those that there are.
pub fn read_bytes<'a>(
    from: &mut impl Read,
    room: &'a mut [u8; ROOM_BYTES],
) -> io::Result<&'a [u8]> {
    let length = usize::from(read_u16(from)?);
    let n = read_full(from, &mut room[..length])?;
    Ok(&room[..n])
}
