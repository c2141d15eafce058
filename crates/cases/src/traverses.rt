// D, the desk: how many words are lent (one byte), how many bytes for the sheet (two), and a tape
// after its length. Answered by a line of the traverse and the words that it changed, a line of
// the sheet step, and what the program SHEET prints.
use crate::input::{ROOM_BYTES, WORDS, read_bytes, read_u8, read_u16};
use crate::output::print_refused;
use answer::Refused;
use desk::{Figures, SHEET_BYTES};
use std::io::{self, Read, Write};

// What every lent word holds before: no coordinate is so large.
const KEPT: i64 = 1_000_000_000_000_000_000;

// The most bytes that a case lends for the sheet: more than the sheet step asks for.
const MOST_BYTES: usize = 4_200;

// All words that changed, and where the last of them ends: as many as they are, if they are the
// first ones.
fn print_words(to: &mut impl Write, words: &[i64]) -> io::Result<()> {
    let mut end = 0;
    for (i, word) in words.iter().enumerate() {
        if *word != KEPT {
            write!(to, " {word}")?;
            end = i + 1;
        }
    }
    write!(to, " {end}")
}

// Number, place, n, W, both closures, precision number, doubled area and loop mark: all but the
// first two zero on a refusal.
fn print_answer(to: &mut impl Write, answer: Result<Figures, Refused>) -> io::Result<()> {
    match answer {
        Ok(f) => write!(
            to,
            "0 0 {} {} {} {} {} {} {}",
            f.legs,
            f.w,
            f.north_closure,
            f.east_closure,
            f.precision,
            f.area,
            u8::from(f.looped)
        ),
        Err(refused) => {
            print_refused(to, refused)?;
            write!(to, " 0 0 0 0 0 0 0")
        }
    }
}

fn print_traverse(to: &mut impl Write, tape: &[u8], words: &mut [i64]) -> io::Result<()> {
    print_answer(to, desk::traverse(tape, words))?;
    print_words(to, words)?;
    writeln!(to, "")
}

// Number, place and length of the text; and how many bytes are no longer zero, which no byte of a
// sheet is.
fn print_sheet(to: &mut impl Write, tape: &[u8], out: &mut [u8]) -> io::Result<()> {
    match desk::sheet(tape, out) {
        Ok(n) => write!(to, "0 0 {n}")?,
        Err(refused) => {
            print_refused(to, refused)?;
            write!(to, " 0")?;
        }
    }
    let changed = out.iter().filter(|byte| **byte != 0).count();
    writeln!(to, " {changed}")
}

fn print_program(to: &mut impl Write, tape: &[u8]) -> io::Result<()> {
    let mut out = [0u8; SHEET_BYTES];
    let n = desk::print(tape, &mut out);
    to.write_all(&out[..n])
}

pub fn answer(from: &mut impl Read, to: &mut impl Write) -> io::Result<()> {
    let lent_words = usize::from(read_u8(from)?);
    let lent_bytes = usize::from(read_u16(from)?).min(MOST_BYTES);
    let mut room = [0u8; ROOM_BYTES];
    let tape = read_bytes(from, &mut room)?;
    let mut words = [KEPT; WORDS];
    let mut out = [0u8; MOST_BYTES];
    print_traverse(to, tape, &mut words[..lent_words])?;
    print_sheet(to, tape, &mut out[..lent_bytes])?;
    print_program(to, tape)
}
