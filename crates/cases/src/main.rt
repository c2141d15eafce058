// Reads a bundle of cases on standard input and prints all that is answered to each, for
// comparison: the expected output is made by the second program, which is written from the rules
// alone. A case is a letter, which says its subject, and what the subject's module reads. A read or
// a write that fails ends the program with an error.
#![tactic(auto)]

mod angles;
mod calls;
mod field_notes;
mod input;
mod output;
mod reading;
mod traverses;

use std::io::{self, Read, Write};

// One case of the bundle; false at its end, and where the letter says no subject.
// Kept: each arm is another subject, as in `calls`. Reader and writer stand by themselves: a struct
// of both would carry both their types into every function.
fn one_case(from: &mut impl Read, to: &mut impl Write) -> io::Result<bool> {
    match input::read_u8(from)? {
        b'T' => reading::answer(from, to)?,
        b'N' => field_notes::answer(from, to)?,
        b'D' => traverses::answer(from, to)?,
        b'S' => calls::answer(from, to)?,
        b'A' => angles::answer(from, to)?,
        _ => return Ok(false),
    }
    Ok(true)
}

// A proved loop has to end: the turns count up to a number that no bundle uses up.
fn main(rt: HostRuntime) -> io::Result<()> {
    let mut from = rt.stdin();
    let mut to = rt.stdout();
    for _ in 0..u64::MAX {
        if !one_case(&mut from, &mut to)? {
            break;
        }
    }
    Ok(())
}
