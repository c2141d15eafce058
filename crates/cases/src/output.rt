// What is answered, as text: number and place, and then the values.
use answer::{OutOfRange, Refusal, Refused};
use std::fmt::Display;
use std::io::{self, Write};

// What a step answers, as a line.
pub fn tell<A: Display + Drop>(
    to: &mut impl Write,
    answer: Result<A, OutOfRange>,
) -> io::Result<()> {
    match answer {
        Ok(value) => writeln!(to, "0 0 {value}"),
        Err(OutOfRange) => writeln!(to, "{} 0 0", Refusal::OutOfRange.number()),
    }
}

pub fn print_refused(to: &mut impl Write, refused: Refused) -> io::Result<()> {
    write!(to, "{} {}", refused.refusal.number(), refused.place)
}
