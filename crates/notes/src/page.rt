// Text put into lent bytes, from the first on.
ghost use Rattle.std.specs.Prelude.{◌≤◌, length};

use std::fmt::{self, Write};

// Lent bytes, as a writer sees them: what is written ends at `at`. What has no room is left out,
// and never put in part.
#[derive(Drop)]
pub struct Page<'a> {
    room: &'a mut [u8],
    at: usize,
    ghost within: { at ≤ length room.now },
}

// The digits of the largest u64.
const MOST_DIGITS: usize = 20;

// The room that a piece of text asks for. A number is put where the largest has room: of all pieces
// only numbers begin with a digit.
fn room_for(piece: &str) -> usize
    ensures { length piece.now ≤ result }
{
    match piece.as_bytes() {
        [b'0'..=b'9', ..] => piece.len().max(MOST_DIGITS),
        _ => piece.len(),
    }
}

impl<'a> Page<'a> {
    pub fn of(room: &'a mut [u8]) -> Page<'a> {
        Page { room, at: 0 }
    }

    // How many bytes are put.
    pub fn used(&self) -> usize {
        self.at
    }

    pub fn bytes(&mut self, what: &[u8]) {
        if what.len() <= self.room.len() - self.at {
            self.at = text::put(self.room, self.at, what);
        }
    }

    // A number with all its digits; it is put where the largest has room.
    #[tactic(auto, using(text::proofs::Lengths::decimal_fits))]
    pub fn number(&mut self, value: u64) {
        if MOST_DIGITS <= self.room.len() - self.at {
            self.at = text::put_decimal(self.room, self.at, value);
        }
    }

    // The last `count` digits of a value, with zeros in front.
    #[tactic(auto, using(text::proofs::Lengths::digits_fit))]
    pub fn padded(&mut self, value: u32, count: usize) {
        if count <= self.room.len() - self.at {
            self.at = text::put_digits(self.room, self.at, u64::from(value), count);
        }
    }
}

impl fmt::Write for Page<'_> {
    fn write_str(&mut self, s: &str) -> fmt::Result {
        if room_for(s) <= self.room.len() - self.at {
            self.bytes(s.as_bytes());
        }
        Ok(())
    }
}

// The pieces of a text that have room: how many bytes they take.
pub fn put<T: fmt::Display + Drop>(out: &mut [u8], text: T) -> usize
    ensures { result ≤ length out.old }
{
    let size = out.len();
    let mut page = Page::of(out);
    let _ = write!(page, "{text}");
    page.at.min(size)
}
