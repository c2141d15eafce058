// A text as lines, a line as words, and the fields of a line, read one after the other: the first
// fault ends the reading, and nothing after it is looked at.
ghost use Rattle.std.specs.Prelude.{◌≤◌, length};

use crate::number::number_of;
use crate::units::{MINUTES_IN_DEGREE, TENTHS_IN_DEGREE, TENTHS_IN_MINUTE};
use crate::{Fault, Item};
use records::{Kind, Record};
use whole::Whole;

// What is left to read of a text: of the line under way, and the lines after it. The end of a line
// is found when it is come to.
#[derive(Drop)]
pub struct Words<'a> {
    left: &'a [u8],
}

fn is_blank(byte: &u8) -> bool {
    matches!(byte, b' ' | b'\t')
}

// What follows the blanks at the front of a text.
fn after_blanks(text: &[u8]) -> &[u8] {
    let from = text
        .iter()
        .position(|byte| !is_blank(byte))
        .unwrap_or(text.len());
    &text[from..]
}

// Whether a line says nothing more: there it ends, with LF, with CR LF or with the text, or a
// comment starts.
fn is_over(left: &[u8]) -> bool {
    match left {
        [] | [b'\n' | b'#', ..] => true,
        [b'\r', after @ ..] => after.first() == Some(&b'\n'),
        _ => false,
    }
}

// What follows the first line of a text. That a line is no longer than its text is not known here.
pub fn after_line(text: &[u8]) -> &[u8] {
    let mut lines = text.split_inclusive(|byte| *byte == b'\n');
    let line = lines.next().unwrap_or(text);
    &text[line.len().min(text.len())..]
}

// What follows the blanks and the LFs at the front of a text.
pub fn after_ends(text: &[u8]) -> &[u8] {
    let from = text
        .iter()
        .position(|byte| !matches!(byte, b' ' | b'\t' | b'\n'))
        .unwrap_or(text.len());
    &text[from..]
}

// How long the word at the front of a text is: 0 where the line says nothing more. A CR before the
// LF of a line's end is no part of it.
fn word_length(text: &[u8]) -> usize
    ensures { result ≤ length text.now }
{
    let end = text
        .iter()
        .position(|byte| is_blank(byte) || matches!(byte, b'\n' | b'#'))
        .unwrap_or(text.len());
    match &text[..end] {
        [.., b'\r'] if text.get(end) == Some(&b'\n') => end - 1,
        _ => end,
    }
}

impl<'a> Iterator for Words<'a> {
    type Item = &'a [u8];

    fn next(&mut self) -> Option<&'a [u8]> {
        let said = after_blanks(self.left);
        let (word, left) = said.split_at(word_length(said));
        if word.is_empty() {
            return None;
        }
        self.left = left;
        Some(word)
    }
}

impl<'a> Words<'a> {
    // The words of a text's first line.
    pub fn of(text: &'a [u8]) -> Words<'a> {
        Words { left: text }
    }

    // What of the text is not read.
    pub fn left(&self) -> &'a [u8] {
        self.left
    }

    // The next number, of an item that has no sign.
    fn item(&mut self, item: Item) -> Result<u32, Fault> {
        let word = self.next().ok_or(Fault::Missing(item))?;
        item.limited(number_of(word, item)?)
    }

    // Degrees and minutes, in minutes.
    fn latitude(&mut self) -> Result<u32, Fault> {
        let degrees = self.item(Item::LatitudeDegrees)?;
        let minutes = self.item(Item::LatitudeMinutes)?;
        Ok(
            degrees
                .saturating_mul(MINUTES_IN_DEGREE)
                .saturating_add(minutes),
        )
    }

    // Degrees, minutes and seconds, in tenths of a second.
    fn circle(&mut self, degrees: Item, minutes: Item, seconds: Item) -> Result<u32, Fault> {
        let degrees = self.item(degrees)?;
        let minutes = self.item(minutes)?;
        let seconds = self.item(seconds)?;
        Ok(
            degrees
                .saturating_mul(TENTHS_IN_DEGREE)
                .saturating_add(minutes.saturating_mul(TENTHS_IN_MINUTE))
                .saturating_add(seconds),
        )
    }

    fn azimuth(&mut self) -> Result<u32, Fault> {
        self.circle(
            Item::AzimuthDegrees,
            Item::AzimuthMinutes,
            Item::AzimuthSeconds,
        )
    }

    fn angle(&mut self) -> Result<u32, Fault> {
        self.circle(Item::AngleDegrees, Item::AngleMinutes, Item::AngleSeconds)
    }

    // The one number that may have a minus before it.
    fn elevation(&mut self) -> Result<Whole, Fault> {
        let word = self.next().ok_or(Fault::Missing(Item::Elevation))?;
        match word.strip_prefix(b"-") {
            Some(size) => Ok(Whole::from(number_of(size, Item::Elevation)?).opposite()),
            None => Ok(Whole::from(number_of(word, Item::Elevation)?)),
        }
    }

    // The record that these words say, with nothing behind it.
    pub fn record(&mut self, kind: Kind) -> Result<Record, Fault> {
        let record = match kind {
            Kind::Row => Record::Row {
                minute: self.latitude()?,
                factor: self.item(Item::Factor)?,
            },
            Kind::Project => Record::Project {
                latitude: self.latitude()?,
                elevation: self.elevation()?,
            },
            Kind::Start => Record::Start {
                northing: self.item(Item::Northing)?,
                easting: self.item(Item::Easting)?,
                mark: self.azimuth()?,
            },
            Kind::Leg => Record::Leg {
                angle: self.angle()?,
                distance: self.item(Item::Distance)?,
            },
            Kind::Close => Record::Close {
                angle: self.angle()?,
                northing: self.item(Item::Northing)?,
                easting: self.item(Item::Easting)?,
                mark: self.azimuth()?,
            },
        };
        if is_over(after_blanks(self.left)) {
            Ok(record)
        } else {
            Err(Fault::Behind)
        }
    }
}
