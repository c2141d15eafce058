// Field notes: a traverse as lines of text, turned into a tape by the proved writer of records.
// docs/NOTES.md has the form of the text.
#![tactic(auto)]

ghost use Rattle.std.specs.Prelude.{◌≡◌, ◌≤◌, length, take};
ghost use Rattle.notes.specs.Bom.{without_bom};
ghost use Rattle.notes.specs.Noting.{Owed, text_length_of};

use answer::{Refusal, Refused};
use items::kind_of;
use records::Kind;
use words::{Words, after_ends, after_line};

// The bytes that the text of a tape asks for: the longest text has room in them.
pub const TEXT_BYTES: usize = 16_384;

// The word that a line starts with, one for each kind of record.
#[derive(Clone, Copy, Debug, PartialEq, Eq)]
pub enum Word {
    Row,
    Project,
    Start,
    Leg,
    Close,
    // Kept: `message_of` takes any fault, and so one of this word too. It is never answered.
    Other,
}

// A number of a line.
#[derive(Clone, Copy, Debug, PartialEq, Eq)]
pub enum Item {
    LatitudeDegrees,
    LatitudeMinutes,
    Factor,
    Elevation,
    Northing,
    Easting,
    AzimuthDegrees,
    AzimuthMinutes,
    AzimuthSeconds,
    AngleDegrees,
    AngleMinutes,
    AngleSeconds,
    Distance,
}

// What is wrong with a text: the first eight of a line by itself, the others of the tape that the
// lines make.
#[derive(Clone, Copy, Debug, PartialEq, Eq)]
pub enum Fault {
    // Kept: `message_of` takes any fault, and so this one too. It is never answered.
    Nothing,
    UnknownWord,
    Missing(Item),
    NoNumber(Item),
    Decimals(Item),
    Sixty(Item),
    Behind,
    Range(Word),
    Room,
    Order,
    Rows,
    Legs,
    Latitude,
    Ended,
}

// The first fault of a text, and the number of its line, counted from 1; 0 is the end of the text.
#[derive(Clone, Copy, Debug, PartialEq, Eq)]
pub struct Wrong {
    pub line: usize,
    pub fault: Fault,
}

mod back;
mod items;
mod message;
mod number;
mod page;
mod units;
mod words;

// A line that has a word, written as a record: where the next one goes, or what is wrong with the
// line.
fn put_line(words: &mut Words, out: &mut [u8], place: usize) -> Result<usize, Fault> {
    let kind = words.next().and_then(kind_of).ok_or(Fault::UnknownWord)?;
    let record = words.record(kind)?;
    writer::write(out, place, record).map_err(|refused| match refused.refusal {
        Refusal::NoRoom => Fault::Room,
        _ => Fault::Range(Word::of(kind)),
    })
}

// The number of the line in which a part at the end of a text starts, counted from 1.
fn line_at(text: &[u8], part: &[u8]) -> usize {
    let before = &text[..text.len().saturating_sub(part.len())];
    before.iter().filter(|byte| **byte == b'\n').count() + 1
}

// All lines, one record each, but for those that say nothing. Each turn passes a byte or more, so
// that there are turns enough.
fn put_lines(text: &[u8], out: &mut [u8]) -> Result<usize, Wrong> {
    let mut left = text;
    let mut place = 0;
    for _ in 0..text.len() {
        left = match after_ends(left) {
            [] => break,
            [b'#', comment @ ..] => after_line(comment),
            [b'\r', b'\n', after @ ..] => after,
            said => {
                let mut words = Words::of(said);
                place = put_line(&mut words, out, place).map_err(|fault| Wrong {
                    line: line_at(text, said),
                    fault,
                })?;
                words.left()
            }
        };
    }
    Ok(place)
}

// How many bytes of tape the first line of a text becomes.
fn line_bytes(text: &[u8]) -> usize {
    Words::of(text)
        .next()
        .and_then(kind_of)
        .map_or(0, Kind::bytes)
}

// The number of the line whose record starts at a place of the tape, counted from 1; 0 is the end
// of the text.
fn line_of(text: &[u8], place: usize) -> usize {
    let mut left = text;
    let mut bytes_left = place;
    for _ in 0..text.len() {
        left = match after_ends(left) {
            [] => break,
            [b'\r', b'\n', after @ ..] => after,
            said => {
                let bytes = line_bytes(said);
                if bytes_left < bytes {
                    return line_at(text, said);
                }
                bytes_left -= bytes;
                after_line(said)
            }
        };
    }
    0
}

// The text after the byte-order mark that some editors write before it; all of it where there is
// none. `tape_of` takes a mark for a part of the first word: a caller whose text comes from a file
// hands over what is answered here.
pub fn without_bom(text: &[u8]) -> &[u8]
    ensures { result.now ≡ without_bom text.now }
{
    text.strip_prefix(b"\xEF\xBB\xBF").unwrap_or(text)
}

// The tape that a text says, from the first lent byte on, or the first fault. The tape of all lines
// is read as the desk will read it.
pub fn tape_of(text: &[u8], out: &mut [u8]) -> Result<usize, Wrong>
    ensures { Owed result out.new }
{
    let used = put_lines(text, out)?;
    let tape = out.get(..used).ok_or(Wrong {
        line: 0,
        fault: Fault::Room,
    })?;
    match tape::read(tape) {
        Ok(_) => Ok(used),
        Err(refused) => Err(Wrong {
            line: line_of(text, refused.place),
            fault: Fault::of(refused.refusal),
        }),
    }
}

// What a fault says, in words, put from the first lent byte on; 256 bytes are enough. The number of
// bytes is answered.
pub fn message_of(line: usize, fault: Fault, out: &mut [u8]) -> usize
    ensures { result ≤ length out.old }
{
    page::put(out, Wrong { line, fault })
}

// What a refusal says, in words, put from the first lent byte on; 256 bytes are enough. The number
// of bytes is answered.
// Kept: it takes a number, since it answers for one that no refusal has, too.
pub fn refusal_of(number: u32, place: usize, out: &mut [u8]) -> usize
    ensures { result ≤ length out.old }
{
    // a piece by itself, as a refusal is: `Page` leaves out by pieces what has no room
    let unknown = "no refusal of the desk";
    match Refusal::try_from(number) {
        Ok(refusal) => page::put(
            out,
            format_args!("REFUSED {number} at byte {place}: {refusal}"),
        ),
        Err(_) => page::put(
            out,
            format_args!("REFUSED {number} at byte {place}: {unknown}"),
        ),
    }
}

// The text of a tape, from the first lent byte on: a line for each record, with all decimals.
// `tape_of` makes the same tape of it again. It is refused as the tape is, and for its room where
// less than 16,384 bytes are lent, which hold the longest text.
pub fn text_of(tape: &[u8], out: &mut [u8]) -> Result<usize, Refused>
    ensures { text_length_of result ≤ length out.old }
{
    if out.len() < TEXT_BYTES {
        return Err(Refused {
            refusal: Refusal::NoRoom,
            place: 0,
        });
    }
    tape::read(tape)?;
    Ok(back::put_text(tape, out))
}

// The bytes that an answer counts: those at the front of what was lent, all of them where it has no
// more.
pub fn front(room: &[u8], n: usize) -> &[u8]
    ensures { result.now ≡ take n room.now }
{
    room.get(..n).unwrap_or(room)
}
