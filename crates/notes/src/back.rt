// A tape as text: a line for each record, with all decimals. The tape is one that reads, so each
// record is whole and its fields are in range.
ghost use Rattle.std.specs.Prelude.{◌<◌, ◌≤◌, length};
ghost use Rattle.std.specs.Iterator.{at_most};

use crate::page::Page;
use crate::units::{
    COORDINATE_DECIMALS, COORDINATE_UNITS, DISTANCE_DECIMALS, DISTANCE_UNITS, FACTOR_DECIMALS,
    FACTOR_UNITS, MINUTES_IN_DEGREE, SECONDS_DECIMALS, TENTHS_IN_DEGREE, TENTHS_IN_MINUTE,
    TENTHS_IN_SECOND,
};
use records::{Kind, Record};
use whole::Whole;

// The records that are left of a tape.
#[derive(Drop)]
struct Records<'a> {
    left: &'a [u8],
}

impl Records<'_> {
    // The bytes of the next field.
    fn field<const N: usize>(&mut self) -> Option<[u8; N]>
        ensures { length self.new.left.now ≤ length self.old.left.now }
    {
        let (bytes, left) = self.left.split_first_chunk()?;
        self.left = left;
        Some(*bytes)
    }

    fn number(&mut self) -> Option<u32>
        ensures { length self.new.left.now ≤ length self.old.left.now }
    {
        self.field().map(u32::from_be_bytes)
    }

    fn minute(&mut self) -> Option<u32>
        ensures { length self.new.left.now ≤ length self.old.left.now }
    {
        self.field()
            .map(|bytes| u32::from(u16::from_be_bytes(bytes)))
    }

    // The elevation is written as two's complement, in two bytes.
    fn elevation(&mut self) -> Option<Whole>
        ensures { length self.new.left.now ≤ length self.old.left.now }
    {
        self.field().map(|bytes| Whole {
            v: i64::from(i16::from_be_bytes(bytes)),
        })
    }
}

impl Iterator for Records<'_> {
    type Item = Record;

    ghost remaining = { λ s. at_most (length s.left.now) };

    fn next(&mut self) -> Option<Record> {
        let (kind, body) = self.left.split_first()?;
        self.left = body;
        Some(match Kind::try_from(*kind).ok()? {
            Kind::Row => Record::Row {
                minute: self.minute()?,
                factor: self.number()?,
            },
            Kind::Project => Record::Project {
                latitude: self.minute()?,
                elevation: self.elevation()?,
            },
            Kind::Start => Record::Start {
                northing: self.number()?,
                easting: self.number()?,
                mark: self.number()?,
            },
            Kind::Leg => Record::Leg {
                angle: self.number()?,
                distance: self.number()?,
            },
            Kind::Close => Record::Close {
                angle: self.number()?,
                northing: self.number()?,
                easting: self.number()?,
                mark: self.number()?,
            },
        })
    }
}

// A latitude in minutes, as degrees and minutes.
#[derive(Clone, Copy)]
struct Latitude(u32);

impl Latitude {
    fn put(self, page: &mut Page<'_>) {
        page.bytes(b" ");
        page.number(u64::from(self.0 / MINUTES_IN_DEGREE));
        page.bytes(b" ");
        page.padded(self.0 % MINUTES_IN_DEGREE, 2);
    }
}

// An angle or an azimuth in tenths of a second, as degrees, minutes and seconds.
#[derive(Clone, Copy)]
struct Circle(u32);

impl Circle {
    fn put(self, page: &mut Page<'_>) {
        page.bytes(b" ");
        page.number(u64::from(self.0 / TENTHS_IN_DEGREE));
        page.bytes(b" ");
        page.padded(self.0 % TENTHS_IN_DEGREE / TENTHS_IN_MINUTE, 2);
        page.bytes(b" ");
        page.padded(self.0 % TENTHS_IN_MINUTE / TENTHS_IN_SECOND, 2);
        page.bytes(b".");
        page.padded(self.0 % TENTHS_IN_SECOND, SECONDS_DECIMALS);
    }
}

// A number in units of its last decimal, of which `WHOLE` make a whole one, with all its decimals.
#[derive(Clone, Copy)]
struct Decimal<const WHOLE: u32, const DECIMALS: usize> {
    value: u32,
    ghost whole: { 0 < WHOLE },
}

impl<const WHOLE: u32, const DECIMALS: usize> Decimal<WHOLE, DECIMALS> {
    fn put(self, page: &mut Page<'_>) {
        page.bytes(b" ");
        page.number(u64::from(self.value / WHOLE));
        page.bytes(b".");
        page.padded(self.value, DECIMALS);
    }
}

type Factor = Decimal<FACTOR_UNITS, FACTOR_DECIMALS>;

type Coordinate = Decimal<COORDINATE_UNITS, COORDINATE_DECIMALS>;

type Distance = Decimal<DISTANCE_UNITS, DISTANCE_DECIMALS>;

// A mean elevation in feet.
fn put_elevation(page: &mut Page<'_>, elevation: Whole) {
    if elevation.below_zero() {
        page.bytes(b" -");
    } else {
        page.bytes(b" ");
    }
    page.number(elevation.size());
}

// The line of a record.
fn put_line(page: &mut Page<'_>, record: Record) {
    match record {
        Record::Row { minute, factor } => {
            page.bytes(b"row");
            Latitude(minute).put(page);
            Factor { value: factor }.put(page);
        }
        Record::Project {
            latitude,
            elevation,
        } => {
            page.bytes(b"project");
            Latitude(latitude).put(page);
            put_elevation(page, elevation);
        }
        Record::Start {
            northing,
            easting,
            mark,
        } => {
            page.bytes(b"start");
            Coordinate { value: northing }.put(page);
            Coordinate { value: easting }.put(page);
            Circle(mark).put(page);
        }
        Record::Leg { angle, distance } => {
            page.bytes(b"leg");
            Circle(angle).put(page);
            Distance { value: distance }.put(page);
        }
        Record::Close {
            angle,
            northing,
            easting,
            mark,
        } => {
            page.bytes(b"close");
            Circle(angle).put(page);
            Coordinate { value: northing }.put(page);
            Coordinate { value: easting }.put(page);
            Circle(mark).put(page);
        }
    }
    page.bytes(b"\n");
}

// The text of a tape, put into lent bytes from the first on: how many bytes it takes.
//
// Kept: put by `text`, and not by a Display, by which the longest tape took 2.9 times as long.
pub fn put_text(tape: &[u8], out: &mut [u8]) -> usize
    ensures { result ≤ length out.old }
{
    let size = out.len();
    let mut page = Page::of(out);
    for record in (Records { left: tape }) {
        put_line(&mut page, record);
    }
    page.used().min(size)
}
