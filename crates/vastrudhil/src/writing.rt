// The writer of one record, a function for each kind: its room is tested, then its fields, at any
// place of the lent bytes.
ghost use Rattle.records.specs.declared.Record.TheVariants.{Row, Project, Start, Leg, Close};
ghost use Rattle.vastrudhil.specs.Face.{WritesRecord};

use crate::tell;
use records::Record;
use whole::Whole;

// A row of the zone table.
#[unsafe(no_mangle)]
pub extern "C" fn vas_write_row(
    out: &mut [u8],
    at: usize,
    minute: u32,
    factor: u32,
    place: &mut usize,
    next: &mut usize,
) -> u32
    ensures { WritesRecord (Row minute factor) out.old at out.new
        place.new next.new result }
{
    tell::written(
        writer::write(out, at, Record::Row { minute, factor }),
        place,
        next,
    )
}

// The project: its mean latitude and its mean elevation.
#[unsafe(no_mangle)]
pub extern "C" fn vas_write_project(
    out: &mut [u8],
    at: usize,
    latitude: u32,
    elevation: i64,
    place: &mut usize,
    next: &mut usize,
) -> u32
    ensures { WritesRecord (Project latitude (record { v = elevation }))
        out.old at out.new
        place.new next.new result }
{
    tell::written(
        writer::write(
            out,
            at,
            Record::Project {
                latitude,
                elevation: Whole { v: elevation },
            },
        ),
        place,
        next,
    )
}

// The start: a fixed point, and the azimuth to the mark.
#[unsafe(no_mangle)]
pub extern "C" fn vas_write_start(
    out: &mut [u8],
    at: usize,
    northing: u32,
    easting: u32,
    mark: u32,
    place: &mut usize,
    next: &mut usize,
) -> u32
    ensures { WritesRecord (Start northing easting mark) out.old at
        out.new place.new next.new result }
{
    tell::written(
        writer::write(
            out,
            at,
            Record::Start {
                northing,
                easting,
                mark,
            },
        ),
        place,
        next,
    )
}

// A leg.
#[unsafe(no_mangle)]
pub extern "C" fn vas_write_leg(
    out: &mut [u8],
    at: usize,
    angle: u32,
    distance: u32,
    place: &mut usize,
    next: &mut usize,
) -> u32
    ensures { WritesRecord (Leg angle distance) out.old at out.new
        place.new next.new result }
{
    tell::written(
        writer::write(out, at, Record::Leg { angle, distance }),
        place,
        next,
    )
}

// The close: the closing angle, the fixed end, and the given azimuth.
#[unsafe(no_mangle)]
pub extern "C" fn vas_write_close(
    out: &mut [u8],
    at: usize,
    angle: u32,
    northing: u32,
    easting: u32,
    mark: u32,
    place: &mut usize,
    next: &mut usize,
) -> u32
    ensures { WritesRecord (Close angle northing easting mark)
        out.old at out.new
        place.new next.new result }
{
    tell::written(
        writer::write(
            out,
            at,
            Record::Close {
                angle,
                northing,
                easting,
                mark,
            },
        ),
        place,
        next,
    )
}
