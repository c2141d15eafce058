// The arithmetic steps. A refusal is always 4, at place 0.
ghost use Rattle.minutes.specs.Entry.{Table, entry};
ghost use Rattle.sines.specs.Sine.{entry_in, sine_by, cosine_by, of_angle};
ghost use Rattle.steps.specs.Area.{area_step};
ghost use Rattle.steps.specs.Azimuth.{from_mark_step, onward_step, misclosure_step};
ghost use Rattle.steps.specs.Azimuth.{misclosure_test, balanced_step};
ghost use Rattle.steps.specs.Closure.{closure_test, precision_step};
ghost use Rattle.steps.specs.Course.{north as Course·north, east as Course·east, course_step};
ghost use Rattle.steps.specs.Distance.{sea_level_step, combine_step, grid_step};
ghost use Rattle.steps.specs.Share.{share_step, angle_share_step};
ghost use Rattle.vastrudhil.specs.Face.{TellsAmount, TellsCount, TellsVerdict};

use crate::tell;
use minutes::ENTRIES;
use whole::Whole;

// ---- distances
// The sea level factor of a mean elevation.
#[unsafe(no_mangle)]
pub extern "C" fn vas_sea_level(elevation: i64, value: &mut u64) -> u32
    ensures { TellsCount (sea_level_step elevation) value.new result }
{
    tell::step(steps::distance::sea_level(Whole { v: elevation }), value)
}

// The combined factor of a sea level factor and a scale factor, the product of the two.
#[unsafe(no_mangle)]
pub extern "C" fn vas_combine(sea: u64, scale: u64, value: &mut u64) -> u32
    ensures { TellsCount (combine_step sea scale) value.new result }
{
    tell::step(steps::distance::combine(sea, scale), value)
}

// The grid distance of a measured one.
#[unsafe(no_mangle)]
pub extern "C" fn vas_grid(distance: u64, factor: u64, value: &mut u64) -> u32
    ensures { TellsCount (grid_step distance factor) value.new result }
{
    tell::step(steps::distance::grid(distance, factor), value)
}

// ---- sines
// The desk's own table, written into the caller's.
#[unsafe(no_mangle)]
pub extern "C" fn vas_table(table: &mut [u32; ENTRIES])
    ensures { Table table.new }
{
    *table = minutes::table();
}

// The sine and the cosine of an angle.
#[unsafe(no_mangle)]
pub extern "C" fn vas_sine(angle: u32, value: &mut i64) -> u32
    ensures { TellsAmount (of_angle angle (sine_by entry angle)) value.new result }
{
    tell::amount(sines::sine(angle), value)
}

#[unsafe(no_mangle)]
pub extern "C" fn vas_cosine(angle: u32, value: &mut i64) -> u32
    ensures { TellsAmount (of_angle angle (cosine_by entry angle)) value.new result }
{
    tell::amount(sines::cosine(angle), value)
}

// The sine and the cosine of an angle in a lent table, whatever it holds.
#[unsafe(no_mangle)]
pub extern "C" fn vas_sine_in(table: &[u32; ENTRIES], angle: u32, value: &mut i64) -> u32
    ensures { TellsAmount (of_angle angle (sine_by (entry_in table.now) angle))
        value.new result }
{
    tell::amount(sines::sine_in(table, angle), value)
}

#[unsafe(no_mangle)]
pub extern "C" fn vas_cosine_in(table: &[u32; ENTRIES], angle: u32, value: &mut i64) -> u32
    ensures { TellsAmount (of_angle angle (cosine_by (entry_in table.now) angle))
        value.new result }
{
    tell::amount(sines::cosine_in(table, angle), value)
}

// ---- azimuths
// The azimuth of leg 1.
#[unsafe(no_mangle)]
pub extern "C" fn vas_from_mark(mark: u32, angle: u32, value: &mut u64) -> u32
    ensures { TellsCount (from_mark_step mark angle) value.new result }
{
    tell::step(steps::azimuth::from_mark(mark, angle), value)
}

// The azimuth of each next leg, and the closing one.
#[unsafe(no_mangle)]
pub extern "C" fn vas_onward(before: u32, angle: u32, value: &mut u64) -> u32
    ensures { TellsCount (onward_step before angle) value.new result }
{
    tell::step(steps::azimuth::onward(before, angle), value)
}

// The angular misclosure.
#[unsafe(no_mangle)]
pub extern "C" fn vas_misclosure(carried: u32, given: u32, value: &mut i64) -> u32
    ensures { TellsAmount (misclosure_step carried given) value.new result }
{
    tell::amount(steps::azimuth::misclosure(carried, given), value)
}

// Whether a misclosure over n legs is within its limit.
#[unsafe(no_mangle)]
pub extern "C" fn vas_closes_angles(w: i64, n: u64, value: &mut bool) -> u32
    ensures { TellsVerdict (misclosure_test w n) value.new result }
{
    tell::step(steps::azimuth::closes_angles(Whole { v: w }, n), value)
}

// The share of a misclosure at the j-th of n + 1 angles.
#[unsafe(no_mangle)]
pub extern "C" fn vas_angle_share(w: i64, j: u64, n: u64, value: &mut i64) -> u32
    ensures { TellsAmount (angle_share_step w j n) value.new result }
{
    tell::amount(steps::share::angle_share(Whole { v: w }, j, n), value)
}

// The carried azimuth less its share.
#[unsafe(no_mangle)]
pub extern "C" fn vas_balanced(azimuth: u32, share: i64, value: &mut u64) -> u32
    ensures { TellsCount (balanced_step azimuth share) value.new result }
{
    tell::step(steps::azimuth::balanced(azimuth, Whole { v: share }), value)
}

// ---- latitude and departure
// How far a grid distance moves north and east.
#[unsafe(no_mangle)]
pub extern "C" fn vas_latitude(distance: u64, azimuth: u32, value: &mut i64) -> u32
    ensures { TellsAmount (course_step entry Course·north distance azimuth)
        value.new result }
{
    tell::amount(steps::course::latitude(distance, azimuth), value)
}

#[unsafe(no_mangle)]
pub extern "C" fn vas_departure(distance: u64, azimuth: u32, value: &mut i64) -> u32
    ensures { TellsAmount (course_step entry Course·east distance azimuth)
        value.new result }
{
    tell::amount(steps::course::departure(distance, azimuth), value)
}

// How far a grid distance moves north and east, by the sines of a lent table.
#[unsafe(no_mangle)]
pub extern "C" fn vas_latitude_in(
    table: &[u32; ENTRIES],
    distance: u64,
    azimuth: u32,
    value: &mut i64,
) -> u32
    ensures { TellsAmount
        (course_step (entry_in table.now) Course·north distance azimuth)
        value.new result }
{
    tell::amount(steps::course::latitude_in(table, distance, azimuth), value)
}

#[unsafe(no_mangle)]
pub extern "C" fn vas_departure_in(
    table: &[u32; ENTRIES],
    distance: u64,
    azimuth: u32,
    value: &mut i64,
) -> u32
    ensures { TellsAmount
        (course_step (entry_in table.now) Course·east distance azimuth)
        value.new result }
{
    tell::amount(steps::course::departure_in(table, distance, azimuth), value)
}

// ---- closure and compass rule
// Whether closures are within the limit.
#[unsafe(no_mangle)]
pub extern "C" fn vas_closes(north: i64, east: i64, s: u64, value: &mut bool) -> u32
    ensures { TellsVerdict (closure_test north east s) value.new result }
{
    tell::step(
        steps::closure::closes(Whole { v: north }, Whole { v: east }, s),
        value,
    )
}

// The precision number.
#[unsafe(no_mangle)]
pub extern "C" fn vas_precision(north: i64, east: i64, s: u64, value: &mut u64) -> u32
    ensures { TellsCount (precision_step north east s) value.new result }
{
    tell::step(
        steps::closure::precision(Whole { v: north }, Whole { v: east }, s),
        value,
    )
}

// The share of a closure at a part of a whole.
#[unsafe(no_mangle)]
pub extern "C" fn vas_share(closure: i64, part: u64, whole: u64, value: &mut i64) -> u32
    ensures { TellsAmount (share_step closure part whole) value.new result }
{
    tell::amount(
        steps::share::share(Whole { v: closure }, part, whole),
        value,
    )
}

// The doubled area of stations by their offsets, northing, then easting, of each.
#[unsafe(no_mangle)]
pub extern "C" fn vas_doubled_area(offsets: &[i64], value: &mut i64) -> u32
    ensures { TellsAmount (area_step offsets.now) value.new result }
{
    tell::amount(steps::area::doubled_area(offsets), value)
}
