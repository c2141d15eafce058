// Sines and cosines by the table of whole minutes, in units of the ninth decimal; angles in tenths
// of a second.
//
// The functions that end in `_in` read a lent table, whatever it holds; the others are these by the
// desk's own. Sizes are unsigned, and a sign is put on once.
#![tactic(auto)]

ghost use Rattle.std.specs.Prelude.{◌≡◌, ◌+◌, ◌-◌, ◌*◌, ◌<◌, ◌≤◌, ◌^◌, ltb, pos, nat_abs};
ghost use Rattle.std.specs.Prelude.{IsOk, ◌↔◌};
ghost use Rattle.answer.specs.Told.{told_amount};
ghost use Rattle.minutes.specs.Quadrant.{circle, half_circle, quarter_circle, tenths_in_minute};
ghost use Rattle.minutes.specs.Quadrant.{folded, signed_by, quarter_ahead};
ghost use Rattle.minutes.specs.Exact.{nine_decimals};
ghost use Rattle.minutes.specs.Entry.{entry, last_minute};
ghost use Rattle.sines.specs.Sine.{between as Sine·between, quarter_by, entry_in};
ghost use Rattle.sines.specs.Sine.{sine_by, cosine_by, of_angle, turned_by, told_sine, told_cosine};

use answer::OutOfRange;
use minutes::quadrant::{CIRCLE, HALF_CIRCLE, QUARTER_CIRCLE, TENTHS_IN_MINUTE, THREE_QUARTERS};
use minutes::{ENTRIES, LAST_MINUTE, NINE_DECIMALS};
use whole::Whole;

// The last minute that has a next one: 90 degrees are a whole minute past it.
const LAST_START: u32 = LAST_MINUTE as u32 - 1;

// The tenths of a minute, as wide as the products that they divide.
const MINUTE: u64 = TENTHS_IN_MINUTE as u64;

// A number by its size and its sign.
#[derive(Clone, Copy, Debug, PartialEq, Eq)]
pub struct Signed {
    pub size: u32,
    pub negative: bool,
}

impl Signed {
    pub fn amount(self) -> Whole
        ensures is { result.v ≡ signed_by self.negative (pos self.size) }
        ensures size { nat_abs result.v ≡ self.size }
    {
        let size = Whole::from(self.size);
        if self.negative { size.opposite() } else { size }
    }
}

// The sine and the cosine of an angle. The sine is negative past 180 degrees, the cosine between 90
// and 270.
#[derive(Clone, Copy, Debug, PartialEq, Eq)]
pub struct Sides {
    pub sine: Signed,
    pub cosine: Signed,
}

// The sizes of a sine and a cosine, without their signs.
#[derive(Clone, Copy)]
struct Sizes {
    sine: u32,
    cosine: u32,
}

// The sine r tenths past a minute whose entry is e, where the next entry is f and no lower: by a
// straight line, to the nearest.
fn rise(e: u32, f: u32, r: u32) -> u32
    requires r_le_tenths_in_minute { r ≤ tenths_in_minute }
    requires e_le_f { (e ≤ f) × (f ≤ nine_decimals) }
    ensures is { pos result ≡ Sine·between (pos e) (pos f) r }
    ensures most { result ≤ nine_decimals }
{
    e + whole::half_up(u64::from(f - e) * u64::from(r), MINUTE) as u32
}

// The sine r tenths past a minute whose entry is e, where the next entry f may be lower.
fn between(e: u32, f: u32, r: u32) -> u32
    requires r_le_tenths_in_minute { r ≤ tenths_in_minute }
    requires e_le_nine_decimals { (e ≤ nine_decimals) × (f ≤ nine_decimals) }
    ensures is { pos result ≡ Sine·between (pos e) (pos f) r }
    ensures most { result ≤ nine_decimals }
{
    if e <= f {
        return rise(e, f, r);
    }
    e - whole::half_up(u64::from(e - f) * u64::from(r), MINUTE) as u32
}

// The sine r tenths past a minute, by the entries of a lent table. Those of a table of sines rise
// and are at most 1, which is tested first: then each counts as it stands.
fn past_minute(table: &[u32; ENTRIES], m: usize, r: u32) -> u32
    requires { (m < last_minute) × (r ≤ tenths_in_minute) }
    ensures is { pos result ≡ Sine·between (entry_in table.now m)
        (entry_in table.now (m + 1)) r }
    ensures most { result ≤ nine_decimals }
{
    let e = table[m];
    let f = table[m + 1];
    if e <= f && f <= NINE_DECIMALS {
        return rise(e, f, r);
    }
    between(e.min(NINE_DECIMALS), f.min(NINE_DECIMALS), r)
}

// The minute from which an angle of the first quadrant is counted. At 90 degrees it is the one
// before, 600 tenths back, so that there is always a next.
fn minute(a: u32) -> u32
    requires { a ≤ quarter_circle }
    ensures { (result < last_minute)
        × (tenths_in_minute * result ≤ a)
        × (a ≤ tenths_in_minute * result + tenths_in_minute) }
{
    (a / TENTHS_IN_MINUTE).min(LAST_START)
}

// The sine of an angle of the first quadrant in a lent table.
// Kept: three private functions ask for an angle of the first quadrant (`a ≤ quarter_circle`). A
// type of folded angles would be made in one place and taken apart in three, which is no plainer.
fn quarter_in(table: &[u32; ENTRIES], a: u32) -> u32
    requires { a ≤ quarter_circle }
    ensures is { pos result ≡ quarter_by (entry_in table.now) a }
    ensures most { result ≤ nine_decimals }
{
    let m = minute(a);
    past_minute(table, m as usize, a - TENTHS_IN_MINUTE * m)
}

// The sine and the cosine of an angle of the first quadrant. The cosine's angle is what is left to
// 90 degrees: the same tenths, counted back from the other end of the table.
fn both_in(table: &[u32; ENTRIES], a: u32) -> Sizes
    requires { a ≤ quarter_circle }
    ensures sine { pos result.sine ≡ quarter_by (entry_in table.now) a }
    ensures cosine { pos result.cosine
        ≡ quarter_by (entry_in table.now) (quarter_circle - a) }
{
    let m = minute(a);
    let r = a - TENTHS_IN_MINUTE * m;
    Sizes {
        sine: past_minute(table, m as usize, r),
        cosine: past_minute(table, (LAST_START - m) as usize, TENTHS_IN_MINUTE - r),
    }
}

// The angle of the first quadrant whose sine has the same size: past 180 degrees the sizes run as
// from 0 on, and past 90 they run back.
fn fold(angle: u32) -> u32
    requires { angle < circle }
    ensures is { result ≡ folded angle }
    ensures most { result ≤ quarter_circle }
{
    let half = if HALF_CIRCLE < angle {
        angle - HALF_CIRCLE
    } else {
        angle
    };
    if half <= QUARTER_CIRCLE {
        return half;
    }
    HALF_CIRCLE - half
}

// Whether the cosine is negative, which it is between 90 and 270 degrees.
fn cosine_negative(angle: u32) -> bool
    requires { angle < circle }
    ensures { result ≡ ltb half_circle (quarter_ahead angle) }
{
    QUARTER_CIRCLE < angle && angle < THREE_QUARTERS
}

// Whether an angle is one of the circle.
pub fn in_circle(angle: u32) -> Result<(), OutOfRange>
    ensures { IsOk result ↔ angle < circle }
{
    if CIRCLE <= angle {
        return Err(OutOfRange);
    }
    Ok(())
}

// The sine and the cosine of an angle in a lent table, whatever it holds. The angle is folded once:
// the cosine's is what is left to 90 degrees.
pub fn sides_in(table: &[u32; ENTRIES], angle: u32) -> Result<Sides, OutOfRange>
    ensures is { result ≡ turned_by (entry_in table.now) angle }
    ensures sine { told_sine result
        ≡ of_angle angle (sine_by (entry_in table.now) angle) }
    ensures cosine { told_cosine result
        ≡ of_angle angle (cosine_by (entry_in table.now) angle) }
{
    in_circle(angle)?;
    let sizes = both_in(table, fold(angle));
    Ok(Sides {
        sine: Signed {
            size: sizes.sine,
            negative: HALF_CIRCLE < angle,
        },
        cosine: Signed {
            size: sizes.cosine,
            negative: cosine_negative(angle),
        },
    })
}

// The sine of an angle in a lent table.
// Kept: by itself and not from both sides, which would work out a line that nobody asked for.
pub fn sine_in(table: &[u32; ENTRIES], angle: u32) -> Result<Whole, OutOfRange>
    ensures is { told_amount result
        ≡ of_angle angle (sine_by (entry_in table.now) angle) }
    ensures size { nat_abs (told_amount result).value < 2 ^ 32 }
{
    in_circle(angle)?;
    let size = quarter_in(table, fold(angle));
    let negative = HALF_CIRCLE < angle;
    Ok(Signed { size, negative }.amount())
}

// The cosine is the sine of the angle plus 90 degrees.
pub fn cosine_in(table: &[u32; ENTRIES], angle: u32) -> Result<Whole, OutOfRange>
    ensures is { told_amount result
        ≡ of_angle angle (cosine_by (entry_in table.now) angle) }
    ensures size { nat_abs (told_amount result).value < 2 ^ 32 }
{
    in_circle(angle)?;
    let size = quarter_in(table, QUARTER_CIRCLE - fold(angle));
    let negative = cosine_negative(angle);
    Ok(Signed { size, negative }.amount())
}

// By the desk's own table.
pub fn sine(angle: u32) -> Result<Whole, OutOfRange>
    ensures { told_amount result ≡ of_angle angle (sine_by entry angle) }
{
    sine_in(minutes::own(), angle)
}

pub fn cosine(angle: u32) -> Result<Whole, OutOfRange>
    ensures { told_amount result ≡ of_angle angle (cosine_by entry angle) }
{
    cosine_in(minutes::own(), angle)
}
