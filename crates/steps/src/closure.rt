// The closure test and the precision number. Closures are in hundredths, the sum s of grid
// distances in thousandths of a foot.
ghost use Rattle.std.specs.Prelude.{◌≡◌, ◌≤◌, ◌↔◌, IsOk, nat_abs};
ghost use Rattle.answer.specs.Told.{told_count, told_verdict};
ghost use Rattle.steps.specs.Closure.{most_sum, most_tested, squares as Closure·squares};
ghost use Rattle.steps.specs.Closure.{closure_test, precision_step, PrecisionTold};

use crate::range::{at_most, inside};
use crate::root;
use answer::OutOfRange;
use whole::Whole;

// "S of 1..1,300,000,000": the most that the sum of grid distances comes to.
pub const MOST_SUM: u64 = 1_300_000_000;

// The same, as narrow as the tests of the ranges take it.
pub(crate) const NARROW_SUM: u32 = MOST_SUM as u32;

// "closures of size up to 1,200,000,000 for the test"
const MOST_TESTED: u32 = 1_200_000_000;

// "26,000 for the number", and for the shares: a closure that passes the test is no larger.
pub const MOST_CLOSURE: u64 = 26_000;

// The same, as narrow as the tests of the ranges take it.
pub(crate) const NARROW_CLOSURE: u32 = MOST_CLOSURE as u32;

// "50,000 x 50,000 x (C_N squared + C_E squared)": a closure in hundredths is at most one of
// 50,000 parts of S in thousandths, which is 1 in 5,000.
const CLOSURE_PARTS: u64 = 50_000;

// 50,000 squared. The rule multiplies the closures' squares by it; the code divides S squared.
const PARTS_SQUARED: u64 = CLOSURE_PARTS * CLOSURE_PARTS;

// "P squared x 100 x (C_N squared + C_E squared)": a hundredth of a foot is 10 thousandths, and 100
// is 10 squared.
const HUNDREDTH_SQUARED: u64 = 100;

// Whether both closures are of size up to the most, and s is of 1..1,300,000,000.
fn closures_stand(north: Whole, east: Whole, s: u64, most: u32) -> Result<(), OutOfRange>
    ensures { IsOk result
        ↔ (nat_abs north.v ≤ most) × (nat_abs east.v ≤ most) × (1 ≤ s) × (s ≤ most_sum) }
{
    at_most(most, north.size())?;
    at_most(most, east.size())?;
    inside(1, NARROW_SUM, s)
}

// The sum of the closures' squares.
fn squares(north: Whole, east: Whole) -> u64
    requires { (nat_abs north.v ≤ most_tested) × (nat_abs east.v ≤ most_tested) }
    ensures { result ≡ Closure·squares north.v east.v }
{
    let n = north.size();
    let e = east.size();
    n * n + e * e
}

// Whether the closures are within the limit. The rule's products have up to 93 bits; divided by
// 50,000 squared they have 63.
pub fn closes(north: Whole, east: Whole, s: u64) -> Result<bool, OutOfRange>
    ensures { told_verdict result ≡ closure_test north.v east.v s }
{
    closures_stand(north, east, s, MOST_TESTED)?;
    Ok(squares(north, east) <= s * s / PARTS_SQUARED)
}

// The precision number P: the closure is 1 part in P of the distance. The promise states the rule
// as well as the number that it names.
pub fn precision(north: Whole, east: Whole, s: u64) -> Result<u64, OutOfRange>
    ensures rule { PrecisionTold north.v east.v s (told_count result) }
    ensures is { told_count result ≡ precision_step north.v east.v s }
{
    closures_stand(north, east, s, NARROW_CLOSURE)?;
    let both = squares(north, east);
    if both == 0 {
        return Ok(0);
    }
    Ok(root::whole_root(s * s / (HUNDREDTH_SQUARED * both)))
}
