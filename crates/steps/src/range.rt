// The tests of the ranges stated with the steps. A step makes each with `?`: an input out of its
// range ends it.
ghost use Rattle.std.specs.Prelude.{◌≤◌, ◌↔◌, IsOk};

use answer::OutOfRange;

// Whether n is at most `most`.
pub fn at_most(most: u32, n: u64) -> Result<(), OutOfRange>
    ensures { IsOk result ↔ n ≤ most }
{
    if u64::from(most) < n {
        return Err(OutOfRange);
    }
    Ok(())
}

// Whether n is of low..high.
pub fn inside(low: u32, high: u32, n: u64) -> Result<(), OutOfRange>
    ensures { IsOk result ↔ (low ≤ n) × (n ≤ high) }
{
    if (u64::from(low)..=u64::from(high)).contains(&n) {
        return Ok(());
    }
    Err(OutOfRange)
}
