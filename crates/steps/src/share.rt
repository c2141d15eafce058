// The one share rule, for seconds and for feet: the share of a total at a part of a whole, so that
// the last share is the whole total.
ghost use Rattle.std.specs.Prelude.{◌≡◌, ◌+◌, ◌≤◌, ◌<◌, nat_abs};
ghost use Rattle.answer.specs.Told.{told_amount};
ghost use Rattle.minutes.specs.Quadrant.{half_circle};
ghost use Rattle.steps.specs.Closure.{most_sum};
ghost use Rattle.steps.specs.Share.{share as Share·share, share_step, angle_share_step};

use crate::closure::{NARROW_CLOSURE, NARROW_SUM};
use crate::range::{at_most, inside};
use answer::OutOfRange;
use answer::limit::MOST_LEGS;
use minutes::quadrant::HALF_CIRCLE;
use whole::Whole;

// The share of a total at a part of a whole. The total's size is shared, and its sign put back.
fn share_of(total: Whole, part: u64, whole: u64) -> Whole
    requires v_bound { nat_abs total.v ≤ half_circle }
    requires part_le_whole { part ≤ whole }
    requires whole_nonzero { (0 < whole) × (whole ≤ most_sum) }
    ensures { result.v ≡ Share·share total.v part whole }
{
    let size = Whole::of_size(whole::half_up(part * total.size(), whole));
    if total.below_zero() {
        return size.opposite();
    }
    size
}

// The share of a closure at a station: the part is the distance run so far, the whole the sum of
// grid distances.
pub fn share(closure: Whole, part: u64, whole: u64) -> Result<Whole, OutOfRange>
    ensures { told_amount result ≡ share_step closure.v part whole }
{
    at_most(NARROW_CLOSURE, closure.size())?;
    inside(1, NARROW_SUM, whole)?;
    if whole < part {
        return Err(OutOfRange);
    }
    Ok(share_of(closure, part, whole))
}

// The share of a misclosure at the j-th of n + 1 angles.
pub fn angle_share(w: Whole, j: u64, n: u64) -> Result<Whole, OutOfRange>
    ensures { told_amount result ≡ angle_share_step w.v j n }
{
    at_most(HALF_CIRCLE, w.size())?;
    inside(1, MOST_LEGS as u32, n)?;
    if n + 1 < j {
        return Err(OutOfRange);
    }
    Ok(share_of(w, j, n + 1))
}
