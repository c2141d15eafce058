// The combined factor of a traverse: sea level, and the row of the mean latitude.
ghost use Rattle.std.specs.Prelude.{◌≡◌, true, ◌&&◌, ◌≤◌, pos, neg_ℤ};
ghost use Rattle.std.specs.Int.Signed.{le_z};
ghost use Rattle.answer.specs.Limit.{lowest, highest, least_factor, most_factor};
ghost use Rattle.steps.specs.Distance.{sea_level, combine};

use whole::Whole;

fn sea_level(elevation: Whole) -> u64
    requires { (le_z (neg_ℤ (pos lowest)) elevation.v && le_z elevation.v (pos highest))
        ≡ true }
    ensures is { result ≡ sea_level elevation.v }
    ensures size { (least_factor ≤ result) × (result ≤ most_factor) }
{
    steps::distance::sea_level(elevation).unwrap()
}

pub fn combined(elevation: Whole, scale: u32) -> u32
    requires highest_value { (le_z (neg_ℤ (pos lowest)) elevation.v
        && le_z elevation.v (pos highest))
        ≡ true }
    requires least_factor_le_scale { (least_factor ≤ scale) × (scale ≤ most_factor) }
    ensures { result ≡ combine (sea_level elevation.v) scale }
{
    steps::distance::combine(sea_level(elevation), scale as u64).unwrap() as u32
}
