// Whole numbers with a sign, the desk's only signed arithmetic. Each promise gives the value, and
// where a caller needs it a bound on the size.
#![tactic(auto)]

ghost use Rattle.std.specs.Prelude.{◌≡◌, ◌+◌, ◌*◌, ◌<◌, ◌≤◌, ◌^◌, pos, neg_ℤ, nat_abs, ◌+ℤ◌, ◌-ℤ◌};
ghost use Rattle.std.specs.Prelude.{◌*ℤ◌, Some};
ghost use Rattle.std.specs.Fmt.{signed_decimal};
ghost use Rattle.std.specs.Int.Signed.{lt_z};
ghost use Rattle.whole.specs.Nearest.{half_up};

use std::fmt;

#[derive(Clone, Copy, Debug, PartialEq, Eq, PartialOrd, Ord)]
pub struct Whole {
    pub v: i64,
}

impl Whole {
    // An amount that is not negative.
    pub fn of_size(n: u64) -> Whole
        requires { n < 2 ^ 63 }
        ensures is { result.v ≡ pos n }
        ensures size { nat_abs result.v ≡ n }
    {
        Whole { v: n as i64 }
    }

    // The size of any amount.
    pub fn size(self) -> u64
        ensures { result ≡ nat_abs self.v }
    {
        self.v.unsigned_abs()
    }

    pub fn below_zero(self) -> bool
        ensures { result ≡ lt_z self.v (pos 0) }
    {
        self.v < 0
    }

    pub fn opposite(self) -> Whole
        requires { nat_abs self.v < 2 ^ 63 }
        ensures is { result.v ≡ neg_ℤ self.v }
        ensures size { nat_abs result.v ≡ nat_abs self.v }
    {
        Whole { v: -self.v }
    }

    pub fn plus(self, b: Whole) -> Whole
        requires v_bound { nat_abs self.v < 2 ^ 62 }
        requires v_bound_2 { nat_abs b.v < 2 ^ 62 }
        ensures is { result.v ≡ self.v +ℤ b.v }
        ensures size { nat_abs result.v ≤ nat_abs self.v + nat_abs b.v }
    {
        Whole { v: self.v + b.v }
    }

    pub fn minus(self, b: Whole) -> Whole
        requires v_bound { nat_abs self.v < 2 ^ 62 }
        requires v_bound_2 { nat_abs b.v < 2 ^ 62 }
        ensures is { result.v ≡ self.v -ℤ b.v }
        ensures size { nat_abs result.v ≤ nat_abs self.v + nat_abs b.v }
    {
        Whole { v: self.v - b.v }
    }

    // The larger factor first.
    pub fn times(self, b: Whole) -> Whole
        requires v_bound { nat_abs self.v < 2 ^ 34 }
        requires v_bound_2 { nat_abs b.v < 2 ^ 28 }
        ensures is { result.v ≡ self.v *ℤ b.v }
        ensures size { nat_abs result.v < 2 ^ 62 }
    {
        Whole { v: self.v * b.v }
    }

    // Kept: it is public, and promises `lt_z`.
    pub fn less(self, b: Whole) -> bool
        ensures { result ≡ lt_z self.v b.v }
    {
        self < b
    }
}

// Any field of a tape that has no sign is an amount.
impl From<u32> for Whole {
    ghost from_gives = { λ n z. z.v ≡ pos n };

    fn from(n: u32) -> Whole {
        Whole { v: i64::from(n) }
    }
}

// As its number, with a minus where it is negative.
impl fmt::Display for Whole {
    ghost output = { λ z. Some (signed_decimal z.v) };

    fn fmt<W: fmt::Write>(&self, f: &mut fmt::Formatter<W>) -> fmt::Result {
        write!(f, "{}", self.v)
    }
}

// n / d to the nearest whole number, for amounts that are not negative. A negative amount is
// rounded by its size, and the sign put on after (`nearest_neg`).
pub fn half_up(n: u64, d: u64) -> u64
    requires d_bound { 2 * n + d < 2 ^ 64 }
    requires d_nonzero { 0 < d }
    requires d_bound_2 { 2 * d < 2 ^ 64 }
    ensures is { result ≡ half_up n d }
    ensures size { result ≤ n }
{
    (2 * n + d) / (2 * d)
}
