// The whole root of a number by the method that trainees are taught, digit by digit on paper. The
// number is set off in pairs of digits. From the left, each pair is brought down after the
// remainder and gives one digit of the root.
ghost use Rattle.std.specs.Prelude.{◌≡◌, ◌-◌, ◌*◌, ◌^◌, ◌<◌, ◌≤◌};
ghost use Rattle.steps.specs.Root.{pairs};
ghost use Rattle.steps.specs.Root.{WholeRoot, NoneAbove, digit as Root·digit};
ghost use Rattle.steps.specs.Root.{with_pair, worked as Root·worked};

// A number whose root is taken is S squared over 100 or more, so it has at most nine pairs.
const PAIRS: u64 = 9;

// What one unit of the first of nine pairs counts.
const FIRST: u64 = 10_000_000_000_000_000;

// The working on paper: the root found so far, and the remainder.
#[derive(Clone, Copy)]
struct Working {
    root: u64,
    remainder: u64,
}

impl Working {
    // The digit to try first: as often as the trial divisor, 20 * root, goes into the remainder,
    // but at most 9. No larger digit fits.
    fn trial(self) -> u64
        requires { self.root < 10 ^ 9 }
        ensures { NoneAbove self.root self.remainder result }
    {
        let divisor = 20 * self.root;
        if self.remainder < 10 * divisor {
            return self.remainder / divisor;
        }
        9
    }

    // The next digit of the root: the largest d for which (20 * root + d) * d can be taken from the
    // remainder. The trial digit is made one less while it is too large; 0 never is.
    // Kept: a chain would end in an `unwrap` of a digit that is always found, and is no plainer.
    fn digit(self) -> u64
        requires { self.root < 10 ^ 9 }
        ensures is { result ≡ Root·digit self.root self.remainder }
        ensures figure { result ≤ 9 }
    {
        let mut d = self.trial();
        while self.remainder < (20 * self.root + d) * d {
            d -= 1;
        }
        d
    }

    // The working with one more pair brought down: one more digit of the root, and what it leaves.
    fn with_pair(self, pair: u64) -> Working
        requires { (self.root < 10 ^ 9) × (self.remainder ≤ 2 * 10 ^ 9) × (pair < 100) }
        ensures { result ≡ with_pair self pair }
    {
        let brought = Working {
            root: self.root,
            remainder: 100 * self.remainder + pair,
        };
        let d = brought.digit();
        Working {
            root: 10 * self.root + d,
            remainder: brought.remainder - (20 * self.root + d) * d,
        }
    }
}

// The pairs still to be brought down: the first `left` of the nine pairs of `number`.
#[derive(Clone, Copy)]
struct Pairs {
    number: u64,
    left: u64,
}

// A number set off in nine pairs. The pairs of zeros in front give no digit and are passed over.
fn set_off(x: u64) -> Pairs
    requires { x < 100 ^ pairs }
    ensures nine { (result.left ≤ pairs) × (result.number < 100 ^ pairs) }
    ensures moved { result.number ≡ x * 100 ^ (pairs - result.left) }
{
    let mut number = x;
    for passed in 0..PAIRS {
        if FIRST <= number {
            return Pairs {
                number,
                left: PAIRS - passed,
            };
        }
        number *= 100;
    }
    Pairs { number, left: 0 }
}

// The working of a whole number, pair after pair.
fn worked(x: u64) -> Working
    requires { x < 100 ^ pairs }
    ensures { result ≡ Root·worked pairs x }
{
    let pairs = set_off(x);
    let mut number = pairs.number;
    let mut w = Working {
        root: 0,
        remainder: 0,
    };
    for _ in 0..pairs.left {
        w = w.with_pair(number / FIRST);
        number = number % FIRST * 100;
    }
    w
}

// The largest r with r * r <= x.
// Kept: the bound on x stands in three contracts, and that on the root in three: they are on what
// is still to be worked, which no value carries on.
pub fn whole_root(x: u64) -> u64
    requires { x < 100 ^ pairs }
    ensures { WholeRoot x result }
{
    worked(x).root
}
