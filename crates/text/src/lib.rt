// Numbers and words as text in the lent bytes, from an offset on. Each writer answers the offset
// after what it wrote. A tool, as `whole` is: its functions ask for room, and every caller is
// proved to have it.
#![tactic(auto)]

ghost use Rattle.std.specs.Prelude.{◌≡◌, ◌++◌, ◌/◌, ◌^◌, ◌<◌};
ghost use Rattle.text.specs.Text.{ascii, digits, decimal, pointed, sign, amount};
ghost use Rattle.text.specs.Text.{digit_count};
ghost use Rattle.text.specs.Room.{Room, Put};

use whole::Whole;

mod pairs;

// An amount in units of its last decimal.
#[derive(Clone, Copy)]
pub struct Quantity {
    pub amount: Whole,
    pub decimals: u32,
}

// A text.
// Kept: `out` and `at` by themselves, and digits put here and not by a Display: each promise names
// every byte from `at` on (`Put`).
pub fn put(out: &mut [u8], at: usize, text: &[u8]) -> usize
    requires { Room out.old at text.now }
    ensures { Put out.old at text.now out.new result }
{
    let end = at + text.len();
    out[at..end].copy_from_slice(text);
    end
}

// How many digits a number has; zero has one.
fn digit_count(n: u64) -> usize
    ensures { result ≡ digit_count n }
{
    n.max(1).ilog10() as usize + 1
}

// The last k digits of a number, with zeros in front where it has fewer.
pub fn put_digits(out: &mut [u8], at: usize, n: u64, k: usize) -> usize
    requires { Room out.old at (digits k n) }
    ensures { Put out.old at (digits k n) out.new result }
{
    let mut rest = n;
    for i in (0..k).rev() {
        out[at + i] = b'0' + (rest % 10) as u8;
        rest /= 10;
    }
    at + k
}

// A number with all its digits and no others, two digits a turn. It is not inlined: those that call
// it then are, each with its own number of decimals, by which the compiler divides faster.
#[inline(never)]
pub fn put_decimal(out: &mut [u8], at: usize, n: u64) -> usize
    requires { Room out.old at (decimal n) }
    ensures { Put out.old at (decimal n) out.new result }
{
    let end = at + digit_count(n);
    let mut place = end;
    let mut rest = n;
    while rest > 99 {
        place -= 2;
        pairs::put_pair(out, place, rest % 100);
        rest /= 100;
    }
    if rest > 9 {
        pairs::put_pair(out, at, rest);
    } else {
        out[at] = b'0' + rest as u8;
    }
    end
}

// The whole ones of n units, with d decimals: none where 10 to the power d is past 64 bits.
fn whole_ones(n: u64, d: u32) -> u64
    ensures { result ≡ n / 10 ^ d }
{
    match 10u64.checked_pow(d) {
        Some(unit) => n / unit,
        None => 0,
    }
}

// A number of units of the last decimal, with d decimals.
#[tactic(auto, unfolding(crate::specs::Text::pointed))]
fn put_pointed(out: &mut [u8], at: usize, n: u64, d: u32) -> usize
    requires { Room out.old at (pointed d n) }
    ensures { Put out.old at (pointed d n) out.new result }
{
    let i = put_decimal(out, at, whole_ones(n, d));
    let j = put(out, i, b".");
    put_digits(out, j, n, d as usize)
}

// The minus of a negative amount, or `plus`.
#[tactic(auto, unfolding(crate::specs::Text::sign))]
fn put_sign(out: &mut [u8], at: usize, plus: &[u8], z: Whole) -> usize
    requires { Room out.old at (sign plus.now z.v) }
    ensures { Put out.old at (sign plus.now z.v)
        out.new result }
{
    if z.below_zero() {
        return put(out, at, b"-");
    }
    put(out, at, plus)
}

// A quantity with its decimals, after its sign; `plus` stands before one that is not negative.
#[tactic(auto, unfolding(crate::specs::Text::amount))]
pub fn put_amount(out: &mut [u8], at: usize, plus: &[u8], q: Quantity) -> usize
    requires { Room out.old at (amount plus.now q.decimals q.amount.v) }
    ensures { Put out.old at
        (amount plus.now q.decimals q.amount.v) out.new result }
{
    let i = put_sign(out, at, plus, q.amount);
    put_pointed(out, i, q.amount.size(), q.decimals)
}
