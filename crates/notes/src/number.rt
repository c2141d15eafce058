// A number as it is written: digits, and after a point the decimals, of which fewer than the field
// has may be given and never more.
use crate::{Fault, Item};

// The digits of a word, without its point, and how many of them are decimals.
#[derive(Clone, Copy)]
struct Digits {
    value: u32,
    decimals: usize,
}

// The digits of a word, in one pass: some before a point and some after it, or some without a
// point. What is wider than a field of four bytes stays its largest value, which is above every
// field's range: so no number is too long.
fn digits_of(word: &[u8]) -> Option<Digits> {
    let mut value: u32 = 0;
    let mut point = word.len();
    for (at, byte) in word.iter().enumerate() {
        let digit = byte.wrapping_sub(b'0');
        if digit < 10 {
            value = value.saturating_mul(10).saturating_add(u32::from(digit));
        } else if *byte == b'.' && point == word.len() {
            point = at;
        } else {
            return None;
        }
    }
    let after = word.len().saturating_sub(point);
    let decimals = after.saturating_sub(1);
    (point != 0 && after != 1).then_some(Digits { value, decimals })
}

// The number that a word says, in units of its item's last decimal.
pub fn number_of(word: &[u8], item: Item) -> Result<u32, Fault> {
    let digits = digits_of(word).ok_or(Fault::NoNumber(item))?;
    let zeros = item
        .decimals()
        .checked_sub(digits.decimals)
        .ok_or(Fault::Decimals(item))?;
    Ok((0..zeros).fold(digits.value, |value, _| value.saturating_mul(10)))
}
