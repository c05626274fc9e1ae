//! The values of digits, and the rounded size of a decimal.

ghost use Rattle.std.specs.Prelude.{◌≡◌, ℕ, ◌+◌, ◌-◌, ◌*◌, ◌^◌, ◌<◌, ◌≤◌, ◌++◌, length, min, take, IfSome, IfNone, IsTrue};
ghost use Rattle.std.specs.Str.Parse.{digits_value_after};
ghost use Rattle.spot_terms.specs.Decimal.{are_digits};
ghost use Rattle.spot_decimal.specs.Written.{front, kept, IsNearestTo};

use crate::parts::{Decimal, Digits};

/// The largest size of a reading.
pub const MOST: u64 = 1_000_000_000_000_000_000;

/// The number that the digits write behind those of `start`, where it is below `10 * MOST + 10`.
pub fn value_after(start: u64, digits: &[u8]) -> Option<u64>
    requires room { start < 10 ^ 19 + 10 }
    requires digits { IsTrue (are_digits digits.now) }
    ensures some { IfSome result (λ n. (n ≡ digits_value_after 10 start digits.now) × (n < 10 ^ 19 + 10)) }
    ensures none { IfNone result (10 ^ 19 + 10 ≤ digits_value_after 10 start digits.now) }
{
    let mut value = start;
    for b in digits {
        if value > MOST {
            return None;
        }
        value = value * 10 + u64::from(*b - b'0');
    }
    Some(value)
}

/// The number with this many zeros behind it, where it is below `10 * MOST + 10`.
pub fn with_zeros(start: u64, zeros: usize) -> Option<u64>
    requires { start < 10 ^ 19 + 10 }
    ensures some { IfSome result (λ n. (n ≡ start * 10 ^ zeros) × (n < 10 ^ 19 + 10)) }
    ensures none { IfNone result (10 ^ 19 + 10 ≤ start * 10 ^ zeros) }
{
    let mut value = start;
    for _ in 0..zeros {
        if value > MOST {
            return None;
        }
        value *= 10;
    }
    Some(value)
}

// The first digits, or all where there are fewer.
fn first_digits(digits: &[u8], most: usize) -> &[u8]
    ensures { result.now ≡ take most digits.now }
{
    &digits[..most.min(digits.len())]
}

// The value of the first `places` digits, with zeros behind the last, where it is below
// `10 * MOST + 10`.
fn front_value(digits: &Digits<'_>, places: usize) -> Option<u64>
    requires whole { IsTrue (are_digits digits.now.whole.now) }
    requires part { IsTrue (are_digits digits.now.part.now) }
    ensures some { IfSome result (λ n. (n ≡ front (digits.now.whole.now ++ digits.now.part.now) places) × (n < 10 ^ 19 + 10)) }
    ensures none { IfNone result (10 ^ 19 + 10 ≤ front (digits.now.whole.now ++ digits.now.part.now) places) }
{
    let behind = places.saturating_sub(digits.whole.len());
    let value = value_after(0, first_digits(digits.whole, places))?;
    let value = value_after(value, first_digits(digits.part, behind))?;
    with_zeros(value, behind.saturating_sub(digits.part.len()))
}

// How many digits stand before the point of a decimal that is counted in tenths of a unit
// `10^-places`.
fn places_kept(decimal: &Decimal<'_>, places: u32) -> usize
    requires places { places ≤ 6 }
    requires short { length decimal.now.digits.whole.now ≤ 64 }
    requires exponent { decimal.now.exponent.size ≤ 1000 }
    ensures { result ≡ kept decimal.now.exponent.minus (length decimal.now.digits.whole.now + places + 1) decimal.now.exponent.size }
{
    let shift = decimal.exponent.size as usize;
    let point = decimal.digits.whole.len() + places as usize + 1;
    if decimal.exponent.minus {
        point.saturating_sub(shift)
    } else {
        point + shift
    }
}

/// The size of a decimal in units `10^-places`, to the nearest whole number, where that is at most
/// `MOST`: a tie goes up.
pub fn size_of(decimal: &Decimal<'_>, places: u32) -> Option<u64>
    requires places { places ≤ 6 }
    requires whole { IsTrue (are_digits decimal.now.digits.whole.now) }
    requires part { IsTrue (are_digits decimal.now.digits.part.now) }
    requires short { length decimal.now.digits.whole.now + length decimal.now.digits.part.now ≤ 64 }
    requires exponent { decimal.now.exponent.size ≤ 1000 }
    ensures some { (e : ℕ) → decimal.now.exponent.size ≡ min e 1000 → IfSome result (λ r. IsNearestTo decimal.now.digits.whole.now decimal.now.digits.part.now decimal.now.exponent.minus e places r × (r ≤ 10 ^ 18)) }
    ensures none { (e : ℕ) → decimal.now.exponent.size ≡ min e 1000 → IfNone result ((r : ℕ) × (IsNearestTo decimal.now.digits.whole.now decimal.now.digits.part.now decimal.now.exponent.minus e places r × (10 ^ 18 < r))) }
{
    let tenths = front_value(&decimal.digits, places_kept(decimal, places))?;
    let size = (tenths + 5) / 10;
    if size > MOST { None } else { Some(size) }
}
