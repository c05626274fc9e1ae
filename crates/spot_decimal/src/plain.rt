//! Plain decimals: a sign maybe, a few digits, and a point among them maybe, read in one pass.

ghost use Rattle.std.specs.Prelude.{◌≡◌, ◌+◌, ◌*◌, ◌^◌, ◌≤◌, length, take, nat_abs, IfSome, IsTrue};
ghost use Rattle.std.specs.Str.Parse.{digits_value_after};
ghost use Rattle.spot_terms.specs.Decimal.{are_digits, Reads};
ghost use Rattle.spot_decimal.specs.Written.{IsPlain, IsPlainSize};

use crate::parts::take_sign;
use crate::value::{MOST, with_zeros};
use crate::with_sign;

// How many bytes a plain decimal has at most behind its sign.
const FEW_BYTES: usize = 18;

// The digits that a text begins with: how many they are, and the number that they write.
#[derive(Clone, Copy)]
struct Run {
    value: u64,
    count: usize,
}

// Digits with a point among them maybe: the number of all, and how many stand behind the point.
#[derive(Clone, Copy)]
struct Plain {
    value: u64,
    part: usize,
}

// The digits that a text begins with, read behind those of `start`.
fn run_of(start: u64, text: &[u8]) -> Run
    requires { (start + 1) * 10 ^ length text.now ≤ 10 ^ 19 }
    ensures within { result.count ≤ length text.now }
    ensures digits { IsTrue (are_digits (take result.count text.now)) }
    ensures value { result.value ≡ digits_value_after 10 start (take result.count text.now) }
    ensures small { result.value + 1 ≤ (start + 1) * 10 ^ result.count }
{
    let mut value = start;
    for (count, b) in text.iter().enumerate() {
        if !b.is_ascii_digit() {
            return Run { value, count };
        }
        value = value * 10 + u64::from(*b - b'0');
    }
    Run {
        value,
        count: text.len(),
    }
}

// The digits of a text of nothing else but a point maybe, with a digit before it.
fn plain_of(text: &[u8]) -> Option<Plain>
    requires { length text.now ≤ 18 }
    ensures plain { IfSome result (λ d. IsPlain text.now d.part d.value) }
    ensures small { IfSome result (λ d. d.value + 1 ≤ 10 ^ 18) }
{
    let whole = run_of(0, text);
    if whole.count == 0 {
        return None;
    }
    if whole.count == text.len() {
        return Some(Plain {
            value: whole.value,
            part: 0,
        });
    }
    if text[whole.count] != b'.' {
        return None;
    }
    let behind = &text[whole.count + 1..];
    let part = run_of(whole.value, behind);
    if part.count == behind.len() {
        Some(Plain {
            value: part.value,
            part: part.count,
        })
    } else {
        None
    }
}

// The size of plain digits in units `10^-places`, where no digit is finer than that.
fn size_of_plain(digits: Plain, places: usize) -> Option<u64>
    requires { digits.value + 1 ≤ 10 ^ 18 }
    ensures { IfSome result (λ r. IsPlainSize digits.value digits.part places r × (r ≤ 10 ^ 18)) }
{
    if places < digits.part {
        return None;
    }
    let size = with_zeros(digits.value, places - digits.part)?;
    if size <= MOST { Some(size) } else { None }
}

/// The reading of a decimal in units `10^-places`, if it is plain and has no finer digit. Of others it is not known.
pub fn plain_reading(text: &[u8], places: u32) -> Option<i128>
    requires { places ≤ 6 }
    ensures { IfSome result (λ z. Reads places text.now z × (nat_abs z ≤ 10 ^ 18)) }
{
    let signed = take_sign(text);
    if signed.rest.len() > FEW_BYTES {
        return None;
    }
    let digits = plain_of(signed.rest)?;
    let size = size_of_plain(digits, places as usize)?;
    Some(with_sign(signed.minus, size))
}
