//! Decimal texts, read to the nearest whole number of units.
#![tactic(auto)]

mod digits;
mod parts;
mod plain;
mod value;

ghost use Rattle.std.specs.Prelude.{◌≡◌, ℕ, ℤ, ◌<◌, ◌≤◌, ◌^◌, ◌↔◌, None, length, nat_abs, IfOk, IsErrOf};
ghost use Rattle.spot_terms.specs.Decimal.{fraction_of, signed, Reads};

pub use digits::read_digits;
use parts::parse;
use plain::plain_reading;
use thiserror::Error;
use value::size_of;

/// Why a text gives no number.
#[derive(Clone, Copy, Debug, PartialEq, Eq, Error)]
pub enum NumberFault {
    /// The text has more than 64 bytes.
    #[error("the number has more than 64 bytes")]
    LongNumber,
    /// The text is no decimal.
    #[error("the text is not a decimal number")]
    NotDecimal,
    /// The reading is beyond 10^18 units.
    #[error("the number is beyond 10^18 units")]
    TooLarge,
}

// How many bytes a number may have.
const MOST_BYTES: usize = 64;

/// Reads a decimal to the nearest whole number of units `10^-places`; of two that are equally near it
/// gives the one farther from zero. There are at most 6 places.
///
/// A decimal is an optional sign, digits with at most one point and at least one digit, and an optional
/// exponent: `e` or `E`, an optional sign, at least one digit. A text of more than 64 bytes is
/// `LongNumber`, another one that is no decimal is `NotDecimal`, and a decimal whose reading is beyond
/// 10^18 in size is `TooLarge`.
pub fn read_decimal(text: &str, places: u32) -> Result<i128, NumberFault>
    requires { places ≤ 6 }
    ensures ok { IfOk result (λ z. (length text.now ≤ 64) × Reads places text.now z × (nat_abs z ≤ 10 ^ 18)) }
    ensures long_number { IsErrOf result NumberFault.LongNumber ↔ (64 < length text.now) }
    ensures not_decimal { IsErrOf result NumberFault.NotDecimal ↔ ((length text.now ≤ 64) × (fraction_of text.now ≡ None)) }
    ensures too_large { IsErrOf result NumberFault.TooLarge ↔ ((length text.now ≤ 64) × ((r : ℤ) × (Reads places text.now r × (10 ^ 18 < nat_abs r)))) }
{
    if text.len() > MOST_BYTES {
        return Err(NumberFault::LongNumber);
    }
    let bytes = text.as_bytes();
    if let Some(reading) = plain_reading(bytes, places) {
        return Ok(reading);
    }
    let Some(decimal) = parse(bytes) else {
        return Err(NumberFault::NotDecimal);
    };
    let Some(size) = size_of(&decimal, places) else {
        return Err(NumberFault::TooLarge);
    };
    Ok(with_sign(decimal.minus, size))
}

// The number of this size, negative after a minus.
pub(crate) fn with_sign(minus: bool, size: u64) -> i128
    ensures { result ≡ signed minus size }
{
    let size = i128::from(size);
    if minus { -size } else { size }
}

#[cfg(test)]
mod tests {
    use super::*;

    #[test]
    fn readings(rt: HostRuntime) {
        let rows = [
            ("0.0000005", 6, Ok(1)),
            ("-0.0000005", 6, Ok(-1)),
            ("0.00000049", 6, Ok(0)),
            ("1e-05", 6, Ok(10)),
            ("3.4000000000000004", 6, Ok(3400000)),
            ("-123456.7890125", 6, Ok(-123456789013)),
            (".", 6, Err(NumberFault::NotDecimal)),
            ("", 6, Err(NumberFault::NotDecimal)),
            ("e5", 6, Err(NumberFault::NotDecimal)),
            ("1e+", 6, Err(NumberFault::NotDecimal)),
            ("1.2.3", 6, Err(NumberFault::NotDecimal)),
            ("1.", 6, Ok(1000000)),
            ("+.5e0", 6, Ok(500000)),
            ("1E-3", 6, Ok(1000)),
            ("2.5e+3", 3, Ok(2500000)),
            ("-0.4", 0, Ok(0)),
            ("-0.5", 0, Ok(-1)),
            ("-791.8557", 6, Ok(-791855700)),
            ("123456789012345678", 0, Ok(123456789012345678)),
            ("1234567890123.25", 6, Err(NumberFault::TooLarge)),
            ("12.3.", 6, Err(NumberFault::NotDecimal)),
            ("12-3", 6, Err(NumberFault::NotDecimal)),
            ("1e12", 6, Ok(1000000000000000000)),
            ("1000000000000.0000004", 6, Ok(1000000000000000000)),
            ("1000000000000.0000005", 6, Err(NumberFault::TooLarge)),
            ("1e13", 6, Err(NumberFault::TooLarge)),
            (
                "1e99999999999999999999999999",
                6,
                Err(NumberFault::TooLarge),
            ),
            ("0e99999999999999999999999999", 6, Ok(0)),
            ("7e-99999999999999999999999999", 6, Ok(0)),
            (
                "0000000000000000000000000000000000000000000000000000000000000000",
                6,
                Ok(0),
            ),
            (
                "00000000000000000000000000000000000000000000000000000000000000000",
                6,
                Err(NumberFault::LongNumber),
            ),
        ];
        for (text, places, answer) in rows {
            assert!(rt; places <= 6);
            assert_eq!(rt; read_decimal(text, places), answer, "{text}");
        }
    }
}
