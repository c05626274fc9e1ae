//! Numbers in words.

ghost use Rattle.std.specs.Prelude.{◌≡◌};
ghost use Rattle.spot_words.specs.Words.{number_in as number_within};

use spot_decimal::read_digits;

/// A number of one to ten digits, within a range.
pub fn number_in(text: &str, low: u32, high: u32) -> Option<u32>
    ensures { result ≡ number_within low high text.now }
{
    let bytes = text.as_bytes();
    if bytes.is_empty() || bytes.len() > 10 {
        return None;
    }
    let value = read_digits(bytes)?;
    if u64::from(low) <= value && value <= u64::from(high) {
        Some(value as u32)
    } else {
        None
    }
}
