//! Texts of digits alone.

ghost use Rattle.std.specs.Prelude.{◌≡◌, ◌≤◌, length};
ghost use Rattle.spot_terms.specs.Decimal.{digits_of};

/// The value of at most ten bytes, exactly where all of them are ASCII digits. Of no bytes it is 0.
pub fn read_digits(text: &[u8]) -> Option<u64>
    requires { length text.now ≤ 10 }
    ensures { result ≡ digits_of text.now }
{
    let mut value: u64 = 0;
    for b in text {
        if !b.is_ascii_digit() {
            return None;
        }
        value = value * 10 + u64::from(*b - b'0');
    }
    Some(value)
}
