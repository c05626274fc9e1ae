//! The numbers and ids that texts stand for.

ghost use Rattle.std.specs.Prelude.{◌≡◌, ◌⊎◌, ◌↔◌, ℕ, ◌*◌, ◌≤◌, ◌<ℤ◌, length, pos, IsTrue, IfSome, IfNone};
ghost use Rattle.spot_terms.specs.Decimal.{Reads};
ghost use Rattle.spot_claims.specs.Paths.{id_of};
ghost use Rattle.spot_claims.specs.Profile.{is_bad_number as is_bad, IsTooLarge, IsOutside, IsUneven};
ghost use Rattle.scenario.specs.Table.{number_of};
ghost use Rattle.scenario.specs.Found.{ReadsNumber};

use crate::table::Number;
use spot_decimal::{NumberFault, read_decimal, read_digits};
use spot_terms::MOST_TICKS;

// The most digits of an id.
const MOST_DIGITS: usize = 10;

// The millionths of a second in a tick.
const TICK: u32 = 1_000;

// The least step size, in millionths of a second: one tick.
const LEAST_STEP_SIZE: i128 = TICK as i128;

// The greatest step size, in millionths of a second: as many ticks as a step may have.
const MOST_STEP_SIZE: i128 = (TICK * MOST_TICKS) as i128;

/// The id that a text stands for: one to ten digits, for a number of at most 4,294,967,295.
pub(crate) fn read_id(text: &str) -> Option<u32>
    ensures { result ≡ id_of text.now }
{
    let bytes = text.as_bytes();
    if bytes.is_empty() || bytes.len() > MOST_DIGITS {
        return None;
    }
    let value = read_digits(bytes)?;
    if value <= u64::from(u32::MAX) {
        Some(value as u32)
    } else {
        None
    }
}

/// Whether a text is too long for a number, or no decimal.
pub(crate) fn is_bad_number(text: &str) -> bool
    ensures { result ≡ is_bad text.now }
{
    match read_decimal(text, 0) {
        Ok(_) => false,
        Err(fault) => fault != NumberFault::TooLarge,
    }
}

/// Whether a text is a number of millionths past 10^18 in size.
pub(crate) fn is_too_large(text: &str) -> bool
    ensures { IsTrue result ↔ IsTooLarge 6 text.now }
{
    match read_decimal(text, 6) {
        Ok(_) => false,
        Err(fault) => fault == NumberFault::TooLarge,
    }
}

// Whether a reading is outside the range of a number.
fn is_past(reading: i128, number: &Number) -> bool
    ensures { IsTrue result ↔ ((reading <ℤ number.now.least) ⊎ (number.now.most <ℤ reading)) }
{
    reading < i128::from(number.least) || i128::from(number.most) < reading
}

/// Whether a text is a number that is past 10^18 in size or outside its range.
pub(crate) fn is_outside(text: &str, number: &Number) -> bool
    ensures { IsTrue result ↔ (IsTooLarge (number_of number.now).places text.now ⊎ IsOutside (number_of number.now) text.now) }
{
    match read_decimal(text, number.unit.places()) {
        Ok(reading) => is_past(reading, number),
        Err(fault) => fault == NumberFault::TooLarge,
    }
}

/// The number that a text says, exactly where it is one in its range.
pub(crate) fn read_number(text: &str, number: &Number) -> Option<i64>
    ensures { ReadsNumber (number_of number.now) text.now result }
{
    match read_decimal(text, number.unit.places()) {
        Ok(reading) => {
            if is_past(reading, number) {
                None
            } else {
                Some(reading as i64)
            }
        }
        Err(_) => None,
    }
}

// The ticks of a step size, exactly where it is a multiple of 1,000 from 1,000 to 1,000,000.
fn ticks_of(size: i128) -> Option<u32>
    ensures some { IfSome result (λ ticks. (1 ≤ ticks) × (ticks ≤ MOST_TICKS) × (size ≡ pos (1000 * ticks))) }
    ensures none { IfNone result ((k : ℕ) → 1 ≤ k → k ≤ MOST_TICKS → size ≡ pos (1000 * k) → ⊥) }
{
    if size < LEAST_STEP_SIZE || MOST_STEP_SIZE < size {
        return None;
    }
    let size = size as u32;
    if size % TICK == 0 {
        Some(size / TICK)
    } else {
        None
    }
}

/// The ticks that a text says in millionths of a second, exactly where it is a number of whole ticks from 1 to 1,000.
pub(crate) fn step_in(text: &str) -> Option<u32>
    ensures some { IfSome result (λ ticks. (1 ≤ ticks) × (ticks ≤ MOST_TICKS) × Reads 6 text.now (pos (1000 * ticks))) }
    ensures none { IfNone result (IsTrue (is_bad text.now) ⊎ IsUneven text.now) }
    ensures uneven { IfSome result (λ ticks. IsUneven text.now → ⊥) }
{
    match read_decimal(text, 6) {
        Ok(reading) => ticks_of(reading),
        Err(_) => None,
    }
}

/// Whether a text is a number of millionths that is no multiple of 1,000 from 1,000 to 1,000,000.
pub(crate) fn is_uneven(text: &str) -> bool
    ensures { IsTrue result ↔ IsUneven text.now }
{
    !is_bad_number(text) && step_in(text).is_none()
}
