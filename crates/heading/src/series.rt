//! The power series of cosine and sine, in whole numbers with each term rounded down.

ghost use Rattle.std.specs.Prelude.{◌≡◌, ◌+◌, ◌*◌, ◌≤◌, ◌^◌, pos, ◌-ℤ◌, ◌≤ℤ◌, nat_abs};
ghost use Rattle.spot_terms.specs.Whole.{SizeAtMost};
ghost use Rattle.spot_terms.specs.Directions.{rough_sum, rough_cosine, rough_sine, least_speed, greatest_speed};

use spot_num::{div_ceil, div_floor};
use spot_terms::{MOST_ANGLE, MOST_SPEED};

// The square of the µrad in a radian.
const MICRO_SQUARED: u128 = 1_000_000_000_000;

// What cosines and sines are multiplied by.
const SCALE: i128 = 1_000_000_000_000_000_000;

// The terms up to the `last` one, each from the one before, added and taken away in turn. `odd` is 0 for the
// cosine and 1 for the sine, and `square` is the angle's, in µrad².
fn alternating_sum(first: u128, odd: u32, square: u128, last: u32) -> i128
    requires first { first ≤ 7 * 10 ^ 18 }
    requires odd { odd ≤ 1 }
    requires square { square ≤ 49 * 10 ^ 12 }
    requires last { last ≤ 20 }
    ensures { result ≡ rough_sum first odd square last }
{
    let mut term = first;
    let mut sum = first as i128;
    for k in 0..last {
        let place = (2 * k + 1 + odd) as u128;
        term = term * square / (MICRO_SQUARED * (place * (place + 1)));
        if k % 2 == 0 {
            sum -= term as i128;
        } else {
            sum += term as i128;
        }
    }
    sum
}

/// 10^18 times the cosine of an angle in µrad, nearly.
pub(crate) fn cosine_of(angle: i64) -> i128
    requires { SizeAtMost MOST_ANGLE angle }
    ensures value { result ≡ rough_cosine angle }
    ensures small { SizeAtMost (2 * 10 ^ 18 + 231) result }
{
    let size = angle.unsigned_abs() as u128;
    alternating_sum(1_000_000_000_000_000_000, 0, size * size, 20)
}

/// 10^18 times the sine of an angle in µrad, nearly.
pub(crate) fn sine_of(angle: i64) -> i128
    requires { SizeAtMost MOST_ANGLE angle }
    ensures value { result ≡ rough_sine angle }
    ensures small { SizeAtMost (2 * 10 ^ 18 + 231) result }
{
    let size = angle.unsigned_abs() as u128;
    let sum = alternating_sum(size * MICRO_SQUARED, 1, size * size, 19);
    if angle < 0 { -sum } else { sum }
}

/// The ends of one side of a box, in mm/s.
#[derive(Clone, Copy, Debug, PartialEq, Eq)]
pub(crate) struct Ends {
    pub(crate) lo: i64,
    pub(crate) hi: i64,
}

/// The whole speeds that a speed in mm/s, times a cosine or a sine that is given 10^18 times, may mean.
pub(crate) fn side(speed: i64, part: i128) -> Ends
    requires speed { SizeAtMost MOST_SPEED speed }
    requires part { SizeAtMost (2 * 10 ^ 18 + 231) part }
    ensures least { result.lo ≡ least_speed speed part }
    ensures greatest { result.hi ≡ greatest_speed speed part }
    ensures ordered { result.lo ≤ℤ result.hi }
    ensures narrow { (result.hi -ℤ result.lo) ≤ℤ pos 3 }
    ensures lo_small { SizeAtMost 400_002 result.lo }
    ensures hi_small { SizeAtMost 400_002 result.hi }
{
    let product = speed as i128 * part;
    Ends {
        lo: (div_floor(product, SCALE) - 1) as i64,
        hi: (div_ceil(product, SCALE) + 1) as i64,
    }
}
