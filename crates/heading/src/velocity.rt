//! Boxes of start velocities, and the start speed of a box.

ghost use Rattle.std.specs.Prelude.{◌≡◌, ◌≤◌, ℤ, pos, ◌-ℤ◌, ◌≤ℤ◌};
ghost use Rattle.spot_terms.specs.Whole.{SizeAtMost};
ghost use Rattle.spot_terms.specs.Directions.{IsStartVelocity, start_box};
ghost use Rattle.spot_terms.specs.Motions.{InBox, IsStartSpeed};
ghost use Rattle.spot_terms.specs.Ranges.{IsBoxWithin};

use crate::series::{cosine_of, side, sine_of};
use spot_num::isqrt_ceil;
use spot_terms::{MOST_ANGLE, MOST_SPEED, VBox};

/// The box of the whole velocities that a speed in mm/s and an angle in µrad may mean.
///
/// The speed is at most 200,000 in size and the angle at most 7,000,000. With C and S the computed cosine and sine,
/// 10^18 times, each side goes from the floor of the speed times C (or S) over 10^18, less 1, to the ceiling, plus 1.
/// The box holds each whole velocity that is within 1, in both coordinates, of the speed times the power series of
/// the cosine up to the 40th power and of the sine up to the 39th.
pub fn velocity_box(speed: i64, angle: i64) -> VBox
    requires speed { SizeAtMost MOST_SPEED speed }
    requires angle { SizeAtMost MOST_ANGLE angle }

    // Exactly the numbers of the two series.
    ensures value { result ≡ start_box speed angle }

    // Each velocity within 1 of the exact polynomials lies in the box.
    ensures holds { (vx vy : ℤ) → IsStartVelocity speed angle vx vy → InBox result (record { x = vx; y = vy }) }

    // At most four whole numbers a side.
    ensures x_narrow { (result.xhi -ℤ result.xlo) ≤ℤ pos 3 }
    ensures y_narrow { (result.yhi -ℤ result.ylo) ≤ℤ pos 3 }
    ensures range { IsBoxWithin 400_002 result }
{
    let x = side(speed, cosine_of(angle));
    let y = side(speed, sine_of(angle));
    VBox {
        xlo: x.lo,
        xhi: x.hi,
        ylo: y.lo,
        yhi: y.hi,
    }
}

/// The least whole speed, in mm/s, whose square is at least x² + y² for every velocity of the box.
///
/// The box's ends are in order, and at most 1,000,000 in size.
pub fn start_speed(b: &VBox) -> u64
    requires { IsBoxWithin 1_000_000 b.now }
    ensures least { IsStartSpeed b.now result }
    ensures small { IsBoxWithin 400_002 b.now → result ≤ 900_000 }
{
    let x = b.xlo.unsigned_abs().max(b.xhi.unsigned_abs()) as u128;
    let y = b.ylo.unsigned_abs().max(b.yhi.unsigned_abs()) as u128;
    isqrt_ceil(x * x + y * y)
}
