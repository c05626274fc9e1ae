//! How far the polygons of a step reach in the next one.

ghost use Rattle.std.specs.Prelude.{◌≡◌, ◌≤◌, pos, nat_abs};
ghost use Rattle.std.specs.List.{AllByRecursion};
ghost use Rattle.spot_terms.specs.ChildNumbers as numbers;
ghost use Rattle.spot_terms.specs.Frames.{IsFrameInOrder, IsFrameInRange};
ghost use Rattle.spot_terms.specs.Whole.{Within};
ghost use Rattle.propagate.specs.Children.{IsStepPoint};
ghost use Rattle.propagate.specs.Growing.{AreGrowths, GrowthsBoundSteps};

use crate::ways::ways_of;
use convex_poly::Poly;
use round_out::FrameNumbers;

/// A law: what the child numbers add for a step bounds what the ticks of a step can add. From one state of a coordinate
/// to the one `k` ticks later, with accelerations of at most `a` in size, the value along each frame normal is at most
/// the growth past the value that the speed alone leads to.
pub fn growths_bound_steps()
    ensures { GrowthsBoundSteps }
{}

/// The greatest numbers along the frame normals that a step of `k` ticks from the polygon can reach, with accelerations
/// of at most `a` in size, in m/s². They are in order.
///
/// Places are at most 3·10^13 and speeds at most 900,000 in size, `a` is from 1 to 20 and `k` from 1 to 1000.
pub fn child_numbers(p: &Poly, a: i64, k: i64) -> FrameNumbers
    requires near { AllByRecursion IsStepPoint p.now }
    requires acceleration { Within (pos 1) (pos 20) a }
    requires ticks { Within (pos 1) (pos 1000) k }
    ensures exact { result.n ≡ numbers.child_numbers a (nat_abs k) p.now }
    ensures order { IsFrameInOrder k result.n }
    ensures range { IsFrameInRange result.n }
{
    let ways = ways_of(p.corners(), k);
    let growths = growths_of(a as u64, k as u64);
    FrameNumbers {
        n: [
            ways.speed.greatest + growths.speed,
            ways.next.greatest + growths.place,
            ways.both.greatest + growths.double,
            ways.place.greatest + growths.place,
            growths.speed - ways.speed.least,
            growths.place - ways.next.least,
            growths.double - ways.both.least,
            growths.place - ways.place.least,
        ],
    }
}

/// What the accelerations and the rounding of a step can add: to a speed, to a place or along (1, -k), and along (2, -k).
#[derive(Clone, Copy)]
struct Growths {
    speed: i64,
    place: i64,
    double: i64,
}

/// The growths of a step of `k` ticks with accelerations of at most `a` in size.
fn growths_of(a: u64, k: u64) -> Growths
    requires acceleration { a ≤ 20 }
    requires ticks { k ≤ 1000 }
    ensures { AreGrowths a k result }
{
    let square = k * k;
    Growths {
        speed: (k * a) as i64,
        place: ((square * a + k) / 2) as i64,
        double: (a * (square / 2) + k) as i64,
    }
}
