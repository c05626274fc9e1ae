//! The children of the polygons of a base set.

ghost use Rattle.std.specs.Prelude.{◌≡◌, ℤ, ◌≤◌, pos, nat_abs, IfSome, length};
ghost use Rattle.std.specs.List.{AllByRecursion};
ghost use Rattle.spot_terms.specs.ChildNumbers as numbers;
ghost use Rattle.spot_terms.specs.StepLists.{IsFrameOf};
ghost use Rattle.spot_terms.specs.Whole.{SizeAtMost, Within};
ghost use Rattle.base_sets.specs.Values.{AreBounds, AreTicks, IsBox, course_with, rect_of_box, value_of};
ghost use Rattle.base_sets.specs.declared.ego.EgoStart.{EgoStart as Start};
ghost use Rattle.base_sets.specs.declared.grid.Grid.{Grid as AnyGrid};
ghost use Rattle.propagate.specs.Children.{AreChildren, HoldsFrame, HoldsNext, HoldsPlane, IsChildIn, IsPlaneChild, IsStepPoint};

use crate::numbers::child_numbers;
use base_sets::{BaseSet, EgoBounds, OuterBox};
use convex_poly::Poly;
use round_out::{frame_poly, part_between, slow_part};

/// The polygons that a step of `k` ticks makes of those of a set: the frames of their child numbers, clipped to the
/// greatest speed and to the box. `None` exactly where a clip of one of them leaves nothing.
///
/// They hold each state in the box that the ego can be in a step after a state of the set. The places of the set are at
/// most 3·10^13 and its speeds at most 900,000 in size, and `k` is from 1 to 1000. Each of the two has at most 16 corners,
/// all in the box and no faster than the ego may be.
pub fn child(b: &BaseSet, e: &EgoBounds, k: u32, o: &OuterBox) -> Option<(Poly, Poly)>
    requires x { AllByRecursion IsStepPoint b.now.x }
    requires y { AllByRecursion IsStepPoint b.now.y }
    requires bounds { AreBounds e.now }
    requires ticks { AreTicks k }
    requires reach { IsBox o.now }
    ensures exact { (s : Start) (grid : AnyGrid) → AreChildren (course_with s e.now grid k) (rect_of_box o.now) (value_of b.now) result }
    ensures holds { (s : Start) (grid : AnyGrid) → HoldsNext (course_with s e.now grid k) (rect_of_box o.now) (value_of b.now) result }
    ensures x_in { IfSome result (λ c. IsChildIn o.now.xlo o.now.xhi e.now.v c.0) }
    ensures y_in { IfSome result (λ c. IsChildIn o.now.ylo o.now.yhi e.now.v c.1) }
{
    match plane_child(&b.x, e, k, o.xlo, o.xhi) {
        Some(x) => match plane_child(&b.y, e, k, o.ylo, o.yhi) {
            Some(y) => Some((x, y)),
            None => None,
        },
        None => None,
    }
}

/// The child of one polygon, in a plane whose box has the places from `lo` to `hi`, as `child` has it of both.
pub fn plane_child(p: &Poly, e: &EgoBounds, k: u32, lo: i64, hi: i64) -> Option<Poly>
    requires near { AllByRecursion IsStepPoint p.now }
    requires bounds { AreBounds e.now }
    requires ticks { AreTicks k }
    requires low { SizeAtMost 40_000_000_000_000 lo }
    requires high { SizeAtMost 40_000_000_000_000 hi }
    ensures exact { (s : Start) (grid : AnyGrid) → IsPlaneChild (course_with s e.now grid k) lo hi p.now result }
    ensures holds { (s : Start) (grid : AnyGrid) → HoldsPlane (course_with s e.now grid k) lo hi p.now result }
    ensures within { IfSome result (IsChildIn lo hi e.now.v) }
{
    match slow_part(&child_frame(p, e.a, k), e.v) {
        Some(slow) => part_between(&slow, lo, hi),
        None => None,
    }
}

/// The frame of the child numbers of a polygon. It holds what a step leads to from each state of the polygon.
fn child_frame(p: &Poly, a: i64, k: u32) -> Poly
    requires near { AllByRecursion IsStepPoint p.now }
    requires acceleration { Within (pos 1) (pos 20) a }
    requires ticks { AreTicks k }
    ensures frame { IsFrameOf k (numbers.child_numbers a k p.now) result }
    ensures holds { HoldsFrame (nat_abs a) k p.now result }
    ensures few { length result ≤ 12 }
{
    let ticks = i64::from(k);
    frame_poly(&child_numbers(p, a, ticks), ticks)
}
