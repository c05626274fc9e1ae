//! The portals at the ends of lanelets.

ghost use Rattle.std.specs.Prelude.{◌≡◌, ◌<◌, ◌-◌, ℕ, length, Some};
ghost use Rattle.spot_terms.specs.Cells.{pt_of, same_pt, same_portal, portal_at as portal_of, first_portal as first_of, last_portal as last_of};
ghost use Rattle.spot_terms.specs.Ranges.{IsLaneInRange};
ghost use Rattle.lanelets.specs.Pieces.{AreNear};

use spot_terms::{Pt, RawLane};

// A point of a bound.
fn point_of(p: (i64, i64)) -> Pt
    ensures { result ≡ pt_of p }
{
    Pt { x: p.0, y: p.1 }
}

// The portal between the points at a place of the bounds.
fn portal_at(lane: &RawLane, k: usize) -> (Pt, Pt)
    requires range { IsLaneInRange lane.now }
    requires within { k < length lane.now.left }
    ensures is { (id : ℕ) → portal_of (id, lane.now) k ≡ Some result }
    ensures near { AreNear result }
{
    let left = lane.left.list();
    let right = lane.right.list();
    (point_of(left[k]), point_of(right[k]))
}

/// The portal at which a lanelet begins.
pub(crate) fn first_portal(lane: &RawLane) -> (Pt, Pt)
    requires { IsLaneInRange lane.now }
    ensures is { (id : ℕ) → first_of (id, lane.now) ≡ Some result }
    ensures near { AreNear result }
{
    portal_at(lane, 0)
}

/// The portal at which a lanelet ends.
pub(crate) fn last_portal(lane: &RawLane) -> (Pt, Pt)
    requires { IsLaneInRange lane.now }
    ensures is { (id : ℕ) → last_of (id, lane.now) ≡ Some result }
    ensures near { AreNear result }
{
    portal_at(lane, lane.left.list().len() - 1)
}

// Whether two points are the same.
fn is_same_point(p: Pt, q: Pt) -> bool
    ensures { result ≡ same_pt p q }
{
    p.x == q.x && p.y == q.y
}

/// Whether two portals are the same, left with left and right with right.
pub(crate) fn is_same_portal(p: (Pt, Pt), q: (Pt, Pt)) -> bool
    ensures { result ≡ same_portal (Some p) (Some q) }
{
    is_same_point(p.0, q.0) && is_same_point(p.1, q.1)
}
