//! Convex polygons by their corners.

ghost use Rattle.std.specs.Prelude.{List};
ghost use Rattle.convex_poly.specs.Polygons.{IsPolygon};
ghost use Rattle.spot_terms.specs.declared.plain.Pt.{Pt as Point};

use crate::boxes::BoundingBox;
use crate::hulls::put_corners;
use crate::segments::put_ends;
use crate::sums::put_sum_corners;
use arrayvec::ArrayVec;
use spot_terms::Pt;
use std::marker::Model;

/// A strictly convex polygon of 1 to 20 whole corners, each coordinate at most 4·10^13 in size, counter-clockwise from the
/// corner of least x, then least y. A point has one corner, a segment two.
#[derive(Drop)]
pub struct Poly {
    corners: ArrayVec<Pt, 20>,
}

impl Model for Poly {
    ghost Value = { List Point };

    ghost view = { λ p. p.corners.items };

    ghost invariant = { λ p. IsPolygon p.corners.items };
}

impl Poly {
    ghost use Rattle.std.specs.Prelude.{◌≡◌, ◌↔◌, IsTrue};
    ghost use Rattle.spot_terms.specs.Hull.{InHull, IsSupport};
    ghost use Rattle.spot_terms.specs.Whole.{SizeAtMost};
    ghost use Rattle.convex_poly.specs.Pivots.{AreDisjoint};
    ghost use Rattle.convex_poly.specs.Boxes.{IsBoxOf};
    ghost use Rattle.convex_poly.specs.Runs.{IsInRows, IsRun};

    /// The corners in order.
    pub fn corners(&self) -> &[Pt]
        ensures items { result.now ≡ self.now }
        ensures polygon { IsPolygon self.now }
    {
        self.corners.as_slice()
    }

    /// An equal polygon.
    pub fn copy(&self) -> Poly
        ensures { result ≡ self.now }
    {
        let mut corners = ArrayVec::new();
        for corner in self.corners.as_slice() {
            corners.push(*corner);
        }
        Poly { corners }
    }

    /// Whether the point lies in the polygon: whether it is a mean of the corners with whole weights.
    pub fn contains(&self, p: Pt) -> bool
        ensures { IsTrue result ↔ InHull self.now p }
    {
        let corners = self.corners();
        is_position(p) && crate::inside::is_inside(corners, &p)
    }

    /// The least box along the axes that holds the polygon.
    pub fn bounding_box(&self) -> BoundingBox
        ensures { IsBoxOf self.now result }
    {
        BoundingBox::of(self.corners())
    }

    /// The support in the direction (`nx`, `ny`): the greatest nx·x + ny·y of the points of the polygon, which a corner
    /// reaches. Both are at most 2,000 in size.
    pub fn support(&self, nx: i64, ny: i64) -> i64
        requires nx { SizeAtMost 2_000 nx }
        requires ny { SizeAtMost 2_000 ny }
        ensures { IsSupport self.now nx ny result }
    {
        crate::support::greatest_along(self.corners(), nx, ny)
    }

    /// The least and the greatest whole x with (x, `y0`) and (x, `y1`) both in the polygon; all between are in it too.
    /// `None` exactly where there is none. Both rows are at most 4·10^13 in size.
    pub fn run(&self, y0: i64, y1: i64) -> Option<(i64, i64)>
        requires y0 { SizeAtMost 40_000_000_000_000 y0 }
        requires y1 { SizeAtMost 40_000_000_000_000 y1 }
        ensures { IsRun (IsInRows self.now y0 y1) result }
    {
        crate::runs::run_of(self.corners(), y0, y1)
    }

    /// Whether no fraction point is in both polygons.
    pub fn disjoint(&self, other: &Poly) -> bool
        ensures { IsTrue result ↔ AreDisjoint self.now other.now }
    {
        crate::apart::are_disjoint(self.corners(), other.corners())
    }
}

ghost use Rattle.std.specs.Prelude.{◌↔◌, ◌<◌, ◌≤◌, ◌+◌, [], ◌∷◌, length, IsTrue};
ghost use Rattle.std.specs.List.{AllByRecursion};
ghost use Rattle.spot_terms.specs.Hull.{IsHullOf};
ghost use Rattle.spot_terms.specs.LanePolygons.{sums};
ghost use Rattle.convex_poly.specs.Polygons.{IsPosition, IsSummand};

/// Whether the coordinates of a point are at most 4·10^13 in size, as those of all points of polygons are.
pub(crate) fn is_position(p: Pt) -> bool
    ensures { IsTrue result ↔ IsPosition p }
{
    p.x.unsigned_abs() <= 40_000_000_000_000 && p.y.unsigned_abs() <= 40_000_000_000_000
}

/// The polygon of the hull of 1 to 64 points, where the hull has at most 20 corners.
pub fn hull(points: &[Pt]) -> Poly
    requires some { 0 < length points.now }
    requires few { length points.now ≤ 64 }
    requires positions { AllByRecursion IsPosition points.now }
    requires few_corners { (corners : List Point) → IsHullOf points.now corners → length corners ≤ 20 }
    ensures { IsHullOf points.now result }
{
    let mut corners = ArrayVec::new();
    put_corners(&mut corners, points);
    Poly { corners }
}

/// The polygon of the hull of 1 to 20 points. It has no more corners than there are points.
pub fn hull_of_few(points: &[Pt]) -> Poly
    requires some { 0 < length points.now }
    requires few { length points.now ≤ 20 }
    requires positions { AllByRecursion IsPosition points.now }
    ensures hull { IsHullOf points.now result }
    ensures few { length result ≤ length points.now }
{
    hull(points)
}

/// The polygon of the hull of two points: the segment between them, or the one point that both are.
pub fn segment(p: Pt, q: Pt) -> Poly
    requires p_in { IsPosition p }
    requires q_in { IsPosition q }
    ensures { IsHullOf (p ∷ q ∷ []) result }
{
    let mut corners = ArrayVec::new();
    put_ends(&mut corners, &p, &q);
    Poly { corners }
}

/// The polygon of all sums of a point of the one polygon and a point of the other (their Minkowski sum). The two have at most
/// 20 corners together, each coordinate at most 2·10^13 in size.
pub fn sum_hull(a: &Poly, b: &Poly) -> Poly
    requires few { length a.now + length b.now ≤ 20 }
    requires a_near { AllByRecursion IsSummand a.now }
    requires b_near { AllByRecursion IsSummand b.now }
    ensures { IsHullOf (sums a.now b.now) result }
{
    let mut corners = ArrayVec::new();
    put_sum_corners(&mut corners, a.corners(), b.corners());
    Poly { corners }
}
