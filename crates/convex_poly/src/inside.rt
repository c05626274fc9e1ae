//! Whether a point is in the hull of the corners of a polygon.
ghost use Rattle.std.specs.Prelude.{◌≡◌, ◌<◌, ◌↔◌, IsTrue, length};
ghost use Rattle.std.specs.List.{AllByRecursion};
ghost use Rattle.spot_terms.specs.Hull.{InHull};
ghost use Rattle.convex_poly.specs.Polygons.{IsPolygon, IsPosition};
ghost use Rattle.convex_poly.specs.Turns.{EdgesLeft, ClosingLeft, IsOn};

use crate::plane::{cross, inner};
use spot_terms::Pt;

/// Whether `p` is in the hull of the corners.
pub(crate) fn is_inside(corners: &[Pt], p: &Pt) -> bool
    requires polygon { IsPolygon corners.now }
    requires p_in { IsPosition p.now }
    ensures { IsTrue result ↔ InHull corners.now p.now }
{
    match corners {
        [] => false,
        [only] => is_same(only, p),
        [from, to] => is_on(from, to, p),
        _ => is_left_of_edges(corners, p),
    }
}

/// Whether `p` is on the segment between the two points.
fn is_on(from: &Pt, to: &Pt, p: &Pt) -> bool
    requires from_in { IsPosition from.now }
    requires to_in { IsPosition to.now }
    requires p_in { IsPosition p.now }
    ensures { IsTrue result ↔ IsOn from.now to.now p.now }
{
    cross(from, to, p) == 0 && inner(from, to, p) >= 0 && inner(to, from, p) >= 0
}

/// Whether `p` is left of each edge, or on it.
fn is_left_of_edges(corners: &[Pt], p: &Pt) -> bool
    requires some { 0 < length corners.now }
    requires positions { AllByRecursion IsPosition corners.now }
    requires p_in { IsPosition p.now }
    ensures { IsTrue result ↔ EdgesLeft corners.now p.now × ClosingLeft corners.now p.now }
{
    for i in 1..corners.len() {
        if cross(&corners[i - 1], &corners[i], p) < 0 {
            return false;
        }
    }
    cross(&corners[corners.len() - 1], &corners[0], p) >= 0
}

/// Whether the two are one point.
pub(crate) fn is_same(a: &Pt, b: &Pt) -> bool
    ensures { IsTrue result ↔ a.now ≡ b.now }
{
    *a == *b
}
