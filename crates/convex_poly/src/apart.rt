//! Whether two hulls have no common point: whether one of the ways from a point of the second to a point of the first has
//! all others on its left side, or in its direction.
ghost use Rattle.std.specs.Prelude.{◌≡◌, ◌↔◌, ◌<◌, IsTrue, length};
ghost use Rattle.std.specs.List.{AllByRecursion};
ghost use Rattle.spot_terms.specs.Lists.{Includes};
ghost use Rattle.spot_terms.specs.declared.plain.Pt.{Pt as Point};
ghost use Rattle.convex_poly.specs.Pivots.{AreDisjoint, AreLeftwards, IsLeftwards, LeansTo};
ghost use Rattle.convex_poly.specs.Vectors.{minus, IsVector};
ghost use Rattle.convex_poly.specs.Polygons.{IsPosition};

use crate::plane::{inner_product, minus, turn};
use spot_terms::Pt;

/// Whether no fraction point is in both hulls.
pub(crate) fn are_disjoint(a: &[Pt], b: &[Pt]) -> bool
    requires a_some { 0 < length a.now }
    requires b_some { 0 < length b.now }
    requires a_in { AllByRecursion IsPosition a.now }
    requires b_in { AllByRecursion IsPosition b.now }
    ensures { IsTrue result ↔ AreDisjoint a.now b.now }
{
    let vector = rightmost(a, b);
    are_all_left(&vector, a, b)
}

/// A vector from a point of `b` to a point of `a` that none of the others is right of, where all are on one side of a line.
fn rightmost(a: &[Pt], b: &[Pt]) -> Pt
    requires a_some { 0 < length a.now }
    requires b_some { 0 < length b.now }
    requires a_in { AllByRecursion IsPosition a.now }
    requires b_in { AllByRecursion IsPosition b.now }
    ensures size { IsVector result }
    ensures right { (v : Point) → ((p : Point) → Includes a.now p → AreLeftwards v p b.now) → (p : Point) → Includes a.now p → AreLeftwards result p b.now }
{
    let mut vector = minus(&a[0], &b[0]);
    for p in a {
        vector = rightmost_to(vector, p, b);
    }
    vector
}

/// `from`, or the first of the ways from a point of `b` to `p` that is right of all before.
fn rightmost_to(from: Pt, p: &Pt, b: &[Pt]) -> Pt
    requires from_in { IsVector from }
    requires p_in { IsPosition p.now }
    requires b_in { AllByRecursion IsPosition b.now }
    ensures size { IsVector result }
    ensures leans { (v : Point) → IsLeftwards v from → AreLeftwards v p.now b.now → LeansTo v from result (λ s. (q : Point) × Includes b.now q × (s ≡ minus p.now q)) }
{
    let mut vector = from;
    for q in b {
        let next = minus(p, q);
        if turn(&vector, &next) < 0 {
            vector = next;
        }
    }
    vector
}

/// Whether all ways from a point of `b` to a point of `a` are left of `vector`, or in its direction.
fn are_all_left(vector: &Pt, a: &[Pt], b: &[Pt]) -> bool
    requires vector_in { IsVector vector.now }
    requires a_in { AllByRecursion IsPosition a.now }
    requires b_in { AllByRecursion IsPosition b.now }
    ensures { IsTrue result ↔ ((p : Point) → Includes a.now p → AreLeftwards vector.now p b.now) }
{
    for p in a {
        if !are_left(vector, p, b) {
            return false;
        }
    }
    true
}

/// Whether all ways from a point of `b` to `p` are left of `vector`, or in its direction.
fn are_left(vector: &Pt, p: &Pt, b: &[Pt]) -> bool
    requires vector_in { IsVector vector.now }
    requires p_in { IsPosition p.now }
    requires b_in { AllByRecursion IsPosition b.now }
    ensures { IsTrue result ↔ AreLeftwards vector.now p.now b.now }
{
    for q in b {
        if !is_leftwards(vector, &minus(p, q)) {
            return false;
        }
    }
    true
}

/// Whether `other` is left of `vector`, or in its direction.
fn is_leftwards(vector: &Pt, other: &Pt) -> bool
    requires vector_in { IsVector vector.now }
    requires other_in { IsVector other.now }
    ensures { IsTrue result ↔ IsLeftwards vector.now other.now }
{
    let side = turn(vector, other);
    side > 0 || (side == 0 && inner_product(vector, other) > 0)
}
