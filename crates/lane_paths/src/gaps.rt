//! The gap of two convex polygons.

ghost use Rattle.std.specs.Prelude.{◌≡◌, ◌↔◌, ◌<◌, ◌≤◌, ◌+◌, ◌*◌, ◌++◌, ℕ, IsTrue, List, length};
ghost use Rattle.spot_terms.specs.Gaps.{AreFar, IsFarFrom, IsGap};
ghost use Rattle.spot_terms.specs.Lists.{Includes};
ghost use Rattle.spot_terms.specs.declared.plain.Pt.{Pt as Point};
ghost use Rattle.convex_poly.specs.Pivots.{AreDisjoint, differences as differences_of, each_minus};
ghost use Rattle.convex_poly.specs.Vectors.{minus, IsShort};
ghost use Rattle.convex_poly.specs.Boxes.{IsBoxOf};
ghost use Rattle.lane_paths.specs.GapBounds.{IsGapBound};
ghost use Rattle.lane_paths.specs.Clearances.{IsLeastClearance};

use crate::clearances::least_clearance;
use arrayvec::ArrayVec;
use convex_poly::plane::short_minus;
use convex_poly::{BoundingBox, Poly};
use spot_num::isqrt_floor;
use spot_terms::Pt;

/// A kilometre in µm.
const KILOMETRE: u64 = 1_000_000_000;

/// The gap of two polygons: the greatest whole number that is at most the distance of each two of their points, in µm.
/// It is 0 where they have a common point, and where a corner of the one and a corner of the other differ by more than
/// a kilometre in a coordinate.
pub fn gap(a: &Poly, b: &Poly) -> u64
    ensures { IsGap a.now b.now result }
{
    let a_corners = a.corners();
    let b_corners = b.corners();
    let a_box = BoundingBox::of(a_corners);
    let b_box = BoundingBox::of(b_corners);
    if are_far(&a_box, &b_box) || !are_apart(a, b, &a_box, &b_box) {
        return 0;
    }
    isqrt_floor(clearance_between(a_corners, b_corners))
}

/// Whether two polygons, with their boxes, have no common point. Where the boxes have none, there is no need to look at the
/// corners.
fn are_apart(a: &Poly, b: &Poly, a_box: &BoundingBox, b_box: &BoundingBox) -> bool
    requires a_in { IsBoxOf a.now a_box.now }
    requires b_in { IsBoxOf b.now b_box.now }
    ensures { IsTrue result ↔ AreDisjoint a.now b.now }
{
    a_box.beside(b_box) > 0 || a.disjoint(b)
}

/// At most the gap of the hulls of some points: how far their boxes lie beside each other, in µm, and 0 where points are
/// far from each other.
pub(crate) fn gap_at_least(a: &[Pt], b: &[Pt]) -> u64
    requires a_some { 0 < length a.now }
    requires b_some { 0 < length b.now }
    ensures bound { IsGapBound a.now b.now result }
    ensures least { (g : ℕ) → IsGap a.now b.now g → result ≤ g }
{
    let a_box = BoundingBox::of(a);
    let b_box = BoundingBox::of(b);
    if are_far(&a_box, &b_box) {
        0
    } else {
        a_box.beside(&b_box)
    }
}

/// The least clearance of the vectors from each point of `b` to each point of `a`, none of which are far from each other. Most
/// lists have few points, and a long list of vectors costs time even where it is hardly filled.
fn clearance_between(a: &[Pt], b: &[Pt]) -> u128
    requires a_some { 0 < length a.now }
    requires b_some { 0 < length b.now }
    requires a_few { length a.now ≤ 20 }
    requires b_few { length b.now ≤ 20 }
    requires near { AreFar a.now b.now → ⊥ }
    ensures is { IsLeastClearance (differences_of a.now b.now) result }
    ensures within { result ≤ 2_000_000_000_000_000_000 }
{
    if a.len() * b.len() <= 16 {
        clearance_of_at_most::<16>(a, b)
    } else {
        clearance_of_at_most::<400>(a, b)
    }
}

/// The same, of at most `N` vectors.
fn clearance_of_at_most<const N: usize>(a: &[Pt], b: &[Pt]) -> u128
    requires a_some { 0 < length a.now }
    requires b_some { 0 < length b.now }
    requires room { length a.now * length b.now ≤ N }
    requires most { N ≤ 400 }
    requires near { AreFar a.now b.now → ⊥ }
    ensures is { IsLeastClearance (differences_of a.now b.now) result }
    ensures within { result ≤ 2_000_000_000_000_000_000 }
{
    let mut vectors = ArrayVec::<Pt, N>::new();
    for p in a {
        push_differences(&mut vectors, p, b);
    }
    least_clearance(vectors.as_slice())
}

/// Adds the vectors from each point of `b` to `p` at the end.
fn push_differences<const N: usize>(vectors: &mut ArrayVec<Pt, N>, p: &Pt, b: &[Pt])
    requires room { length vectors.old.items + length b.now ≤ N }
    requires near { (q : Point) → Includes b.now q → IsShort (minus p.now q) }
    ensures { vectors.new.items ≡ vectors.old.items ++ each_minus p.now b.now }
{
    for q in b {
        vectors.push(short_minus(p, q));
    }
}

/// Whether some of the points in the one box are far from some in the other.
fn are_far(a_box: &BoundingBox, b_box: &BoundingBox) -> bool
    ensures { (a b : List Point) → IsBoxOf a a_box.now → IsBoxOf b b_box.now → (IsTrue result ↔ AreFar a b) }
{
    is_far(&a_box.high, &b_box.low) || is_far(&b_box.high, &a_box.low)
}

/// Whether the two differ by more than a kilometre in a coordinate.
fn is_far(p: &Pt, q: &Pt) -> bool
    ensures { IsTrue result ↔ IsFarFrom p.now q.now }
{
    p.x.abs_diff(q.x) > KILOMETRE || p.y.abs_diff(q.y) > KILOMETRE
}
