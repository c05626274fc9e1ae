//! The corners of the hull of all sums of two polygons, by merging their edges by direction.
ghost use Rattle.std.specs.Prelude.{◌≡◌, ◌<◌, ◌≤◌, ◌+◌, ◌↔◌, ◌++◌, ℤ, List, drop, take, IsTrue, length};
ghost use Rattle.std.specs.List.{AllByRecursion};
ghost use Rattle.spot_terms.specs.Hull.{IsCornerList, IsHullOf};
ghost use Rattle.spot_terms.specs.LanePolygons.{add_pt, sums};
ghost use Rattle.spot_terms.specs.declared.plain.Pt.{Pt as Point};
ghost use Rattle.convex_poly.specs.Polygons.{IsPosition, IsSummand};
ghost use Rattle.convex_poly.specs.Sums.{GoesFirst, IsPart, IsSumPath, IsSumSide, IsTop};

use crate::chain::put_chain;
use crate::hulls::{push_all, put_joined};
use crate::plane::{minus, turn};
use crate::segments::is_before;
use arrayvec::ArrayVec;
use spot_terms::Pt;

/// Puts the corners of the hull of all sums into `corners`, in place of what is there: a chain there of the parts of the
/// two up to the corner that comes last, and a chain back of the parts from there.
pub(crate) fn put_sum_corners(corners: &mut ArrayVec<Pt, 20>, a: &[Pt], b: &[Pt])
    requires a_corners { IsCornerList a.now }
    requires b_corners { IsCornerList b.now }
    requires a_in { AllByRecursion IsSummand a.now }
    requires b_in { AllByRecursion IsSummand b.now }
    requires few { length a.now + length b.now ≤ 20 }
    ensures hull { IsHullOf (sums a.now b.now) corners.new.items }
    ensures few { length corners.new.items ≤ 20 }
{
    let a_top = top_of(a);
    let b_top = top_of(b);
    let mut there = ArrayVec::new();
    put_side(&mut there, &a[..a_top + 1], &b[..b_top + 1]);
    let mut a_back = ArrayVec::new();
    put_part_back(&mut a_back, a, a_top);
    let mut b_back = ArrayVec::new();
    put_part_back(&mut b_back, b, b_top);
    let mut back = ArrayVec::new();
    put_side(&mut back, a_back.as_slice(), b_back.as_slice());
    put_joined(corners, there.as_slice(), back.as_slice());
}

/// The place of the corner that comes last.
fn top_of(corners: &[Pt]) -> usize
    requires convex { IsCornerList corners.now }
    requires positions { AllByRecursion IsSummand corners.now }
    ensures { IsTop corners.now result }
{
    let mut top = 0;
    while top + 1 < corners.len() && is_before(&corners[top], &corners[top + 1]) {
        top += 1;
    }
    top
}

/// Puts the corners from the one that comes last, and the first one again, into `part`, in place of what is there.
fn put_part_back(part: &mut ArrayVec<Pt, 20>, corners: &[Pt], top: usize)
    requires inside { top < length corners.now }
    requires few { length corners.now ≤ 20 }
    ensures one { top ≡ 0 → part.new.items ≡ corners.now }
    ensures more { 0 < top → part.new.items ≡ drop top corners.now ++ take 1 corners.now }
{
    part.clear();
    push_all(part, &corners[top..]);
    if top > 0 {
        part.push(corners[0]);
    }
}

/// Puts the chain of all sums on one side into `chain`, in place of what is there, from the parts of two polygons on that
/// side.
fn put_side(chain: &mut ArrayVec<Pt, 20>, a: &[Pt], b: &[Pt])
    requires a_some { 0 < length a.now }
    requires b_some { 0 < length b.now }
    requires few { length a.now + length b.now ≤ 20 }
    requires a_in { AllByRecursion IsSummand a.now }
    requires b_in { AllByRecursion IsSummand b.now }
    ensures { (kx ky : ℤ) (us vs : List Point) → IsPart kx ky us a.now → IsPart kx ky vs b.now → IsSumSide kx ky us vs a.now b.now chain.new.items }
{
    let mut path = ArrayVec::new();
    put_path(&mut path, a, b);
    put_chain(chain, path.as_slice());
}

/// Puts the way of the sums into `path`, in place of what is there: from the sum of the first points to that of the last,
/// each time on along the edge that is further to the right.
fn put_path(path: &mut ArrayVec<Pt, 20>, a: &[Pt], b: &[Pt])
    requires a_some { 0 < length a.now }
    requires b_some { 0 < length b.now }
    requires few { length a.now + length b.now ≤ 20 }
    requires a_in { AllByRecursion IsSummand a.now }
    requires b_in { AllByRecursion IsSummand b.now }
    ensures path { IsSumPath a.now b.now path.new.items }
    ensures positions { AllByRecursion IsPosition path.new.items }
{
    path.clear();
    path.push(sum(&a[0], &b[0]));
    let mut i = 0;
    let mut j = 0;
    while i + 1 < a.len() || j + 1 < b.len() {
        if goes_first(a, b, i, j) {
            i += 1;
        } else {
            j += 1;
        }
        path.push(sum(&a[i], &b[j]));
    }
}

/// Whether the next edge of `a` comes first: where there is one, and that of `b`, if any, is not right of it.
fn goes_first(a: &[Pt], b: &[Pt], i: usize, j: usize) -> bool
    requires i_in { i < length a.now }
    requires j_in { j < length b.now }
    requires a_in { AllByRecursion IsSummand a.now }
    requires b_in { AllByRecursion IsSummand b.now }
    ensures { IsTrue result ↔ GoesFirst a.now b.now i j }
{
    i + 1 < a.len()
        && (j + 1 >= b.len() || turn(&minus(&a[i + 1], &a[i]), &minus(&b[j + 1], &b[j])) >= 0)
}

/// The sum of two points.
fn sum(p: &Pt, q: &Pt) -> Pt
    requires p_in { IsSummand p.now }
    requires q_in { IsSummand q.now }
    ensures value { result ≡ add_pt p.now q.now }
    ensures position { IsPosition result }
{
    Pt {
        x: p.x + q.x,
        y: p.y + q.y,
    }
}
