//! The corners of the hull of some points.
ghost use Rattle.std.specs.Prelude.{◌≡◌, ◌<◌, ◌≤◌, ◌+◌, ◌++◌, List, length};
ghost use Rattle.std.specs.List.{AllByRecursion};
ghost use Rattle.spot_terms.specs.Hull.{IsHullOf};
ghost use Rattle.spot_terms.specs.declared.plain.Pt.{Pt as Point};
ghost use Rattle.convex_poly.specs.Chains.{between_ends};
ghost use Rattle.convex_poly.specs.Polygons.{IsPosition};

use crate::chain::put_chain;
use crate::sorting::{put_distinct, put_sorted};
use arrayvec::ArrayVec;
use spot_terms::Pt;

/// Puts the corners of the hull into `corners`, in place of what is there: the points in order, a chain there on the
/// right side and a chain back on the left side.
pub(crate) fn put_corners(corners: &mut ArrayVec<Pt, 20>, points: &[Pt])
    requires some { 0 < length points.now }
    requires few { length points.now ≤ 64 }
    requires positions { AllByRecursion IsPosition points.now }
    requires few_corners { (corners : List Point) → IsHullOf points.now corners → length corners ≤ 20 }
    ensures { IsHullOf points.now corners.new.items }
{
    let mut ordered = ArrayVec::new();
    let mut there = ArrayVec::<Pt, 64>::new();
    let mut back = ArrayVec::new();
    // the sorted points stand where the chain back will
    put_sorted(&mut back, points);
    put_distinct(&mut ordered, back.as_slice());
    put_chain(&mut there, ordered.as_slice());
    ordered.as_mut_slice().reverse();
    put_chain(&mut back, ordered.as_slice());
    put_joined(corners, there.as_slice(), back.as_slice());
}

/// Puts the points of the chain there into `corners`, in place of what is there, and behind them those of the chain
/// back without its ends, which the first has.
pub(crate) fn put_joined(corners: &mut ArrayVec<Pt, 20>, there: &[Pt], back: &[Pt])
    requires { length (there.now ++ between_ends back.now) ≤ 20 }
    ensures { corners.new.items ≡ there.now ++ between_ends back.now }
{
    corners.clear();
    push_all(corners, there);
    push_all(corners, without_ends(back));
}

/// The points without the first and the last.
fn without_ends(points: &[Pt]) -> &[Pt]
    ensures { result.now ≡ between_ends points.now }
{
    match points {
        [_, between @ .., _] => between,
        _ => &[],
    }
}

/// Adds the points at the end.
pub(crate) fn push_all(corners: &mut ArrayVec<Pt, 20>, points: &[Pt])
    requires { length corners.old.items + length points.now ≤ 20 }
    ensures { corners.new.items ≡ corners.old.items ++ points.now }
{
    for p in points {
        corners.push(*p);
    }
}
