//! Tests against worked values, and against values of a program that was written apart from this one.
ghost use Rattle.std.specs.Prelude.{◌≡◌, ◌↔◌, ◌<◌, ◌≤◌, IfOk, IsTrue, length};
ghost use Rattle.std.specs.List.{AllByRecursion};
ghost use Rattle.propagate.specs.Children.{IsStepPoint};

use super::*;
use crate::child_rows::{ROWS, Row};
use base_sets::{BaseSet, EgoBounds, OuterBox};
use convex_poly::{Poly, Pt, hull, segment};
use std::alloc::{AllocError, Global};
use std::process::Abort;
use std::test::Fail;

/// Whether a step may be made from each of the corners.
fn are_step_points(corners: &[Pt]) -> bool
    ensures { IsTrue result ↔ AllByRecursion IsStepPoint corners.now }
{
    for corner in corners {
        if !is_step_point(*corner) {
            return false;
        }
    }
    true
}

fn is_step_point(corner: Pt) -> bool
    ensures { IsTrue result ↔ IsStepPoint corner }
{
    corner.x.unsigned_abs() <= 30_000_000_000_000 && corner.y.unsigned_abs() <= 900_000
}

/// The polygon of corners of these places and speeds.
fn polygon_of(
    rt: &impl Abort,
    alloc: Global,
    row: usize,
    pairs: &[(i64, i64)],
) -> Result<Poly, AllocError>
    ensures { IfOk result (λ p. AllByRecursion IsStepPoint p) }
{
    let mut corners = Vec::new(alloc);
    for pair in pairs {
        corners.push(at(pair.0, pair.1))?;
    }
    assert!(rt; !corners.is_empty() && corners.len() <= 20, "row {row}");
    assert!(rt; are_step_points(&corners), "row {row}");
    Ok(hull_of(&corners))
}

/// The hull of at most 20 corners.
fn hull_of(corners: &[Pt]) -> Poly
    requires some { 0 < length corners.now }
    requires few { length corners.now ≤ 20 }
    requires near { AllByRecursion IsStepPoint corners.now }
    ensures { AllByRecursion IsStepPoint result }
{
    hull(corners)
}

/// The corners; none where there is no polygon.
fn corners_of(polygon: &Option<Poly>) -> &[Pt] {
    match polygon {
        Some(p) => p.corners(),
        None => &[],
    }
}

/// Whether corners have these places and speeds.
fn are_corners(corners: &[Pt], pairs: &[(i64, i64)]) -> bool {
    corners.len() == pairs.len()
        && corners
            .iter()
            .zip(pairs)
            .all(|(corner, pair)| corner.x == pair.0 && corner.y == pair.1)
}

#[test]
fn numbers_and_children(rt: HostRuntime) -> Result<(), Fail> {
    for (row, given) in ROWS.iter().enumerate() {
        let p = polygon_of(&rt, rt.alloc(), row, given.corners)?;
        let Row {
            a,
            v,
            k,
            lo,
            hi,
            ..
        } = *given;
        assert!(rt;
            a >= 1 && a <= 20 && v >= 0 && v <= 900_000 && k >= 1 && k <= 1000,
            "row {row}"
        );
        assert!(rt;
            lo.unsigned_abs() <= 40_000_000_000_000 && hi.unsigned_abs() <= 40_000_000_000_000,
            "row {row}"
        );
        assert_eq!(rt;
            child_numbers(&p, a, i64::from(k)).n,
            given.numbers,
            "row {row}"
        );
        let child = plane_child(&p, &EgoBounds { a, v }, k, lo, hi);
        assert!(rt; are_corners(corners_of(&child), given.child), "row {row}");
    }
    Ok(())
}

/// The child of the segment of a standing start in the box of its first step.
#[test]
fn child_polygon_and_clips(rt: HostRuntime) -> Result<(), Fail> {
    let bounds = EgoBounds { a: 8, v: 50_000 };
    let o = OuterBox {
        xlo: -40_100,
        xhi: 40_100,
        ylo: -40_100,
        yhi: 40_100,
    };
    let p = segment(at(0, -1), at(0, 1));
    let numbers = [801, 40_150, 40_200, 40_050, 801, 40_150, 40_200, 40_050];
    assert_eq!(rt; child_numbers(&p, 8, 100).n, numbers);
    let set = BaseSet {
        col: 0,
        row: 0,
        x: segment(at(0, -1), at(0, 1)),
        y: segment(at(0, -1), at(0, 1)),
    };
    let corners = [
        at(-40_100, -801),
        at(-40_050, -801),
        at(150, -399),
        at(40_100, 400),
        at(40_100, 801),
        at(40_050, 801),
        at(-150, 399),
        at(-40_100, -400),
    ];
    match child(&set, &bounds, 100, &o) {
        Some((x, y)) => {
            assert_eq!(rt; x.corners(), corners.as_slice());
            assert_eq!(rt; y.corners(), corners.as_slice());
        }
        None => assert!(rt; false),
    }
    Ok(())
}

fn at(x: i64, y: i64) -> Pt
    ensures px { result.x ≡ x }
    ensures py { result.y ≡ y }
{
    Pt { x, y }
}
