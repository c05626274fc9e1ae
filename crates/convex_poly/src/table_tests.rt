//! Tables of polygons, whose expected values come from a program that was written apart from this one.
ghost use Rattle.std.specs.Prelude.{◌↔◌, ◌<◌, ◌≤◌, IsTrue, length};
ghost use Rattle.std.specs.List.{AllByRecursion};
ghost use Rattle.spot_terms.specs.Hull.{IsHullOf};
ghost use Rattle.spot_terms.specs.Whole.{SizeAtMost};
ghost use Rattle.convex_poly.specs.Polygons.{IsPosition};

use super::*;
use crate::hull_rows::HULLS;
use crate::poly::is_position;
use crate::polygon_rows::{APART, INSIDE, RUNS, SUPPORTS};
use std::process::Abort;
use std::test::Fail;

/// Whether the number is at most `most` in size.
fn has_size_at_most(number: i64, most: u64) -> bool
    ensures { IsTrue result ↔ SizeAtMost most number }
{
    number.unsigned_abs() <= most
}

/// Whether each point is a position.
fn are_positions(points: &[Pt]) -> bool
    ensures { IsTrue result ↔ AllByRecursion IsPosition points.now }
{
    for p in points {
        if !is_position(*p) {
            return false;
        }
    }
    true
}

/// The polygon of the points of a row.
fn polygon_of(rt: &impl Abort, row: usize, points: &[Pt]) -> Poly
    ensures { IsHullOf points.now result }
{
    assert!(rt;
        !points.is_empty() && points.len() <= 20,
        "row {row}: {points:?}"
    );
    assert!(rt; are_positions(points), "row {row}: {points:?}");
    hull_of_few(points)
}

#[test]
fn hulls(rt: HostRuntime) -> Result<(), Fail> {
    for (row, (points, corners)) in HULLS.iter().enumerate() {
        let hull = polygon_of(&rt, row, points);
        assert_eq!(rt; hull.corners(), *corners, "row {row}: {points:?}");
    }
    Ok(())
}

#[test]
fn points_inside(rt: HostRuntime) -> Result<(), Fail> {
    for (row, (points, (x, y), inside)) in INSIDE.iter().enumerate() {
        let found = polygon_of(&rt, row, points).contains(Pt { x: *x, y: *y });
        assert_eq!(rt; found, *inside, "row {row}: {points:?}, {x}, {y}");
    }
    Ok(())
}

#[test]
fn runs(rt: HostRuntime) -> Result<(), Fail> {
    for (row, (points, (y0, y1), run)) in RUNS.iter().enumerate() {
        assert!(rt;
            has_size_at_most(*y0, 40_000_000_000_000) && has_size_at_most(*y1, 40_000_000_000_000),
            "row {row}: {y0}, {y1}"
        );
        let found = polygon_of(&rt, row, points).run(*y0, *y1);
        assert_eq!(rt; found, *run, "row {row}: {points:?}, {y0}, {y1}");
    }
    Ok(())
}

#[test]
fn supports(rt: HostRuntime) -> Result<(), Fail> {
    for (row, (points, (nx, ny), support)) in SUPPORTS.iter().enumerate() {
        assert!(rt;
            has_size_at_most(*nx, 2_000) && has_size_at_most(*ny, 2_000),
            "row {row}: {nx}, {ny}"
        );
        let found = polygon_of(&rt, row, points).support(*nx, *ny);
        assert_eq!(rt; found, *support, "row {row}: {points:?}, {nx}, {ny}");
    }
    Ok(())
}

#[test]
fn polygons_apart(rt: HostRuntime) -> Result<(), Fail> {
    for (row, (points, others, apart)) in APART.iter().enumerate() {
        let found = polygon_of(&rt, row, points).disjoint(&polygon_of(&rt, row, others));
        assert_eq!(rt; found, *apart, "row {row}: {points:?}, {others:?}");
        let turned = polygon_of(&rt, row, others).disjoint(&polygon_of(&rt, row, points));
        assert_eq!(rt; turned, *apart, "row {row}: {others:?}, {points:?}");
    }
    Ok(())
}
