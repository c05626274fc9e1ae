//! Tests against worked values, and against values of a program that was written apart from this one.
ghost use Rattle.std.specs.Prelude.{◌≡◌, ℕ, ◌≤◌, ◌↔◌, IfOk, IsTrue, Some, length};
ghost use Rattle.std.specs.List.{AllByRecursion};
ghost use Rattle.spot_terms.specs.Whole.{SizeAtMost, Within};
ghost use Rattle.base_sets.specs.Values.{IsBox, IsGrid};
ghost use Rattle.convex_poly.specs.Polygons.{IsPosition};
ghost use Rattle.base_sets.specs.declared.grid.Grid.{Grid as GridOf};

use super::*;
use crate::cell_rows::ROWS;
use base_sets::{BaseSet, Grid, OuterBox};
use convex_poly::{Poly, Pt, hull_of_few};
use std::alloc::{AllocError, Global};
use std::process::Abort;
use std::test::Fail;

fn is_position(corner: Pt) -> bool
    ensures { IsTrue result ↔ IsPosition corner }
{
    corner.x.unsigned_abs() <= 40_000_000_000_000 && corner.y.unsigned_abs() <= 40_000_000_000_000
}

fn are_positions(corners: &[Pt]) -> bool
    ensures { IsTrue result ↔ AllByRecursion IsPosition corners.now }
{
    for corner in corners {
        if !is_position(*corner) {
            return false;
        }
    }
    true
}

fn is_slow(corner: Pt) -> bool
    ensures { IsTrue result ↔ SizeAtMost 1_000_000 corner.y }
{
    corner.y.unsigned_abs() <= 1_000_000
}

fn are_slow(corners: &[Pt]) -> bool
    ensures { IsTrue result ↔ AllByRecursion (λ c. SizeAtMost 1_000_000 c.y) corners.now }
{
    for corner in corners {
        if !is_slow(*corner) {
            return false;
        }
    }
    true
}

/// Whether the corners lie between the least and the greatest x of the box.
fn are_in_columns(corners: &[Pt], o: &OuterBox) -> bool
    ensures { IsTrue result ↔ AllByRecursion (λ c. Within o.now.xlo o.now.xhi c.x) corners.now }
{
    for corner in corners {
        if corner.x < o.xlo || o.xhi < corner.x {
            return false;
        }
    }
    true
}

/// Whether the corners lie between the least and the greatest y of the box.
fn are_in_rows(corners: &[Pt], o: &OuterBox) -> bool
    ensures { IsTrue result ↔ AllByRecursion (λ c. Within o.now.ylo o.now.yhi c.x) corners.now }
{
    for corner in corners {
        if corner.x < o.ylo || o.yhi < corner.x {
            return false;
        }
    }
    true
}

/// The polygon of corners of these places and speeds.
fn polygon_of(rt: &impl Abort, alloc: Global, pairs: &[(i64, i64)]) -> Result<Poly, AllocError>
    ensures few { IfOk result (λ p. length p ≤ 18) }
    ensures slow { IfOk result (λ p. AllByRecursion (λ c. SizeAtMost 1_000_000 c.y) p) }
{
    let mut corners = Vec::new(alloc);
    for pair in pairs {
        corners.push(Pt {
            x: pair.0,
            y: pair.1,
        })?;
    }
    assert!(rt; !corners.is_empty() && corners.len() <= 18);
    assert!(rt; are_positions(&corners));
    let p = hull_of_few(&corners);
    assert!(rt; are_slow(p.corners()));
    Ok(p)
}

/// Adds a pair of polygons, which lie in the box of the step.
fn add_pair(
    rt: &impl Abort,
    alloc: Global,
    table: &mut CellTable,
    o: &OuterBox,
    x: &[(i64, i64)],
    y: &[(i64, i64)],
) -> Result<(), AllocError>
    requires { (grid : GridOf) × (k : ℕ) × (table.old.step ≡ Some (o.now, grid, k)) }
    ensures { IfOk result (λ _. (table.new.step ≡ table.old.step) × (table.new.most ≡ table.old.most)) }
{
    let x = polygon_of(rt, alloc, x)?;
    let y = polygon_of(rt, alloc, y)?;
    assert!(rt; are_in_columns(x.corners(), o));
    assert!(rt; are_in_rows(y.corners(), o));
    table.add(&x, &y);
    Ok(())
}

/// The box of these places.
fn box_of(rt: &impl Abort, places: [i64; 4]) -> OuterBox
    ensures { IsBox result }
{
    let [xlo, xhi, ylo, yhi] = places;
    assert!(rt; xlo <= xhi && ylo <= yhi);
    assert!(rt; is_position(Pt { x: xlo, y: ylo }));
    assert!(rt; is_position(Pt { x: xhi, y: yhi }));
    OuterBox { xlo, xhi, ylo, yhi }
}

/// The grid of these widths.
fn grid_of(rt: &impl Abort, widths: [i64; 2]) -> Grid
    ensures { IsGrid result }
{
    let [w, g] = widths;
    assert!(rt; (100_000..=100_000_000).contains(&w));
    assert!(rt; (100_000..=100_000_000).contains(&g));
    Grid { w, g }
}

/// Whether corners are those of these places and speeds.
fn are_corners(corners: &[Pt], pairs: &[(i64, i64)]) -> bool {
    corners.len() == pairs.len()
        && corners
            .iter()
            .zip(pairs)
            .all(|(corner, pair)| corner.x == pair.0 && corner.y == pair.1)
}

/// Whether the table has a set of this column and row with these corners.
fn has_set(table: &CellTable, col: i64, row: i64, x: &[(i64, i64)], y: &[(i64, i64)]) -> bool {
    is_set(table.merged(col, row), col, row, x, y)
}

/// Whether there is a set, and has this column and row and these corners.
fn is_set(set: Option<BaseSet>, col: i64, row: i64, x: &[(i64, i64)], y: &[(i64, i64)]) -> bool {
    match set {
        Some(b) => {
            b.col == col
                && b.row == row
                && are_corners(b.x.corners(), x)
                && are_corners(b.y.corners(), y)
        }
        None => false,
    }
}

/// How many cells of so many columns and rows from the first ones on have a set.
fn sets_in(table: &CellTable, col: i64, columns: i64, row: i64, rows: i64) -> u32 {
    let mut count: u32 = 0;
    for c in 0..columns {
        for r in 0..rows {
            if table
                .merged(col.wrapping_add(c), row.wrapping_add(r))
                .is_some()
            {
                count = count.wrapping_add(1);
            }
        }
    }
    count
}

/// The four sets of the first step from a standing start, by one pair of polygons.
#[test]
fn area_from_rest(rt: HostRuntime) -> Result<(), Fail> {
    let o = box_of(&rt, [-40_100, 40_100, -40_100, 40_100]);
    let grid = grid_of(&rt, [2_000_000, 1_000_000]);
    let child = [
        (-40_100, -801),
        (-40_050, -801),
        (150, -399),
        (40_100, 400),
        (40_100, 801),
        (40_050, 801),
        (-150, 399),
        (-40_100, -400),
    ];
    let below = [
        (-40_100, -801),
        (-40_001, -801),
        (-1, -401),
        (-1, 401),
        (-99, 401),
        (-40_100, -400),
    ];
    let above = [
        (0, -401),
        (100, -400),
        (40_100, 400),
        (40_100, 801),
        (40_000, 801),
        (0, 401),
    ];
    let mut table = CellTable::open(rt.alloc(), 4)?;
    assert!(rt; table.merged(0, 0).is_none());
    assert!(rt; o.cells(&grid) <= 4);
    table.start(&o, &grid, 100);
    assert!(rt; table.merged(0, 0).is_none());
    add_pair(&rt, rt.alloc(), &mut table, &o, &child, &child)?;
    assert!(rt; has_set(&table, -1, -1, &below, &below));
    assert!(rt; has_set(&table, -1, 0, &below, &above));
    assert!(rt; has_set(&table, 0, -1, &above, &below));
    assert!(rt; has_set(&table, 0, 0, &above, &above));
    let mut planes = Planes::open(rt.alloc(), 2, 100)?;
    assert!(rt; is_set(planes.merged(&table, -1, -1, 0), -1, -1, &below, &below));
    assert!(rt; is_set(planes.merged(&table, -1, 0, 1), -1, 0, &below, &above));
    assert!(rt; is_set(planes.merged(&table, 0, -1, 0), 0, -1, &above, &below));
    assert!(rt; is_set(planes.merged(&table, 0, 0, 1), 0, 0, &above, &above));
    assert!(rt; planes.merged(&table, 1, 0, 1).is_none());
    assert_eq!(rt; sets_in(&table, -3, 6, -3, 6), 4);
    assert!(rt; table.merged(i64::MIN, i64::MAX).is_none());
    // a step that begins is empty
    table.start(&o, &grid, 100);
    assert_eq!(rt; sets_in(&table, -3, 6, -3, 6), 0);
    Ok(())
}

/// Two pairs a row, and all cells of the box.
#[test]
fn cells_of_pairs(rt: HostRuntime) -> Result<(), Fail> {
    for (row, given) in ROWS.iter().enumerate() {
        let o = box_of(&rt, given.places);
        let grid = grid_of(&rt, given.widths);
        let k = given.k;
        assert!(rt; (1..=1000).contains(&k), "row {row}");
        let mut table = CellTable::open(rt.alloc(), 24)?;
        assert!(rt; o.cells(&grid) <= 24, "row {row}");
        table.start(&o, &grid, k);
        add_pair(
            &rt,
            rt.alloc(),
            &mut table,
            &o,
            given.first_x,
            given.first_y,
        )?;
        add_pair(
            &rt,
            rt.alloc(),
            &mut table,
            &o,
            given.second_x,
            given.second_y,
        )?;
        for set in given.sets {
            assert!(rt;
                has_set(&table, set.col, set.row, set.x, set.y),
                "row {row}"
            );
        }
        let count = sets_in(
            &table,
            grid.col(o.xlo).wrapping_sub(1),
            27,
            grid.row(o.ylo).wrapping_sub(1),
            27,
        );
        assert_eq!(rt; count as usize, given.sets.len(), "row {row}");
    }
    Ok(())
}
