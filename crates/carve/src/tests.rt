//! Tests over one rectangle, against values of a program that was written apart from this one.
ghost use Rattle.std.specs.Prelude.{ℕ, ℤ, ◌≤ℤ◌};
ghost use Rattle.std.proofs.Common.{arith};
ghost use Rattle.std.proofs.lemmas.Int.{ints};
ghost use Rattle.spot_terms.specs.Whole.{SizeAtMost, Within};
ghost use Rattle.convex_poly.specs.Polygons.{IsPosition};

use super::*;
use base_sets::{BaseSet, Grid, OuterBox};
use convex_poly::{Poly, Pt, hull_of_few};
use std::test::Fail;

/// So many equal rectangles at each step up to `last`.
struct Rectangle {
    last: u32,
    count: u32,
    x: (i64, i64),
    y: (i64, i64),
    ghost wide: { x.0 ≤ℤ x.1 },
    ghost high: { y.0 ≤ℤ y.1 },
}

impl Occupied for Rectangle {
    ghost count = { λ r _. r.count };

    ghost hits = { λ r _ _ p. Within r.x.0 r.x.1 p.x × Within r.y.0 r.y.1 p.y };

    ghost range = { λ r _ _. r.y };

    ghost last = { λ r. r.last };

    ghost far = { λ _. 40_000_000_000_000 };

    fn pieces(&self, _step: u32) -> u32 {
        self.count
    }

    fn span(&self, _step: u32, _piece: u32) -> Option<(i64, i64)> {
        Some(self.y)
    }

    fn run(&self, _step: u32, _piece: u32, y0: i64, y1: i64) -> Option<(i64, i64)> {
        if self.y.0 <= y0 && y1 <= self.y.1 {
            Some(self.x)
        } else {
            None
        }
    }

    fn next(&self, _step: u32, from: u32, left: i64, right: i64) -> u32 {
        if self.x.1 < left || right < self.x.0 {
            self.count
        } else {
            from
        }
    }

    ghost upright = { λ r _ _ x y0 y y1 low high a b. (a.0, record { low = Prim.omega (arith, ints, a.1.low); high = Prim.omega (arith, ints, b.1.high) }) };

    ghost in_range = { λ _ _ _ p h. h.1 };
}

const CAR: Rectangle = Rectangle {
    last: 3,
    count: 1,
    x: (-250_000, 1_200_000),
    y: (-500_000, 499_999),
};

const GRID: Grid = Grid {
    w: 1_000_000,
    g: 500_000,
};

const BOX: OuterBox = OuterBox {
    xlo: -1_500_000,
    xhi: 2_300_000,
    ylo: -700_000,
    yhi: 900_000,
};

#[test]
fn boxes_of_one_piece(rt: HostRuntime) -> Result<(), Fail> {
    assert_eq!(rt; row_boxes(&CAR, 2, &BOX, &GRID), 22);
    Ok(())
}

#[test]
fn rows_beside_and_behind(rt: HostRuntime) -> Result<(), Fail> {
    let mut runs = Runs::open(rt.alloc(), 6)?;
    let free = [
        (-2_000_000, -1_000_001),
        (-1_000_000, -1),
        (0, 999_999),
        (1_000_000, 1_999_999),
        (2_000_000, 2_999_999),
    ];
    row_runs(&CAR, 2, -2, &BOX, &GRID, &mut runs);
    assert_eq!(rt; runs.list(), &free[..]);
    row_runs(&CAR, 2, 1, &BOX, &GRID, &mut runs);
    assert_eq!(rt; runs.list(), &free[..]);
    let left = [
        (-2_000_000, -1_000_001),
        (-1_000_000, -250_001),
        (1_200_001, 1_999_999),
        (2_000_000, 2_999_999),
    ];
    row_runs(&CAR, 2, -1, &BOX, &GRID, &mut runs);
    assert_eq!(rt; runs.list(), &left[..]);
    row_runs(&CAR, 2, 0, &BOX, &GRID, &mut runs);
    assert_eq!(rt; runs.list(), &left[..]);
    Ok(())
}

/// Four rows, from -2 to 1, in the columns from -2 to 2.
const FREE: [(i64, i64); 5] = [
    (-2_000_000, -1_000_001),
    (-1_000_000, -1),
    (0, 999_999),
    (1_000_000, 1_999_999),
    (2_000_000, 2_999_999),
];

/// What is left of a row at whose ends the car is.
const BESIDE: [(i64, i64); 4] = [
    (-2_000_000, -1_000_001),
    (-1_000_000, -250_001),
    (1_200_001, 1_999_999),
    (2_000_000, 2_999_999),
];

#[test]
fn rows_of_a_box(rt: HostRuntime) -> Result<(), Fail> {
    let mut runs = Runs::open(rt.alloc(), 6)?;
    let mut spans = RowSpans::open(rt.alloc(), 4, 22)?;
    assert!(rt; row_boxes(&CAR, 2, &BOX, &GRID) <= 22);
    spans.gather(&CAR, 2, &BOX, &GRID);
    spans.row_runs(0, &BOX, &GRID, &mut runs);
    assert_eq!(rt; runs.list(), FREE.as_slice());
    spans.row_runs(1, &BOX, &GRID, &mut runs);
    assert_eq!(rt; runs.list(), BESIDE.as_slice());
    spans.row_runs(2, &BOX, &GRID, &mut runs);
    assert_eq!(rt; runs.list(), BESIDE.as_slice());
    spans.row_runs(3, &BOX, &GRID, &mut runs);
    assert_eq!(rt; runs.list(), FREE.as_slice());
    Ok(())
}

/// Higher than the box.
const BRIDGE: Rectangle = Rectangle {
    last: 3,
    count: 1,
    x: (-250_000, 1_200_000),
    y: (3_000_000, 4_000_000),
};

/// 200 cars in the row above the x axis, which they cross, and in parts of the rows beside it.
const CROWD: Rectangle = Rectangle {
    last: 3,
    count: 200,
    x: (-250_000, 1_200_000),
    y: (-200_000, 800_000),
};

/// From below the box to above it.
const WALL: Rectangle = Rectangle {
    last: 3,
    count: 1,
    x: (-250_000, 1_200_000),
    y: (-9_000_000, 9_000_000),
};

#[test]
fn pieces_beside_and_across_a_box(rt: HostRuntime) -> Result<(), Fail> {
    let mut runs = Runs::open(rt.alloc(), 205)?;
    let mut spans = RowSpans::open(rt.alloc(), 4, 620)?;
    assert!(rt; row_boxes(&WALL, 2, &BOX, &GRID) <= 620);
    spans.gather(&WALL, 2, &BOX, &GRID);
    spans.row_runs(0, &BOX, &GRID, &mut runs);
    assert_eq!(rt; runs.list(), BESIDE.as_slice());
    spans.row_runs(3, &BOX, &GRID, &mut runs);
    assert_eq!(rt; runs.list(), BESIDE.as_slice());
    assert!(rt; row_boxes(&CROWD, 2, &BOX, &GRID) <= 620);
    spans.gather(&CROWD, 2, &BOX, &GRID);
    spans.row_runs(1, &BOX, &GRID, &mut runs);
    assert_eq!(rt; runs.list(), FREE.as_slice());
    spans.row_runs(2, &BOX, &GRID, &mut runs);
    assert_eq!(rt; runs.list(), BESIDE.as_slice());
    spans.row_runs(3, &BOX, &GRID, &mut runs);
    assert_eq!(rt; runs.list(), FREE.as_slice());
    assert!(rt; row_boxes(&BRIDGE, 2, &BOX, &GRID) <= 620);
    spans.gather(&BRIDGE, 2, &BOX, &GRID);
    spans.row_runs(0, &BOX, &GRID, &mut runs);
    assert_eq!(rt; runs.list(), FREE.as_slice());
    spans.row_runs(2, &BOX, &GRID, &mut runs);
    assert_eq!(rt; runs.list(), FREE.as_slice());
    Ok(())
}

/// The point (place, speed).
fn at(x: i64, y: i64) -> Pt
    requires x { SizeAtMost 40_000_000_000_000 x }
    requires y { SizeAtMost 40_000_000_000_000 y }
    ensures { IsPosition result }
{
    Pt { x, y }
}

#[test]
fn a_set_cut_by_runs(rt: HostRuntime) -> Result<(), Fail> {
    let corners = [
        at(-900_000, -3000),
        at(-100_000, -2000),
        at(800_000, 4000),
        at(700_000, 5000),
    ];
    let set = BaseSet {
        col: -1,
        row: 0,
        x: hull_of_few(&corners),
        y: hull_of_few(&corners),
    };
    let runs = [
        (-2_000_000, -1_000_001),
        (-1_000_000, -250_001),
        (500_000, 999_999),
        (1_200_001, 1_999_999),
    ];
    let mut sets = SetList::open(rt.alloc(), 4)?;
    cut(&set, &runs, &mut sets);
    let first = [at(-900_000, -3000), at(-250_001, -2188), at(-250_001, 250)];
    let second = [
        at(500_000, 2000),
        at(800_000, 4000),
        at(700_000, 5000),
        at(500_000, 4000),
    ];
    let found = sets.list();
    assert_eq!(rt; found.len(), 2);
    assert_eq!(rt; found[0].x.corners(), first.as_slice());
    assert_eq!(rt; found[1].x.corners(), second.as_slice());
    assert_eq!(rt; found[1].y.corners(), set.y.corners());
    assert_eq!(rt; (found[1].col, found[1].row), (-1, 0));
    sets.clear();
    assert!(rt; sets.list().is_empty());
    Ok(())
}
