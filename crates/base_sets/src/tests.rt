//! Tests against worked values, and against values of a program that was written apart from this one.
use super::*;
use convex_poly::segment;
use spot_terms::{Pt, VBox};
use std::test::Fail;

/// Starts at the origin, where no speed is above 1 mm/s.
#[test]
fn area_from_rest(rt: HostRuntime) -> Result<(), Fail> {
    let start = EgoStart {
        p: Pt { x: 0, y: 0 },
        b: VBox {
            xlo: -1,
            xhi: 1,
            ylo: -1,
            yhi: 1,
        },
    };
    let bounds = EgoBounds { a: 8, v: 50_000 };
    assert!(rt; start.fits(&bounds));
    let o = outer_box(&start, &bounds, 100, 1);
    let expected = OuterBox {
        xlo: -40_100,
        xhi: 40_100,
        ylo: -40_100,
        yhi: 40_100,
    };
    assert_eq!(rt; o, expected);
    let grid = Grid {
        w: 100_000,
        g: 100_000,
    };
    assert_eq!(rt; expected.cells(&grid), 4);
    Ok(())
}

/// A start far from the origin, which meets its cap after few ticks.
#[test]
fn far_start(rt: HostRuntime) -> Result<(), Fail> {
    let start = EgoStart {
        p: Pt {
            x: -9_000_000_123_456,
            y: 8_000_000_000_007,
        },
        b: VBox {
            xlo: 29_000,
            xhi: 29_003,
            ylo: -1501,
            yhi: -1498,
        },
    };
    let bounds = EgoBounds { a: 5, v: 29_010 };
    let first = OuterBox {
        xlo: -9_000_000_123_456,
        xhi: -9_000_000_123_456,
        ylo: 8_000_000_000_007,
        yhi: 8_000_000_000_007,
    };
    let last = OuterBox {
        xlo: -8_999_991_428_770,
        xhi: -8_999_991_188_381,
        ylo: 7_999_999_300_385,
        yhi: 7_999_999_775_937,
    };
    assert_eq!(rt; outer_box(&start, &bounds, 77, 0), first);
    assert_eq!(rt; outer_box(&start, &bounds, 77, 4), last);
    let grid = Grid {
        w: 1_234_567,
        g: 100_001,
    };
    assert_eq!(rt; first.cells(&grid), 1);
    assert_eq!(rt; last.cells(&grid), 5);
    Ok(())
}

#[test]
fn starts_that_fit(rt: HostRuntime) -> Result<(), Fail> {
    let start = EgoStart {
        p: Pt { x: 0, y: 0 },
        b: VBox {
            xlo: -5000,
            xhi: 4000,
            ylo: -3000,
            yhi: 4500,
        },
    };
    assert!(rt; start.fits(&EgoBounds { a: 8, v: 5000 }));
    assert!(rt; !start.fits(&EgoBounds { a: 8, v: 4999 }));
    Ok(())
}

#[test]
fn slots_by_floor(rt: HostRuntime) -> Result<(), Fail> {
    let grid = Grid {
        w: 100_000,
        g: 250_000,
    };
    assert_eq!(rt; (grid.col(99_999), grid.col(100_000)), (0, 1));
    assert_eq!(rt; (grid.col(-1), grid.col(-100_001)), (-1, -2));
    assert_eq!(rt; (grid.row(-250_000), grid.row(-250_001)), (-1, -2));
    Ok(())
}

/// A set of two segments, and states at their ends, on them and beside them.
#[test]
fn states_of_a_set(rt: HostRuntime) -> Result<(), Fail> {
    let set = BaseSet {
        col: 0,
        row: 0,
        x: segment(Pt { x: 10, y: -4 }, Pt { x: 30, y: 6 }),
        y: segment(Pt { x: -7, y: -1 }, Pt { x: -7, y: 1 }),
    };
    assert_eq!(rt; set.rect(), (10, 30, -7, -7));
    assert!(rt; set.holds(10, -4, -7, 1));
    assert!(rt; set.holds(20, 1, -7, 0));
    assert!(rt; !set.holds(20, 2, -7, 0));
    assert!(rt; !set.holds(20, 1, -7, 2));
    assert!(rt; !set.holds(-7, 0, 20, 1));
    Ok(())
}
