//! Tests over equal rectangles, against the numbers of programs that were written apart from this one.
ghost use Rattle.std.specs.Prelude.{◌≡◌, ℤ, ◌≤ℤ◌};
ghost use Rattle.std.proofs.Common.{arith};
ghost use Rattle.std.proofs.lemmas.Int.{ints};
ghost use Rattle.spot_terms.specs.Whole.{Within};

use super::*;
use base_sets::{BaseSet, EgoBounds, EgoStart, Grid};
use carve::Occupied;
use spot_terms::{Pt, VBox};
use std::test::Fail;

/// So many rectangles at each step, all at one place.
struct Rectangles {
    count: u32,
    x: (i64, i64),
    y: (i64, i64),
    ghost wide: { x.0 ≤ℤ x.1 },
    ghost high: { y.0 ≤ℤ y.1 },
}

impl Occupied for Rectangles {
    ghost count = { λ r _. r.count };

    ghost hits = { λ r _ _ p. Within r.x.0 r.x.1 p.x × Within r.y.0 r.y.1 p.y };

    ghost range = { λ r _ _. r.y };

    ghost last = { λ _. 100 };

    ghost far = { λ _. 40_000_000_000_000 };

    fn pieces(&self, _step: u32) -> u32 {
        self.count
    }

    fn span(&self, _step: u32, _piece: u32) -> Option<(i64, i64)> {
        Some(self.y)
    }

    fn run(&self, _step: u32, _piece: u32, y0: i64, y1: i64) -> Option<(i64, i64)> {
        if self.y.0 <= y0 && y1 <= self.y.1 {
            Some(self.x)
        } else {
            None
        }
    }

    fn next(&self, _step: u32, from: u32, left: i64, right: i64) -> u32 {
        if self.x.1 < left || right < self.x.0 {
            self.count
        } else {
            from
        }
    }

    ghost upright = { λ r _ _ x y0 y y1 low high a b. (a.0, record { low = Prim.omega (arith, ints, a.1.low); high = Prim.omega (arith, ints, b.1.high) }) };

    ghost in_range = { λ _ _ _ p h. h.1 };
}

/// At rest in the origin, with a mm/s of uncertainty.
const REST: EgoStart = EgoStart {
    p: Pt { x: 0, y: 0 },
    b: VBox {
        xlo: -1,
        xhi: 1,
        ylo: -1,
        yhi: 1,
    },
};

const BOUNDS: EgoBounds = EgoBounds { a: 8, v: 50_000 };

const GRID: Grid = Grid {
    w: 2_000_000,
    g: 1_000_000,
};

const NOTHING: Rectangles = Rectangles {
    count: 0,
    x: (0, 0),
    y: (0, 0),
};

/// 100 m to each side of the origin.
const FIELDS: Rectangles = Rectangles {
    count: 4096,
    x: (-100_000_000, 100_000_000),
    y: (-100_000_000, 100_000_000),
};

/// 50 m to each side of the origin.
const FIELD: Rectangles = Rectangles {
    count: 1,
    x: (-50_000_000, 50_000_000),
    y: (-50_000_000, 50_000_000),
};

/// 80 cm along x and two rows of a metre.
const BAR: Rectangles = Rectangles {
    count: 1,
    x: (600_000, 1_400_000),
    y: (0, 1_999_999),
};

/// Whether the set has this column, this row and these corners.
fn is_set(set: &BaseSet, col: i64, row: i64, x: &[Pt], y: &[Pt]) -> bool {
    set.col == col && set.row == row && set.x.corners() == x && set.y.corners() == y
}

#[test]
fn one_step_from_rest(rt: HostRuntime) -> Result<(), Fail> {
    let start = [Pt { x: 0, y: -1 }, Pt { x: 0, y: 1 }];
    let low = [
        Pt {
            x: -40_100,
            y: -801,
        },
        Pt {
            x: -40_001,
            y: -801,
        },
        Pt { x: -1, y: -401 },
        Pt { x: -1, y: 401 },
        Pt { x: -99, y: 401 },
        Pt {
            x: -40_100,
            y: -400,
        },
    ];
    let high = [
        Pt { x: 0, y: -401 },
        Pt { x: 100, y: -400 },
        Pt { x: 40_100, y: 400 },
        Pt { x: 40_100, y: 801 },
        Pt { x: 40_000, y: 801 },
        Pt { x: 0, y: 401 },
    ];
    let mut run = AreaRun::open(rt.alloc(), &NOTHING, &REST, &BOUNDS, &GRID, 100, 1)?;
    assert_eq!(rt; (run.at(), run.steps()), (0, 1));
    let sets = run.sets();
    assert_eq!(rt; sets.len(), 1);
    assert!(rt; is_set(&sets[0], 0, 0, &start, &start));
    run.step();
    assert_eq!(rt; run.at(), 1);
    assert_eq!(rt; run.verdict(), Verdict::Open);
    let sets = run.sets();
    assert_eq!(rt; sets.len(), 4);
    assert!(rt; is_set(&sets[0], -1, -1, &low, &low));
    assert!(rt; is_set(&sets[1], -1, 0, &low, &high));
    assert!(rt; is_set(&sets[2], 0, -1, &high, &low));
    assert!(rt; is_set(&sets[3], 0, 0, &high, &high));
    Ok(())
}

/// The sums of all places and of seven times all speeds, along x and along y.
fn sums_of(sets: &[BaseSet]) -> (i64, i64) {
    let mut x: i64 = 0;
    let mut y: i64 = 0;
    for set in sets {
        x = x.wrapping_add(sum_of(set.x.corners()));
        y = y.wrapping_add(sum_of(set.y.corners()));
    }
    (x, y)
}

fn sum_of(corners: &[Pt]) -> i64 {
    let mut sum: i64 = 0;
    for corner in corners {
        sum = sum
            .wrapping_add(corner.x)
            .wrapping_add(corner.y.wrapping_mul(7));
    }
    sum
}

/// In two rows of a column two sets stand side by side, between rows with one: neighbours differ along x, and sets that aren't
/// neighbours are equal along it.
#[test]
fn two_sets_of_a_cell(rt: HostRuntime) -> Result<(), Fail> {
    let whole = [
        Pt { x: 0, y: -4001 },
        Pt { x: 1998, y: -4000 },
        Pt {
            x: 1_999_999,
            y: -3,
        },
        Pt {
            x: 1_999_999,
            y: 6001,
        },
        Pt { x: 1, y: 4002 },
        Pt { x: 0, y: 4001 },
    ];
    let right = [
        Pt {
            x: 1_400_001,
            y: -1204,
        },
        Pt {
            x: 1_999_999,
            y: -3,
        },
        Pt {
            x: 1_999_999,
            y: 6001,
        },
        Pt {
            x: 1_400_001,
            y: 5402,
        },
    ];
    let mut run = AreaRun::open(rt.alloc(), &BAR, &REST, &BOUNDS, &GRID, 1000, 3)?;
    run.step();
    let sets = run.sets();
    assert_eq!(rt; sets.len(), 62);
    assert_eq!(rt; sums_of(sets), (-11_916_106, -26_891_103));
    assert_eq!(rt; sets[34].x.corners(), whole.as_slice());
    assert_eq!(rt; sets[36].x.corners(), right.as_slice());
    assert_eq!(rt; sets[35].y.corners(), sets[36].y.corners());
    assert_eq!(rt; sets[39].x.corners(), whole.as_slice());
    run.step();
    assert_eq!(rt; run.sets().len(), 614);
    assert_eq!(rt; sums_of(run.sets()), (-469_877_530, -748_004_844));
    run.step();
    assert_eq!(rt; run.sets().len(), 2814);
    assert_eq!(rt; sums_of(run.sets()), (-2_516_267_830, -3_876_810_746));
    Ok(())
}

#[test]
fn a_start_inside_a_piece(rt: HostRuntime) -> Result<(), Fail> {
    let run = AreaRun::open(rt.alloc(), &FIELD, &REST, &BOUNDS, &GRID, 100, 1)?;
    assert!(rt; run.sets().is_empty());
    assert_eq!(rt; run.verdict(), Verdict::Empty(0));
    Ok(())
}

#[test]
fn cells_of_a_step_are_too_many(rt: HostRuntime) -> Result<(), Fail> {
    let fast = EgoBounds { a: 8, v: 100_000 };
    let fault = AreaRun::open(rt.alloc(), &NOTHING, &REST, &fast, &GRID, 1000, 10).err();
    assert_eq!(rt; fault, Some(AreaFault::AreaTooWide(7, 78_012)));
    Ok(())
}

#[test]
fn row_boxes_of_a_step_are_too_many(rt: HostRuntime) -> Result<(), Fail> {
    let grid = Grid {
        w: 2_000_000,
        g: 500_000,
    };
    let fault = AreaRun::open(rt.alloc(), &FIELDS, &REST, &BOUNDS, &grid, 1000, 4).err();
    assert_eq!(rt; fault, Some(AreaFault::TooManyBoxes(4, 1_073_796)));
    Ok(())
}
