ghost use Rattle.std.specs.Prelude.{◌≡◌, ◌<◌, ◌≤◌, ◌+◌, length};
ghost use Rattle.std.specs.List.{AllByRecursion};
ghost use Rattle.spot_terms.specs.Whole.{SizeAtMost};
ghost use Rattle.convex_poly.specs.Polygons.{IsPosition, IsSummand};

use super::*;
use std::test::Fail;

const FAR: i64 = 40_000_000_000_000;

/// The point (x, y).
fn at(x: i64, y: i64) -> Pt
    requires x { SizeAtMost 40_000_000_000_000 x }
    requires y { SizeAtMost 40_000_000_000_000 y }
    ensures { IsPosition result }
{
    Pt { x, y }
}

#[test]
fn corners_of_hulls(rt: HostRuntime) -> Result<(), Fail> {
    let square = hull_of_few(&[
        at(0, 0),
        at(4, 0),
        at(4, 4),
        at(0, 4),
        at(2, 2),
        at(2, 0),
        at(4, 0),
        at(0, 2),
    ]);
    assert_eq!(rt;
        square.copy().corners(),
        [at(0, 0), at(4, 0), at(4, 4), at(0, 4)].as_slice()
    );
    let slanted = hull_of_few(&[at(3, 3), at(1, 1), at(2, 2), at(0, 0)]);
    assert_eq!(rt; slanted.corners(), [at(0, 0), at(3, 3)].as_slice());
    let upright = hull_of_few(&[at(5, 1), at(5, 9), at(5, 4)]);
    assert_eq!(rt; upright.corners(), [at(5, 1), at(5, 9)].as_slice());
    let point = hull_of_few(&[at(7, -7), at(7, -7)]);
    assert_eq!(rt; point.corners(), [at(7, -7)].as_slice());
    let all = hull_of_few(&[
        at(-FAR, -FAR),
        at(FAR, -FAR),
        at(FAR, FAR),
        at(-FAR, FAR),
        at(0, FAR),
    ]);
    assert_eq!(rt;
        all.corners(),
        [at(-FAR, -FAR), at(FAR, -FAR), at(FAR, FAR), at(-FAR, FAR)].as_slice()
    );
    Ok(())
}

#[test]
fn points_supports_and_rows(rt: HostRuntime) -> Result<(), Fail> {
    let triangle = hull_of_few(&[at(0, 0), at(10, 3), at(3, 10)]);
    for (x, y, inside) in [
        (3, 10, true),
        (2, 1, true),
        (6, 7, true),
        (7, 7, false),
        (5, 1, false),
        (1, 3, true),
    ] {
        assert_eq!(rt; triangle.contains(at(x, y)), inside, "at {x} {y}");
    }
    for (nx, ny, greatest) in [(2000, -2000, 14000), (-1, -1, 0), (1, 1, 13)] {
        assert_eq!(rt; triangle.support(nx, ny), greatest);
    }
    for (y0, y1, run) in [
        (3, 3, Some((1, 10))),
        (1, 2, Some((1, 3))),
        (3, 7, Some((3, 6))),
        (10, 10, Some((3, 3))),
        (11, 11, None),
        (0, 10, None),
    ] {
        assert_eq!(rt; triangle.run(y0, y1), run, "at {y0} {y1}");
    }
    let segment = hull_of_few(&[at(9, 6), at(0, 0)]);
    for (x, y, inside) in [
        (3, 2, true),
        (9, 6, true),
        (12, 8, false),
        (-3, -2, false),
        (3, 3, false),
    ] {
        assert_eq!(rt; segment.contains(at(x, y)), inside, "at {x} {y}");
    }
    for (y, run) in [(0, Some((0, 0))), (1, None), (2, Some((3, 3))), (7, None)] {
        assert_eq!(rt; segment.run(y, y), run, "at {y}");
    }
    let thin = hull_of_few(&[at(-FAR, -FAR), at(FAR, FAR - 1)]);
    assert_eq!(rt; thin.run(-FAR, -FAR), Some((-FAR, -FAR)));
    assert_eq!(rt; thin.run(0, 0), None);
    Ok(())
}

#[test]
fn polygons_apart(rt: HostRuntime) -> Result<(), Fail> {
    let triangle = hull_of_few(&[at(0, 0), at(10, 0), at(0, 10)]);
    assert!(rt; triangle.disjoint(&hull_of_few(&[at(6, 5), at(10, 10)])));
    assert!(rt; !triangle.disjoint(&hull_of_few(&[at(5, 5), at(10, 10)])));
    assert!(rt; !triangle.disjoint(&hull_of_few(&[at(1, 1), at(2, 2)])));
    let slash = hull_of_few(&[at(0, 0), at(1, 1)]);
    assert!(rt; !slash.disjoint(&hull_of_few(&[at(0, 1), at(1, 0)])));
    assert!(rt; hull_of_few(&[at(0, 0)]).disjoint(&hull_of_few(&[at(0, 1)])));
    Ok(())
}

#[test]
fn rows_of_octagons(rt: HostRuntime) -> Result<(), Fail> {
    let octagon = OctNumbers {
        n: [10, 12, 8, 9, 10, 11, 8, 12],
    };
    for (y0, y1, run) in [
        (0, 0, Some((-9, 10))),
        (3, -5, Some((-6, 7))),
        (-8, 8, Some((-1, 4))),
        (8, 9, None),
    ] {
        assert_eq!(rt; octagon.run(y0, y1), run, "at {y0} {y1}");
    }
    let wide = OctNumbers {
        n: [100_000_000_000_000; 8],
    };
    assert_eq!(rt;
        wide.run(-FAR, FAR),
        Some((-60_000_000_000_000, 60_000_000_000_000))
    );
    Ok(())
}

/// The point (x, y).
fn near(x: i64, y: i64) -> Pt
    requires x { SizeAtMost 20_000_000_000_000 x }
    requires y { SizeAtMost 20_000_000_000_000 y }
    ensures { IsSummand result }
{
    Pt { x, y }
}

/// The corners of the sums of the hulls of the points, of which there are at most 20 in all.
fn summed(a: &[Pt], b: &[Pt]) -> Poly
    requires a_some { 0 < length a.now }
    requires b_some { 0 < length b.now }
    requires few { length a.now + length b.now ≤ 20 }
    requires a_in { AllByRecursion IsSummand a.now }
    requires b_in { AllByRecursion IsSummand b.now }
{
    sum_hull(&hull(a), &hull(b))
}

#[test]
fn sums_of_polygons(rt: HostRuntime) -> Result<(), Fail> {
    let point = [near(5, -7)];
    let slash = [near(0, 0), near(1, 2)];
    let longer = [near(-2, -4), near(0, 0)];
    let dash = [near(0, 0), near(3, 0)];
    let post = [near(0, -1), near(0, 1)];
    let square = [near(0, 0), near(4, 0), near(4, 4), near(0, 4)];
    let kite = [near(0, 0), near(3, -1), near(4, 4), near(-1, 3)];
    let octagon = [
        near(5, 2),
        near(5, -2),
        near(2, 5),
        near(-2, 5),
        near(-5, 2),
        near(-5, -2),
        near(-2, -5),
        near(2, -5),
    ];
    assert_eq!(rt;
        summed(&point, &point).corners(),
        [near(10, -14)].as_slice()
    );
    assert_eq!(rt;
        summed(&slash, &point).corners(),
        [near(5, -7), near(6, -5)].as_slice()
    );
    assert_eq!(rt;
        summed(&slash, &longer).corners(),
        [near(-2, -4), near(1, 2)].as_slice()
    );
    assert_eq!(rt;
        summed(&dash, &post).corners(),
        [near(0, -1), near(3, -1), near(3, 1), near(0, 1)].as_slice()
    );
    assert_eq!(rt;
        summed(&square, &square).corners(),
        [near(0, 0), near(8, 0), near(8, 8), near(0, 8)].as_slice()
    );
    assert_eq!(rt;
        summed(&kite, &square).corners(),
        [
            near(-1, 3),
            near(0, 0),
            near(3, -1),
            near(7, -1),
            near(8, 4),
            near(8, 8),
            near(4, 8),
            near(-1, 7),
        ]
        .as_slice()
    );
    assert_eq!(rt;
        summed(&octagon, &square).corners(),
        [
            near(-5, -2),
            near(-2, -5),
            near(6, -5),
            near(9, -2),
            near(9, 6),
            near(6, 9),
            near(-2, 9),
            near(-5, 6),
        ]
        .as_slice()
    );
    assert_eq!(rt; summed(&octagon, &kite).corners().len(), 12);
    Ok(())
}
