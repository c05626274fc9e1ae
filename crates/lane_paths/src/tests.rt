ghost use Rattle.spot_terms.specs.Whole.{SizeAtMost};
ghost use Rattle.convex_poly.specs.Polygons.{IsPosition};

use super::*;
use convex_poly::{Poly, hull_of_few};
use spot_terms::Pt;
use std::test::Fail;

/// The point (x, y).
fn at(x: i64, y: i64) -> Pt
    requires x { SizeAtMost 40_000_000_000_000 x }
    requires y { SizeAtMost 40_000_000_000_000 y }
    ensures { IsPosition result }
{
    Pt { x, y }
}

#[test]
fn gaps(rt: HostRuntime) -> Result<(), Fail> {
    for (name, a, b, expected) in [
        (
            "a point and itself",
            hull_of_few(&[at(5, 5)]),
            hull_of_few(&[at(5, 5)]),
            0,
        ),
        (
            "two points",
            hull_of_few(&[at(0, 0)]),
            hull_of_few(&[at(3, 4)]),
            5,
        ),
        (
            "two points, root not whole",
            hull_of_few(&[at(0, 0)]),
            hull_of_few(&[at(2, 3)]),
            3,
        ),
        (
            "a point on a segment",
            hull_of_few(&[at(0, 0), at(9, 6)]),
            hull_of_few(&[at(3, 2)]),
            0,
        ),
        (
            "a point beside a segment",
            hull_of_few(&[at(0, 0), at(10, 0)]),
            hull_of_few(&[at(4, 7)]),
            7,
        ),
        (
            "a point past the end",
            hull_of_few(&[at(0, 0), at(10, 0)]),
            hull_of_few(&[at(13, 4)]),
            5,
        ),
        (
            "a slanted side, root not whole",
            hull_of_few(&[at(0, 0), at(10, 7)]),
            hull_of_few(&[at(2, 9)]),
            6,
        ),
        (
            "crossing segments",
            hull_of_few(&[at(0, 0), at(4, 4)]),
            hull_of_few(&[at(0, 4), at(4, 0)]),
            0,
        ),
        (
            "crossing squares",
            hull_of_few(&[at(0, 0), at(4, 0), at(4, 4), at(0, 4)]),
            hull_of_few(&[at(2, 2), at(9, 2), at(9, 9), at(2, 9)]),
            0,
        ),
        (
            "touching at a corner",
            hull_of_few(&[at(0, 0), at(4, 0), at(4, 4), at(0, 4)]),
            hull_of_few(&[at(4, 4), at(9, 4), at(9, 9)]),
            0,
        ),
        (
            "touching along a side",
            hull_of_few(&[at(0, 0), at(4, 0), at(4, 4), at(0, 4)]),
            hull_of_few(&[at(4, 1), at(9, 1), at(9, 3), at(4, 3)]),
            0,
        ),
        (
            "one inside the other",
            hull_of_few(&[at(0, 0), at(10, 0), at(0, 10)]),
            hull_of_few(&[at(1, 1), at(2, 2)]),
            0,
        ),
        (
            "parallel sides",
            hull_of_few(&[at(0, 0), at(4, 0), at(4, 4), at(0, 4)]),
            hull_of_few(&[at(11, -9), at(20, -9), at(20, 9), at(11, 9)]),
            7,
        ),
        (
            "corner to side",
            hull_of_few(&[at(0, 0), at(10, 0), at(0, 10)]),
            hull_of_few(&[at(9, 8), at(30, 8), at(30, 40)]),
            4,
        ),
        (
            "corner to side of a square turned",
            hull_of_few(&[at(0, 0), at(100, 0), at(100, 100), at(0, 100)]),
            hull_of_few(&[at(200, 50), at(250, 0), at(300, 50), at(250, 100)]),
            100,
        ),
        (
            "side to corner, not whole",
            hull_of_few(&[at(0, 0), at(1_000, 333), at(700, 900)]),
            hull_of_few(&[at(1_200, 1_200), at(900, 1_100)]),
            282,
        ),
        (
            "exactly 10^9",
            hull_of_few(&[at(0, 0)]),
            hull_of_few(&[at(1_000_000_000, 0)]),
            1_000_000_000,
        ),
        (
            "exactly 10^9 both",
            hull_of_few(&[at(0, 0)]),
            hull_of_few(&[at(1_000_000_000, -1_000_000_000)]),
            1_414_213_562,
        ),
        (
            "over 10^9",
            hull_of_few(&[at(0, 0)]),
            hull_of_few(&[at(1_000_000_001, 0)]),
            0,
        ),
        (
            "over 10^9 in y",
            hull_of_few(&[at(0, 0)]),
            hull_of_few(&[at(3, -1_000_000_001)]),
            0,
        ),
        (
            "one corner over",
            hull_of_few(&[at(0, 0)]),
            hull_of_few(&[at(5, 0), at(1_000_000_001, 0)]),
            0,
        ),
        (
            "wide",
            hull_of_few(&[
                at(-500_000_000, -500_000_000),
                at(-499_999_999, 500_000_000),
            ]),
            hull_of_few(&[at(500_000_000, -500_000_000), at(499_999_999, 500_000_000)]),
            999_999_998,
        ),
        (
            "wide slanted",
            hull_of_few(&[at(0, 0), at(1, 0)]),
            hull_of_few(&[at(1_000_000_000, -1), at(-999_999_999, 1_000_000_000)]),
            447_213_594,
        ),
        (
            "twenty corners each",
            hull_of_few(&[
                at(-100, 100),
                at(-90, 81),
                at(-80, 64),
                at(-70, 49),
                at(-60, 36),
                at(-50, 25),
                at(-40, 16),
                at(-30, 9),
                at(-20, 4),
                at(-10, 1),
                at(0, 0),
                at(10, 1),
                at(20, 4),
                at(30, 9),
                at(40, 16),
                at(50, 25),
                at(60, 36),
                at(70, 49),
                at(80, 64),
                at(90, 81),
            ]),
            hull_of_few(&[
                at(-83, -400),
                at(-74, -381),
                at(-65, -364),
                at(-56, -349),
                at(-47, -336),
                at(-38, -325),
                at(-29, -316),
                at(-20, -309),
                at(-11, -304),
                at(-2, -301),
                at(7, -300),
                at(16, -301),
                at(25, -304),
                at(34, -309),
                at(43, -316),
                at(52, -325),
                at(61, -336),
                at(70, -349),
                at(79, -364),
                at(88, -381),
            ]),
            300,
        ),
        (
            "far out",
            hull_of_few(&[at(40_000_000_000_000, 0)]),
            hull_of_few(&[at(39_999_999_999_994, 8), at(39_999_999_999_400, 8)]),
            10,
        ),
    ] {
        assert_eq!(rt; gap(&a, &b), expected, "{name}");
        assert_eq!(rt; gap(&b, &a), expected, "{name}, turned round");
    }
    Ok(())
}
