//! What is expected of participants and pieces.

use convex_poly::OctNumbers;
use spot_terms::{AccStart, Pt, VBox};

/// The start of a car with 10 m/s along x in the origin, a disc of one metre.
pub(crate) const FREE_START: AccStart = AccStart {
    p: Pt { x: 0, y: 0 },
    b: VBox {
        xlo: 9999,
        xhi: 10001,
        ylo: -1,
        yhi: 1,
    },
    a: 8,
    v: 70_000,
    r: 1_000_000,
};

/// Its octagons over two intervals of 100 ticks.
pub(crate) const OCTAGONS: &[OctNumbers] = &[
    OctNumbers {
        n: [
            2040100, 2469463, 1040100, 1414213, 1000000, 1414213, 1040100, 2469463,
        ],
    },
    OctNumbers {
        n: [
            3160200, 3634713, 1160200, 469463, 40100, 469463, 1160200, 3634713,
        ],
    },
];

/// The static obstacle 3, a disc of one metre about the origin.
pub(crate) const FIXED: &[(u32, OctNumbers)] = &[(
    3,
    OctNumbers {
        n: [
            1000000, 1414213, 1000000, 1414213, 1000000, 1414213, 1000000, 1414213,
        ],
    },
)];

/// The lane polygon of a disc of one metre about a position in a cell of 2 m and 4 m.
pub(crate) const CORNERS: &[Pt] = &[
    Pt {
        x: -1000000,
        y: -414213,
    },
    Pt {
        x: -414213,
        y: -1000000,
    },
    Pt {
        x: 2414213,
        y: -1000000,
    },
    Pt {
        x: 3000000,
        y: -414213,
    },
    Pt {
        x: 3000000,
        y: 4414213,
    },
    Pt {
        x: 2414213,
        y: 5000000,
    },
    Pt {
        x: -414213,
        y: 5000000,
    },
    Pt {
        x: -1000000,
        y: 4414213,
    },
];

/// The ends of a range or of a run.
type Ends = Option<(i64, i64)>;

/// Of each piece the step, the range, and the runs in a row of the lanelet and in one beside it. They were computed by
/// another program, which lists the places of each row in whole numbers.
pub(crate) const PIECES: &[(u32, Ends, Ends, Ends)] = &[
    (0, Some((1000000, 3000000)), Some((3085786, 4914214)), None),
    (0, Some((959900, 3040100)), Some((85786, 2969464)), None),
    (0, Some((959900, 3040100)), Some((1000000, 2969464)), None),
    (
        0,
        Some((-101040100, -98959900)),
        None,
        Some((-414214, 1469464)),
    ),
    (1, Some((1000000, 3000000)), Some((3085786, 4914214)), None),
    (1, Some((959900, 3040100)), Some((85786, 2969464)), None),
    (1, Some((959900, 3040100)), Some((1000000, 2969464)), None),
    (
        1,
        Some((-101040100, -98959900)),
        None,
        Some((-414214, 1469464)),
    ),
    (2, Some((1000000, 3000000)), Some((3085786, 4914214)), None),
    (2, Some((839800, 3160200)), Some((1030536, 3000000)), None),
    (2, Some((839800, 3160200)), Some((1030536, 4134714)), None),
    (
        2,
        Some((-101160200, -98839800)),
        None,
        Some((530536, 2634714)),
    ),
    (3, Some((1000000, 3000000)), Some((3085786, 4914214)), None),
    (3, Some((639700, 3360300)), Some((1865286, 3000000)), None),
    (3, Some((639700, 3360300)), Some((1865286, 5000000)), None),
    (3, Some((639700, 3360300)), Some((3000000, 5360300)), None),
    (
        3,
        Some((-101360300, -98639700)),
        None,
        Some((1365286, 3909964)),
    ),
];
