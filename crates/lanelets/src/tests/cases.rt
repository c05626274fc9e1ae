//! Lanelets, and what is asked of their networks.

use crate::NetFault;

/// Places x and y, in µm.
pub(crate) type Places = &'static [(i64, i64)];

/// A lanelet: the points of its bounds, and the ids of its successors and neighbours.
pub(crate) struct LaneRow {
    pub(crate) left: Places,
    pub(crate) right: Places,
    pub(crate) successors: &'static [u32],
    pub(crate) sides: &'static [u32],
}

/// A lanelet with the id 5, or the lanelets 1 and 2, and what is asked of the network: how many cells it has, of cells
/// the lanelet and the corners, the cells at points, the cells ahead of cells, and of pairs of cells whether one goes
/// ahead from the first to the second, and whether they lie side by side.
pub(crate) struct Case {
    pub(crate) name: &'static str,
    pub(crate) first: LaneRow,
    pub(crate) second: Option<LaneRow>,
    pub(crate) count: u32,
    pub(crate) cells: &'static [(u32, u32, Places)],
    pub(crate) points: &'static [((i64, i64), &'static [u32])],
    pub(crate) ahead: &'static [(u32, &'static [u32])],
    pub(crate) steps: &'static [(u32, u32, bool)],
    pub(crate) sides: &'static [(u32, u32, bool)],
}

pub(crate) const CASES: &[Case] = &[
    Case {
        name: "a bend is cut into parts of at most 2 m: five pieces, of which one has two parts",
        first: LaneRow {
            left: &[
                (0, 4_000_000),
                (2_000_000, 4_000_000),
                (2_000_000, 4_000_000),
                (2_000_000, 6_000_000),
                (2_000_000, 8_000_000),
            ],
            right: &[
                (0, 0),
                (2_000_000, 0),
                (6_000_000, 4_000_000),
                (6_000_000, 6_000_000),
                (6_000_000, 8_000_000),
            ],
            successors: &[],
            sides: &[],
        },
        second: None,
        count: 6,
        cells: &[],
        points: &[],
        ahead: &[(0, &[1]), (4, &[5]), (5, &[])],
        steps: &[],
        sides: &[],
    },
    Case {
        name: "two lanelets of which one lists the other as a neighbour have side cells, and a point between them is of both",
        first: LaneRow {
            left: &[(0, 4_000_000), (2_000_000, 4_000_000)],
            right: &[(0, 0), (2_000_000, 0)],
            successors: &[],
            sides: &[2],
        },
        second: Some(LaneRow {
            left: &[(0, 8_000_000), (2_000_000, 8_000_000)],
            right: &[(0, 4_000_000), (2_000_000, 4_000_000)],
            successors: &[],
            sides: &[],
        }),
        count: 2,
        cells: &[],
        points: &[
            ((1_000_000, 4_000_000), &[0, 1]),
            ((1_000_000, 9_000_000), &[]),
            ((i64::MIN, 0), &[]),
        ],
        ahead: &[],
        steps: &[(0, 1, false)],
        sides: &[(0, 1, true), (1, 0, true), (0, 0, false)],
    },
    Case {
        name: "300 m are cut into 150 cells, and points are found in the first, between two, in the last, and in none",
        first: LaneRow {
            left: &[(0, 4_000_000), (300_000_000, 4_000_000)],
            right: &[(0, 0), (300_000_000, 0)],
            successors: &[],
            sides: &[],
        },
        second: None,
        count: 150,
        cells: &[],
        points: &[
            ((1_000_000, 2_000_000), &[0]),
            ((128_000_000, 2_000_000), &[63, 64]),
            ((300_000_000, 4_000_000), &[149]),
            ((300_000_001, 2_000_000), &[]),
        ],
        ahead: &[],
        steps: &[],
        sides: &[],
    },
    Case {
        name: "between a lanelet and one that follows it after a gap there is a bridge",
        first: LaneRow {
            left: &[(0, 4_000_000), (2_000_000, 4_000_000)],
            right: &[(0, 0), (2_000_000, 0)],
            successors: &[2],
            sides: &[],
        },
        second: Some(LaneRow {
            left: &[(2_030_000, 4_000_000), (4_030_000, 4_000_000)],
            right: &[(2_030_000, 0), (4_030_000, 0)],
            successors: &[],
            sides: &[],
        }),
        count: 3,
        cells: &[(
            2,
            1,
            &[
                (2_000_000, 0),
                (2_030_000, 0),
                (2_030_000, 4_000_000),
                (2_000_000, 4_000_000),
            ],
        )],
        points: &[],
        ahead: &[(0, &[2]), (1, &[]), (2, &[1])],
        steps: &[(2, 1, true), (1, 2, false)],
        sides: &[],
    },
    Case {
        name: "a lanelet that begins where the one before ends is joined to it with no bridge",
        first: LaneRow {
            left: &[(0, 4_000_000), (2_000_000, 4_000_000)],
            right: &[(0, 0), (2_000_000, 0)],
            successors: &[2],
            sides: &[],
        },
        second: Some(LaneRow {
            left: &[(2_000_000, 4_000_000), (4_000_000, 4_000_000)],
            right: &[(2_000_000, 0), (4_000_000, 0)],
            successors: &[],
            sides: &[],
        }),
        count: 2,
        cells: &[],
        points: &[],
        ahead: &[(0, &[1])],
        steps: &[],
        sides: &[],
    },
    Case {
        name: "but not where its sides are changed",
        first: LaneRow {
            left: &[(0, 4_000_000), (2_000_000, 4_000_000)],
            right: &[(0, 0), (2_000_000, 0)],
            successors: &[2],
            sides: &[],
        },
        second: Some(LaneRow {
            left: &[(2_000_000, 0), (4_000_000, 0)],
            right: &[(2_000_000, 4_000_000), (4_000_000, 4_000_000)],
            successors: &[],
            sides: &[],
        }),
        count: 3,
        cells: &[],
        points: &[],
        ahead: &[(0, &[2])],
        steps: &[],
        sides: &[],
    },
    Case {
        name: "a lanelet may be 100 m wide",
        first: LaneRow {
            left: &[(0, 100_000_000), (2_000_000, 100_000_000)],
            right: &[(0, 0), (2_000_000, 0)],
            successors: &[],
            sides: &[],
        },
        second: None,
        count: 1,
        cells: &[],
        points: &[],
        ahead: &[],
        steps: &[],
        sides: &[],
    },
    Case {
        name: "a lanelet of no width has a segment as its cell",
        first: LaneRow {
            left: &[(0, 0), (2_000_000, 0)],
            right: &[(0, 0), (2_000_000, 0)],
            successors: &[],
            sides: &[],
        },
        second: None,
        count: 1,
        cells: &[(0, 5, &[(0, 0), (2_000_000, 0)])],
        points: &[((1_000_000, 0), &[0]), ((1_000_000, 1), &[])],
        ahead: &[],
        steps: &[],
        sides: &[],
    },
    Case {
        name: "a lanelet whose points are all the same has a point as its cell",
        first: LaneRow {
            left: &[(5, 5), (5, 5)],
            right: &[(5, 5), (5, 5)],
            successors: &[],
            sides: &[],
        },
        second: None,
        count: 1,
        cells: &[(0, 5, &[(5, 5)])],
        points: &[],
        ahead: &[],
        steps: &[],
        sides: &[],
    },
    Case {
        name: "where the bounds cross, a cell is the hull of its corners, and cuts are rounded down",
        first: LaneRow {
            left: &[(0, 4_000_000), (2_000_000, 0)],
            right: &[(0, 0), (2_000_000, 4_000_000)],
            successors: &[],
            sides: &[],
        },
        second: None,
        count: 3,
        cells: &[(
            1,
            5,
            &[
                (666_666, 1_333_333),
                (1_333_333, 1_333_333),
                (1_333_333, 2_666_666),
                (666_666, 2_666_666),
            ],
        )],
        points: &[],
        ahead: &[],
        steps: &[],
        sides: &[],
    },
    Case {
        name: "a lanelet that follows itself has a bridge from its end to its start",
        first: LaneRow {
            left: &[(0, 4_000_000), (2_000_000, 4_000_000)],
            right: &[(0, 0), (2_000_000, 0)],
            successors: &[5],
            sides: &[],
        },
        second: None,
        count: 2,
        cells: &[],
        points: &[],
        ahead: &[(0, &[1]), (1, &[0])],
        steps: &[],
        sides: &[],
    },
    Case {
        name: "or its last cell goes ahead to its first",
        first: LaneRow {
            left: &[(0, 4_000_000), (0, 4_000_000)],
            right: &[(0, 0), (0, 0)],
            successors: &[5],
            sides: &[],
        },
        second: None,
        count: 1,
        cells: &[],
        points: &[],
        ahead: &[(0, &[0])],
        steps: &[],
        sides: &[],
    },
];

/// A name, the lanelets, and why there is no network.
pub(crate) const FAULTS: &[(&str, LaneRow, Option<LaneRow>, NetFault)] = &[
    (
        "300 km are 150,000 cells, which are counted and not made",
        LaneRow {
            left: &[(0, 4_000_000), (300_000_000_000, 4_000_000)],
            right: &[(0, 0), (300_000_000_000, 0)],
            successors: &[],
            sides: &[],
        },
        None,
        NetFault::TooManyCells(150_000),
    ),
    (
        "200 km and 1 µm are one cell more than are allowed",
        LaneRow {
            left: &[(0, 4_000_000), (200_000_000_001, 4_000_000)],
            right: &[(0, 0), (200_000_000_000, 0)],
            successors: &[],
            sides: &[],
        },
        None,
        NetFault::TooManyCells(100_001),
    ),
    (
        "a lanelet may be no more than 100 m wide",
        LaneRow {
            left: &[(0, 100_000_001), (2_000_000, 100_000_001)],
            right: &[(0, 0), (2_000_000, 0)],
            successors: &[],
            sides: &[],
        },
        None,
        NetFault::LaneTooWide(5),
    ),
    (
        "the second of two lanelets is too wide, along the x axis",
        LaneRow {
            left: &[(0, 4_000_000), (2_000_000, 4_000_000)],
            right: &[(0, 0), (2_000_000, 0)],
            successors: &[],
            sides: &[],
        },
        Some(LaneRow {
            left: &[(0, 0), (0, 2_000_000)],
            right: &[(100_000_001, 0), (100_000_000, 2_000_000)],
            successors: &[],
            sides: &[],
        }),
        NetFault::LaneTooWide(2),
    ),
];
