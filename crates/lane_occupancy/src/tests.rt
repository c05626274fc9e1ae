ghost use Rattle.std.specs.Prelude.{◌≤◌, length, IfOk};
ghost use Rattle.spot_terms.specs.Ranges.{AreBuildable, IsLaneInRange, IsPairInRange, IsStart, lane_size};

use super::*;
use convex_poly::Pt;
use heading::start_speed;
use indexmap::IndexMap;
use lane_paths::labels;
use lanelets::build;
use spot_terms::{IdList, PtList, RawLane, VBox};
use std::alloc::{AllocError, Global};
use std::test::Fail;

#[test]
fn reach_lengths(rt: HostRuntime) -> Result<(), Fail> {
    assert_eq!(rt; reach_length(10_002, 8, 70_000, 0), 0);
    assert_eq!(rt; reach_length(10_002, 8, 70_000, 100), 1_040_600);
    assert_eq!(rt; reach_length(10_002, 8, 70_000, 200), 2_161_200);
    assert_eq!(rt; reach_length(10_002, 8, 70_000, 300), 3_361_800);
    assert_eq!(rt; reach_length(69_996, 8, 70_000, 2), 140_000);
    assert_eq!(rt; reach_length(70_003, 8, 70_000, 2), 140_000);
    Ok(())
}

// A point in metres.
fn place(x: u8, y: u8) -> (i64, i64)
    ensures { IsPairInRange result }
{
    (i64::from(x) * 1_000_000, i64::from(y) * 1_000_000)
}

// A lanelet by pairs of a left and a right point in metres.
fn lane(alloc: Global, pairs: &[[u8; 4]]) -> Result<RawLane, AllocError>
    requires some { 2 ≤ length pairs.now }
    requires few { length pairs.now ≤ 10 }
    ensures { IfOk result (λ l. IsLaneInRange l × (lane_size l ≤ 20)) }
{
    let mut left = Vec::new(alloc);
    let mut right = Vec::new(alloc);
    for pair in pairs {
        left.push(place(pair[0], pair[1]))?;
        right.push(place(pair[2], pair[3]))?;
    }
    Ok(RawLane {
        left: PtList::from_vec(left),
        right: PtList::from_vec(right),
        successors: IdList::from_vec(Vec::new(alloc)),
        predecessors: IdList::from_vec(Vec::new(alloc)),
        sides: IdList::from_vec(Vec::new(alloc)),
    })
}

// One lanelet, with the id 1.
fn one(alloc: Global, first: RawLane) -> Result<IndexMap<u32, RawLane>, AllocError>
    requires { IsLaneInRange first × (lane_size first ≤ 20) }
    ensures { IfOk result (λ lanes. AreBuildable lanes.entries) }
{
    let mut lanes = IndexMap::new(alloc);
    lanes.insert(1, first)?;
    Ok(lanes)
}

// A car at (1, 2) in metres, with 10 m/s along x and a body of radius 1 m. Its start speed is 10,002.
fn car() -> AccStart
    ensures { IsStart result }
{
    AccStart {
        p: Pt {
            x: 1_000_000,
            y: 2_000_000,
        },
        b: VBox {
            xlo: 9_999,
            xhi: 10_001,
            ylo: -1,
            yhi: 1,
        },
        a: 8,
        v: 70_000,
        r: 1_000_000,
    }
}

// The number of cells that a participant reaches on lanelets in intervals of 100 ticks, and its lane polygons. Nothing
// where there is no network.
fn polygons_on(
    alloc: Global,
    lanes: &IndexMap<u32, RawLane>,
    s: &AccStart,
    steps: u32,
) -> Result<(u32, LanePolys), AllocError>
    requires lanes { AreBuildable lanes.now.entries }
    requires start { IsStart s.now }
    requires steps { steps ≤ 100 }
{
    let Ok(net) = build(alloc, lanes) else {
        return Ok((0, LanePolys::from_vec(Vec::new(alloc))));
    };
    let speed = start_speed(&s.b);
    let limit = reach_length(speed, s.a.unsigned_abs(), s.v.unsigned_abs(), steps * 100);
    let table = labels(alloc, &net, s.p, limit)?;
    let count = reached_cells(alloc, &net, &table, s, 100, steps)?;
    Ok((count, lane_polys(alloc, &net, &table, s, 100, steps)?))
}

// The corners of the polygon of a cell, as x and y.
fn corners_of(alloc: Global, polys: &LanePolys, cell: u32) -> Result<Vec<(i64, i64)>, AllocError> {
    let mut corners = Vec::new(alloc);
    for x in polys.list() {
        if x.cell == cell {
            for p in x.poly.corners() {
                corners.push((p.x, p.y))?;
            }
        }
    }
    Ok(corners)
}

/// A lanelet of one cell, in one interval. The corners are those of a program that was written apart from this one.
#[test]
fn one_cell(rt: HostRuntime) -> Result<(), Fail> {
    let alloc = rt.alloc();
    let lanes = one(alloc, lane(alloc, &[[0, 4, 0, 0], [2, 4, 2, 0]])?)?;
    let (count, polys) = polygons_on(alloc, &lanes, &car(), 1)?;
    assert_eq!(rt; count, 1);
    assert_eq!(rt; polys.list().len(), 1);
    let expected = [
        (-1_000_000, -414_213),
        (-414_213, -1_000_000),
        (2_414_213, -1_000_000),
        (3_000_000, -414_213),
        (3_000_000, 4_414_213),
        (2_414_213, 5_000_000),
        (-414_213, 5_000_000),
        (-1_000_000, 4_414_213),
    ];
    assert_eq!(rt;
        corners_of(alloc, &polys, 0)?.as_slice(),
        expected.as_slice()
    );
    Ok(())
}

/// A bend of six cells, the last of which is reached in the third interval. The corners of a cell in the bend are those of
/// the other program.
#[test]
fn bend(rt: HostRuntime) -> Result<(), Fail> {
    let alloc = rt.alloc();
    let pairs = [
        [0, 4, 0, 0],
        [2, 4, 2, 0],
        [2, 4, 6, 4],
        [2, 6, 6, 6],
        [2, 8, 6, 8],
    ];
    let lanes = one(alloc, lane(alloc, &pairs)?)?;
    let (count, polys) = polygons_on(alloc, &lanes, &car(), 3)?;
    assert_eq!(rt; count, 6);
    let mut firsts = Vec::new(alloc);
    for x in polys.list() {
        firsts.push((x.cell, x.first))?;
    }
    let expected = [(0, 0), (1, 0), (2, 0), (3, 0), (4, 0), (5, 2)];
    assert_eq!(rt; firsts.as_slice(), expected.as_slice());
    let corners = [
        (1_000_000, 3_585_787),
        (2_333_333, 919_120),
        (2_919_120, 333_333),
        (3_747_546, 333_333),
        (5_666_666, 2_252_453),
        (5_666_666, 3_080_879),
        (5_080_879, 3_666_666),
        (2_414_213, 5_000_000),
        (1_585_787, 5_000_000),
        (1_000_000, 4_414_213),
    ];
    assert_eq!(rt;
        corners_of(alloc, &polys, 2)?.as_slice(),
        corners.as_slice()
    );
    Ok(())
}

/// A straight lanelet of three cells: in two intervals two of them are reached, and in no interval none.
#[test]
fn too_few_intervals(rt: HostRuntime) -> Result<(), Fail> {
    let alloc = rt.alloc();
    let pairs = [[0, 4, 0, 0], [2, 4, 2, 0], [4, 4, 4, 0], [6, 4, 6, 0]];
    let lanes = one(alloc, lane(alloc, &pairs)?)?;
    let (two, polys) = polygons_on(alloc, &lanes, &car(), 2)?;
    assert_eq!(rt; two, 2);
    assert_eq!(rt; polys.list().len(), 2);
    let (none, polys) = polygons_on(alloc, &lanes, &car(), 0)?;
    assert_eq!(rt; none, 0);
    assert!(rt; polys.list().is_empty());
    Ok(())
}
