mod cases;

ghost use Rattle.std.specs.Prelude.{◌≡◌, ◌≤◌, ◌↔◌, length, IfOk, IsTrue};
ghost use Rattle.std.specs.List.{AllByRecursion};
ghost use Rattle.spot_terms.specs.Ranges.{AreBuildable, IsLaneInRange, IsPairInRange, lane_size};
ghost use Rattle.spot_terms.specs.Whole.{SizeAtMost};

use super::*;
use cases::{CASES, Case, FAULTS, LaneRow, Places};
use indexmap::IndexMap;
use spot_terms::{IdList, PtList, RawLane};
use std::alloc::{AllocError, Global};
use std::process::Abort;
use std::test::Fail;

// Whether a coordinate can be one of a lanelet.
fn is_near(coordinate: i64) -> bool
    ensures { IsTrue result ↔ SizeAtMost 10_000_000_000_000 coordinate }
{
    coordinate.unsigned_abs() <= 10_000_000_000_000
}

// A point of a bound.
fn point_of(rt: &impl Abort, point: (i64, i64)) -> (i64, i64)
    ensures { IsPairInRange result }
{
    assert!(rt; is_near(point.0) && is_near(point.1));
    point
}

// The points of a bound.
fn bound_of(
    rt: &impl Abort,
    alloc: Global,
    bound: &[(i64, i64)],
) -> Result<Vec<(i64, i64)>, AllocError>
    ensures same { IfOk result (λ points. length points.items ≡ length bound.now) }
    ensures near { IfOk result (λ points. AllByRecursion IsPairInRange points.items) }
{
    let mut points = Vec::new(alloc);
    for point in bound {
        points.push(point_of(rt, *point))?;
    }
    Ok(points)
}

// The lanelet of a row.
fn lane_of(rt: &impl Abort, alloc: Global, row: &LaneRow) -> Result<RawLane, AllocError>
    ensures range { IfOk result (λ lane. IsLaneInRange lane) }
    ensures size { IfOk result (λ lane. lane_size lane ≤ 100) }
{
    assert!(rt; row.left.len() == row.right.len());
    assert!(rt; 2 <= row.left.len() && row.left.len() <= 10);
    assert!(rt; row.successors.len() <= 10 && row.sides.len() <= 10);
    let left = bound_of(rt, alloc, row.left)?;
    let right = bound_of(rt, alloc, row.right)?;
    let successors = row.successors.to_vec(alloc)?;
    let sides = row.sides.to_vec(alloc)?;
    Ok(RawLane {
        left: PtList::from_vec(left),
        right: PtList::from_vec(right),
        successors: IdList::from_vec(successors),
        predecessors: IdList::from_vec(Vec::new(alloc)),
        sides: IdList::from_vec(sides),
    })
}

// One lanelet.
fn one(alloc: Global, id: u32, lane: RawLane) -> Result<IndexMap<u32, RawLane>, AllocError>
    requires range { IsLaneInRange lane }
    requires size { lane_size lane ≤ 100 }
    ensures { IfOk result (λ lanes. AreBuildable lanes.entries) }
{
    let mut lanes = IndexMap::new(alloc);
    lanes.insert(id, lane)?;
    Ok(lanes)
}

// Two lanelets, 1 and 2.
fn two(alloc: Global, first: RawLane, second: RawLane) -> Result<IndexMap<u32, RawLane>, AllocError>
    requires first_in { IsLaneInRange first }
    requires second_in { IsLaneInRange second }
    requires first_size { lane_size first ≤ 100 }
    requires second_size { lane_size second ≤ 100 }
    ensures { IfOk result (λ lanes. AreBuildable lanes.entries) }
{
    let mut lanes = IndexMap::new(alloc);
    lanes.insert(1, first)?;
    lanes.insert(2, second)?;
    Ok(lanes)
}

// The lanelets of rows: one with the id 5, or the lanelets 1 and 2.
fn lanes_of(
    rt: &impl Abort,
    alloc: Global,
    first: &LaneRow,
    second: &Option<LaneRow>,
) -> Result<IndexMap<u32, RawLane>, AllocError>
    ensures { IfOk result (λ lanes. AreBuildable lanes.entries) }
{
    match second {
        None => one(alloc, 5, lane_of(rt, alloc, first)?),
        Some(other) => two(
            alloc,
            lane_of(rt, alloc, first)?,
            lane_of(rt, alloc, other)?,
        ),
    }
}

// The cells ahead of one, or none where there is no such cell.
fn ahead(net: &Network, c: u32) -> &[u32] {
    if c < net.len() { net.ahead(c) } else { &[] }
}

// Whether one goes ahead from a cell to another.
fn goes_ahead(net: &Network, c: u32, d: u32) -> bool {
    c < net.len() && d < net.len() && net.is_ahead(c, d)
}

// Whether two cells lie side by side.
fn beside(net: &Network, c: u32, d: u32) -> bool {
    c < net.len() && d < net.len() && net.is_side(c, d)
}

// Whether a cell is of this lanelet and has these corners.
fn is_cell(net: &Network, c: u32, lane: u32, corners: Places) -> bool {
    if c >= net.len() {
        return false;
    }
    let cell = net.cell(c);
    let found = cell.poly.corners();
    cell.lane == lane
        && found.len() == corners.len()
        && found
            .iter()
            .zip(corners)
            .all(|(corner, (x, y))| corner.x == *x && corner.y == *y)
}

// Asks what a case says of the steps from cell to cell.
fn has_steps(rt: &impl Abort, net: &Network, case: &Case) {
    for (c, cells) in case.ahead {
        assert_eq!(rt; ahead(net, *c), *cells, "{}: ahead of {c}", case.name);
    }
    for (c, d, goes) in case.steps {
        assert_eq!(rt; goes_ahead(net, *c, *d), *goes, "{}: {c} to {d}", case.name);
    }
    for (c, d, lies) in case.sides {
        assert_eq!(rt; beside(net, *c, *d), *lies, "{}: {c} beside {d}", case.name);
    }
}

// Asks what a case says of the cells and of the points in them.
fn has_cells(rt: &impl Abort, alloc: Global, net: &Network, case: &Case) -> Result<(), Fail> {
    assert_eq!(rt; net.len(), case.count, "{}", case.name);
    for (c, lane, corners) in case.cells {
        assert!(rt;
            is_cell(net, *c, *lane, *corners),
            "{}: cell {c}",
            case.name
        );
    }
    for ((x, y), cells) in case.points {
        let holding = net.cells_at(alloc, Pt { x: *x, y: *y })?;
        assert_eq!(rt; holding.list(), *cells, "{}: cells at {x}, {y}", case.name);
    }
    Ok(())
}

#[test]
fn networks(rt: HostRuntime) -> Result<(), Fail> {
    for case in CASES {
        let lanes = lanes_of(&rt, rt.alloc(), &case.first, &case.second)?;
        let net = build(rt.alloc(), &lanes)?;
        has_cells(&rt, rt.alloc(), &net, case)?;
        has_steps(&rt, &net, case);
    }
    Ok(())
}

#[test]
fn faults(rt: HostRuntime) -> Result<(), Fail> {
    for (name, first, second, fault) in FAULTS {
        let lanes = lanes_of(&rt, rt.alloc(), first, second)?;
        assert_eq!(rt; build(rt.alloc(), &lanes).err(), Some(*fault), "{name}");
    }
    Ok(())
}
