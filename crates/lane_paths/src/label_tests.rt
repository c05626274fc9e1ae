ghost use Rattle.std.specs.Prelude.{◌<◌, ◌≤◌, length, IfOk};
ghost use Rattle.spot_terms.specs.Ranges.{AreBuildable, IsLaneInRange, IsPairInRange, lane_size};

use super::*;
use indexmap::IndexMap;
use lanelets::build;
use spot_terms::{IdList, PtList, RawLane};
use std::alloc::{AllocError, Global};
use std::test::Fail;

/// A point in cm.
fn place(x: u16, y: u16) -> (i64, i64)
    ensures { IsPairInRange result }
{
    (i64::from(x) * 10_000, i64::from(y) * 10_000)
}

/// A lanelet by pairs of a left and a right point in cm.
fn lane(
    alloc: Global,
    pairs: &[[u16; 4]],
    successors: &[u32],
    sides: &[u32],
) -> Result<RawLane, AllocError>
    requires some { 2 ≤ length pairs.now }
    requires few { length pairs.now ≤ 10 }
    requires few_successors { length successors.now ≤ 10 }
    requires few_sides { length sides.now ≤ 10 }
    ensures { IfOk result (λ l. IsLaneInRange l × (lane_size l ≤ 40)) }
{
    let mut left = Vec::new(alloc);
    let mut right = Vec::new(alloc);
    for pair in pairs {
        left.push(place(pair[0], pair[1]))?;
        right.push(place(pair[2], pair[3]))?;
    }
    Ok(RawLane {
        left: PtList::from_vec(left),
        right: PtList::from_vec(right),
        successors: IdList::from_vec(successors.to_vec(alloc)?),
        predecessors: IdList::from_vec(Vec::new(alloc)),
        sides: IdList::from_vec(sides.to_vec(alloc)?),
    })
}

/// A lanelet of one cell, 1 m long and 4 m wide, that begins at the place in m.
fn one_metre(alloc: Global, x: u16, successors: &[u32]) -> Result<RawLane, AllocError>
    requires place { x < 20_000 }
    requires few_successors { length successors.now ≤ 10 }
    ensures { IfOk result (λ l. IsLaneInRange l × (lane_size l ≤ 40)) }
{
    let (from, to) = (
        i64::from(x) * 1_000_000,
        i64::from(x) * 1_000_000 + 1_000_000,
    );
    let left = [(from, 4_000_000), (to, 4_000_000)];
    let right = [(from, 0), (to, 0)];
    Ok(RawLane {
        left: PtList::from_vec(left.to_vec(alloc)?),
        right: PtList::from_vec(right.to_vec(alloc)?),
        successors: IdList::from_vec(successors.to_vec(alloc)?),
        predecessors: IdList::from_vec(Vec::new(alloc)),
        sides: IdList::from_vec(Vec::new(alloc)),
    })
}

/// A road of one lane, 20 km long, in lanelets of 1 m, which stand in another order than on the road. The ids go by the
/// places on the road.
fn scattered(alloc: Global) -> Result<IndexMap<u32, RawLane>, AllocError>
    ensures { IfOk result (λ lanes. AreBuildable lanes.entries) }
{
    let mut lanes = IndexMap::new(alloc);
    for index in 0..20_000u32 {
        let x = index * 9_999 % 20_000;
        let next = [x + 2];
        let successors: &[u32] = if x < 19_999 { &next } else { &[] };
        lanes.insert(x + 1, one_metre(alloc, x as u16, successors)?)?;
    }
    Ok(lanes)
}

/// One lanelet, with the id 1.
fn one(alloc: Global, first: RawLane) -> Result<IndexMap<u32, RawLane>, AllocError>
    requires { IsLaneInRange first × (lane_size first ≤ 40) }
    ensures { IfOk result (λ lanes. AreBuildable lanes.entries) }
{
    let mut lanes = IndexMap::new(alloc);
    lanes.insert(1, first)?;
    Ok(lanes)
}

/// Two lanelets, with the ids 1 and 2.
fn two(alloc: Global, first: RawLane, second: RawLane) -> Result<IndexMap<u32, RawLane>, AllocError>
    requires first { IsLaneInRange first × (lane_size first ≤ 40) }
    requires second { IsLaneInRange second × (lane_size second ≤ 40) }
    ensures { IfOk result (λ lanes. AreBuildable lanes.entries) }
{
    let mut lanes = IndexMap::new(alloc);
    lanes.insert(1, first)?;
    lanes.insert(2, second)?;
    Ok(lanes)
}

/// The labels from a start in cm, cell by cell. None where there is no network.
fn labels_from(
    alloc: Global,
    lanes: &IndexMap<u32, RawLane>,
    start: (u16, u16),
    limit: u64,
) -> Result<Vec<Option<u64>>, AllocError>
    requires { AreBuildable lanes.now.entries }
{
    let mut found = Vec::new(alloc);
    let Ok(net) = build(alloc, lanes) else {
        return Ok(found);
    };
    let (x, y) = place(start.0, start.1);
    let table = labels(alloc, &net, Pt { x, y }, limit)?;
    for c in 0..net.len() {
        found.push(table.get(c))?;
    }
    Ok(found)
}

/// The labels of two lanelets, the first of which refers to the second by these ids.
pub(crate) fn labels_of_two(
    alloc: Global,
    first: &[[u16; 4]],
    successors: &[u32],
    sides: &[u32],
    second: &[[u16; 4]],
    start: (u16, u16),
    limit: u64,
) -> Result<Vec<Option<u64>>, AllocError>
    requires first { (2 ≤ length first.now) × (length first.now ≤ 10) }
    requires successors { length successors.now ≤ 10 }
    requires sides { length sides.now ≤ 10 }
    requires second { (2 ≤ length second.now) × (length second.now ≤ 10) }
{
    let first = lane(alloc, first, successors, sides)?;
    let second = lane(alloc, second, &[], &[])?;
    let lanes = two(alloc, first, second)?;
    labels_from(alloc, &lanes, start, limit)
}

/// A road of one lane, whose cells go round a bend: a way past its inner corner is shorter than its middle line.
#[test]
fn bend(rt: HostRuntime) -> Result<(), Fail> {
    let alloc = rt.alloc();
    let pairs = [
        [0, 400, 0, 0],
        [200, 400, 200, 0],
        [200, 400, 600, 400],
        [200, 600, 600, 600],
        [200, 800, 600, 800],
    ];
    let lanes = one(alloc, lane(alloc, &pairs, &[], &[])?)?;
    let found = labels_from(alloc, &lanes, (100, 200), 3_361_800)?;
    let expected = [
        Some(0),
        Some(1_000_000),
        Some(1_000_000),
        Some(1_000_000),
        Some(1_000_000),
        Some(3_000_000),
    ];
    assert_eq!(rt; found.as_slice(), expected.as_slice());
    Ok(())
}

/// Lanelets side by side: a side move costs the way across.
#[test]
fn side_by_side(rt: HostRuntime) -> Result<(), Fail> {
    let first = [[0, 400, 0, 0], [200, 400, 200, 0]];
    let second = [[0, 800, 0, 400], [200, 800, 200, 400]];
    let found = labels_of_two(
        rt.alloc(),
        &first,
        &[],
        &[2],
        &second,
        (100, 200),
        3_361_800,
    )?;
    let expected = [Some(0), Some(2_000_000)];
    assert_eq!(rt; found.as_slice(), expected.as_slice());
    Ok(())
}

/// The same lanelets, where neither lists the other.
#[test]
fn no_neighbours(rt: HostRuntime) -> Result<(), Fail> {
    let first = [[0, 400, 0, 0], [200, 400, 200, 0]];
    let second = [[0, 800, 0, 400], [200, 800, 200, 400]];
    let found = labels_of_two(rt.alloc(), &first, &[], &[], &second, (100, 200), 3_361_800)?;
    let expected = [Some(0), None];
    assert_eq!(rt; found.as_slice(), expected.as_slice());
    Ok(())
}

/// A lanelet that follows 3 cm ahead, over a bridge.
#[test]
fn bridge(rt: HostRuntime) -> Result<(), Fail> {
    let first = [[0, 400, 0, 0], [200, 400, 200, 0]];
    let second = [[203, 400, 203, 0], [403, 400, 403, 0]];
    let found = labels_of_two(
        rt.alloc(),
        &first,
        &[2],
        &[],
        &second,
        (100, 200),
        3_361_800,
    )?;
    let expected = [Some(0), Some(1_030_000), Some(1_000_000)];
    assert_eq!(rt; found.as_slice(), expected.as_slice());
    Ok(())
}

/// Neighbours with other numbers of points, of which all cells lie side by side; the first is without width.
#[test]
fn uneven_neighbours(rt: HostRuntime) -> Result<(), Fail> {
    let first = [[21, 127, 40, 127], [194, 23, 203, 23], [375, 112, 384, 112]];
    let second = [[21, 377, 22, 227], [152, 497, 152, 347]];
    let found = labels_of_two(rt.alloc(), &first, &[], &[2], &second, (114, 75), 5_000_000)?;
    let expected = [
        Some(0),
        Some(0),
        Some(892_202),
        Some(1_631_724),
        Some(1_743_968),
    ];
    assert_eq!(rt; found.as_slice(), expected.as_slice());
    Ok(())
}

/// The same with so many cells that their block is closed, once all have a length.
#[test]
fn closed_block(rt: HostRuntime) -> Result<(), Fail> {
    let first = [
        [0, 400, 0, 0],
        [1400, 600, 1500, 200],
        [2000, 1400, 2400, 1300],
    ];
    let second = [[0, 800, 0, 400], [2000, 1900, 2000, 1400]];
    let found = labels_of_two(
        rt.alloc(),
        &first,
        &[],
        &[2],
        &second,
        (100, 200),
        30_000_000,
    )?;
    let expected = [
        Some(0),
        Some(819_912),
        Some(2_582_098),
        Some(4_347_793),
        Some(6_115_287),
        Some(7_883_053),
        Some(9_650_668),
        Some(11_416_766),
        Some(13_179_765),
        Some(14_106_528),
        Some(15_072_104),
        Some(15_861_169),
        Some(16_611_169),
        Some(17_361_169),
        Some(18_111_169),
        Some(18_861_169),
        Some(1_378_928),
        Some(1_409_167),
        Some(2_944_502),
        Some(4_611_169),
        Some(6_277_835),
        Some(7_944_502),
        Some(9_611_169),
        Some(11_277_835),
        Some(12_944_502),
        Some(14_611_169),
        Some(16_277_835),
        Some(17_944_502),
    ];
    assert_eq!(rt; found.as_slice(), expected.as_slice());
    Ok(())
}

/// A lanelet that is ahead and beside at once. The last cell is beyond the limit.
#[test]
fn successor_and_neighbour(rt: HostRuntime) -> Result<(), Fail> {
    let first = [[13, 233, 33, 83], [224, 150, 229, 0], [446, 150, 450, 0]];
    let second = [[446, 150, 450, 0], [546, 158, 562, 8], [778, 162, 800, 12]];
    let found = labels_of_two(
        rt.alloc(),
        &first,
        &[2],
        &[2],
        &second,
        (124, 116),
        5_000_000,
    )?;
    let expected = [
        Some(0),
        Some(7_889),
        Some(973_519),
        Some(2_078_022),
        Some(3_182_629),
        Some(4_185_823),
        None,
    ];
    assert_eq!(rt; found.as_slice(), expected.as_slice());
    Ok(())
}

/// A bridge and cells beyond the limit.
#[test]
fn short_limit(rt: HostRuntime) -> Result<(), Fail> {
    let first = [
        [21, 332, 37, 182],
        [106, 262, 132, 112],
        [291, 381, 318, 231],
    ];
    let second = [
        [331, 381, 358, 231],
        [431, 552, 440, 202],
        [569, 616, 569, 266],
    ];
    let found = labels_of_two(rt.alloc(), &first, &[2], &[], &second, (74, 222), 2_000_000)?;
    let expected = [Some(0), Some(383_613), Some(1_398_020), None, None, None];
    assert_eq!(rt; found.as_slice(), expected.as_slice());
    Ok(())
}

/// A road of 20,000 lanelets: the labels of its second and of its last cell, which are the 10,000th and the 10,002nd.
#[test]
fn scattered_road(rt: HostRuntime) -> Result<(), Fail> {
    let alloc = rt.alloc();
    let lanes = scattered(alloc)?;
    let found = labels_from(alloc, &lanes, (50, 200), 20_000_000_000)?;
    assert_eq!(rt; found.len(), 20_000);
    assert_eq!(rt; found.get(9_999).copied(), Some(Some(500_000)));
    assert_eq!(rt; found.get(10_001).copied(), Some(Some(19_998_500_000)));
    Ok(())
}
