//! The lanelets of a tree.

ghost use Rattle.std.specs.Prelude.{◌≡◌, ◌<◌, ◌≤◌, ◌++◌, ◌↔◌, ℕ, length, map, option_map, Some, None, Ok, true, false, nat_eq, IfOk, OnOk, IsTrue, codes};
ghost use Rattle.indexmap.specs.IndexMap.{get};
ghost use Rattle.std.specs.List.{All, filter_map};
ghost use Rattle.spot_claims.specs.Tree.{all_named};
ghost use Rattle.spot_claims.specs.Paths.{id_at};
ghost use Rattle.spot_claims.specs.Scenario.{below, reference_at as the_reference_at};
ghost use Rattle.scenario.specs.Table.{step_of};
ghost use Rattle.scenario.specs.Found.{FindsPoints, FindsLane, FindsLanes};
ghost use Rattle.scenario.specs.Has.{HasLane};
ghost use Rattle.scenario.specs.Lanes.{link_of, AddsLane};

use crate::known::id_at as id_of_element;
use crate::numbers::read_id;
use crate::table::{COORDINATE_RANGE, LEFT_POINT, Path, RIGHT_POINT};
use crate::values::find_point;
use crate::walk::{each_child, walk};
use indexmap::IndexMap;
use spot_terms::{IdList, PtList, RawLane};
use spot_tree::Tree;
use std::alloc::{AllocError, Global};

// Which references count.
#[derive(Clone, Copy, Debug, PartialEq, Eq)]
enum Link {
    /// Each.
    Any,
    /// Those to a lanelet that is driven in the same direction.
    SameDirection,
}

// The id that an element refers to.
fn reference_at(tree: &Tree, e: u32) -> Option<u32>
    requires { e < length tree.now }
    ensures { result ≡ the_reference_at tree.now e }
{
    read_id(tree.attr(e, "ref")?)
}

// The id that an element refers to, where it counts.
fn link_at(tree: &Tree, e: u32, link: Link) -> Option<u32>
    requires { e < length tree.now }
    ensures { result ≡ link_of link tree.now e }
{
    match link {
        Link::Any => reference_at(tree, e),
        Link::SameDirection => {
            if tree.attr(e, "drivingDir")? == "same" {
                reference_at(tree, e)
            } else {
                None
            }
        }
    }
}

// Adds the ids that the children of a name refer to.
fn add_links(
    alloc: Global,
    tree: &Tree,
    e: u32,
    name: &str,
    link: Link,
    ids: &mut Vec<u32>,
) -> Result<(), AllocError>
    requires { e < length tree.now }
    ensures { OnOk result (ids.new.items ≡ ids.old.items ++ filter_map (link_of link tree.now) (all_named tree.now name.now e)) }
{
    let children = each_child(alloc, tree, name, &[e])?;
    for c in &children {
        if let Some(id) = link_at(tree, *c, link) {
            ids.push(id)?;
        }
    }
    Ok(())
}

// The ids that the children of a name refer to.
fn links_of(alloc: Global, tree: &Tree, e: u32, name: &str) -> Result<IdList, AllocError>
    requires { e < length tree.now }
    ensures { IfOk result (λ ids. ids ≡ filter_map (link_of Link.Any tree.now) (all_named tree.now name.now e)) }
{
    let mut ids = Vec::new(alloc);
    add_links(alloc, tree, e, name, Link::Any, &mut ids)?;
    Ok(IdList::from_vec(ids))
}

// The ids of the neighbours to both sides that are driven in the same direction.
fn sides_of(alloc: Global, tree: &Tree, e: u32) -> Result<IdList, AllocError>
    requires { e < length tree.now }
    ensures { IfOk result (λ ids. ids ≡ filter_map (link_of Link.SameDirection tree.now) (all_named tree.now (codes "adjacentLeft") e)
        ++ filter_map (link_of Link.SameDirection tree.now) (all_named tree.now (codes "adjacentRight") e)) }
{
    let mut ids = Vec::new(alloc);
    add_links(
        alloc,
        tree,
        e,
        "adjacentLeft",
        Link::SameDirection,
        &mut ids,
    )?;
    add_links(
        alloc,
        tree,
        e,
        "adjacentRight",
        Link::SameDirection,
        &mut ids,
    )?;
    Ok(IdList::from_vec(ids))
}

// The points of these elements, exactly where each has one.
fn points_of(alloc: Global, tree: &Tree, elements: &[u32]) -> Result<Option<PtList>, AllocError>
    requires { All (λ e. e < length tree.now) elements.now }
    ensures { IfOk result (λ found. FindsPoints tree.now elements.now found) }
{
    let mut points = Vec::new(alloc);
    for e in elements {
        let Some(point) = find_point(tree, *e, &COORDINATE_RANGE) else {
            return Ok(None);
        };
        points.push((point.x, point.y))?;
    }
    Ok(Some(PtList::from_vec(points)))
}

// The points of a bound, by the way to them.
fn bound_at(alloc: Global, tree: &Tree, e: u32, way: Path) -> Result<Option<PtList>, AllocError>
    requires { e < length tree.now }
    ensures { IfOk result (λ found. FindsPoints tree.now (below tree.now e (map step_of way.now)) found) }
{
    let elements = walk(alloc, tree, way, &[e])?;
    points_of(alloc, tree, &elements)
}

// Whether two bounds have as many points, and at least two.
fn are_even(left: &PtList, right: &PtList) -> bool
    ensures { IsTrue result ↔ ((length left.now ≡ length right.now) × (2 ≤ length left.now)) }
{
    let count = left.list().len();
    count == right.list().len() && 2 <= count
}

// The lanelet of an element, exactly where it has all that is read of it but for its id.
fn lane_at(alloc: Global, tree: &Tree, e: u32) -> Result<Option<RawLane>, AllocError>
    requires { e < length tree.now }
    ensures { IfOk result (λ found. FindsLane tree.now e found) }
{
    let Some(left) = bound_at(alloc, tree, e, LEFT_POINT)? else {
        return Ok(None);
    };
    let Some(right) = bound_at(alloc, tree, e, RIGHT_POINT)? else {
        return Ok(None);
    };
    if !are_even(&left, &right) {
        return Ok(None);
    }
    Ok(Some(RawLane {
        left,
        right,
        successors: links_of(alloc, tree, e, "successor")?,
        predecessors: links_of(alloc, tree, e, "predecessor")?,
        sides: sides_of(alloc, tree, e)?,
    }))
}

// Adds the lanelet of an element, exactly where it has all that is read of it, and no other has its id.
fn add_lane(
    alloc: Global,
    tree: &Tree,
    e: u32,
    lanes: &mut IndexMap<u32, RawLane>,
) -> Result<bool, AllocError>
    requires { e < length tree.now }
    ensures added { result ≡ Ok true → AddsLane tree.now e lanes.old.entries lanes.new.entries }
    ensures not { result ≡ Ok false → HasLane tree.now e → ((i : ℕ) → id_at tree.now e ≡ Some i → get nat_eq lanes.old i ≡ None) → ⊥ }
{
    let Some(id) = id_of_element(tree, e) else {
        return Ok(false);
    };
    let Some(lane) = lane_at(alloc, tree, e)? else {
        return Ok(false);
    };
    let other = lanes.insert(id, lane)?;
    Ok(other.is_none())
}

/// The lanelets of a tree by their ids, in document order. There are none only where the tree isn't accepted.
pub(crate) fn lanes_of(
    alloc: Global,
    tree: &Tree,
) -> Result<Option<IndexMap<u32, RawLane>>, AllocError>
    ensures { IfOk result (λ found. FindsLanes tree.now (option_map (λ lanes. lanes.entries) found)) }
{
    prove!(0 < tree.len());
    let mut lanes = IndexMap::new(alloc);
    for e in tree.children(0) {
        if tree.name(*e) == "lanelet" && !add_lane(alloc, tree, *e, &mut lanes)? {
            return Ok(None);
        }
    }
    Ok(Some(lanes))
}
