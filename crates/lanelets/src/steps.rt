//! Where lanelets end, and where bridges lead.

ghost use Rattle.std.specs.Prelude.{◌≡◌, ◌↔◌, ◌<◌, ◌≤◌, ℕ, length, Some, IsTrue, IfOk};
ghost use Rattle.std.specs.List.{AllByRecursion};
ghost use Rattle.spot_terms.specs.Network.{EndsLane, lane_of};
ghost use Rattle.lanelets.specs.Listing.{AreRows};
ghost use Rattle.lanelets.specs.Steps.{net_of, HasOrigin, IsOfLane, LeadsTo, IsInside, AreJoints};

use crate::columns::columns_of;
use crate::numbers::{Numbers, one_or_none};
use crate::placed::PlacedCells;
use spot_terms::{MOST_CELLS, Origin};
use std::alloc::{AllocError, Global};

/// For each lanelet by its position the cells at which it ends, and the bridges that lead to it.
#[derive(Drop)]
pub(crate) struct Joints {
    pub(crate) ends: Vec<Numbers>,
    pub(crate) leads: Vec<Numbers>,
}

/// Where the cell with a number comes from.
pub(crate) fn origin_at(cells: &PlacedCells, c: u32) -> Origin
    requires { c < length cells.now }
    ensures is { HasOrigin (net_of cells.now) c result }
    ensures few { length cells.now ≤ MOST_CELLS }
{
    cells.list()[c as usize].origin
}

// Whether a cell that comes from there is a part of the lanelet at this position.
fn is_part_of(origin: Origin, e: u32) -> bool
    ensures { IsTrue result ↔ (lane_of origin ≡ Some e) }
{
    match origin {
        Origin::Part { lane, .. } => lane == e,
        Origin::Bridge { .. } => false,
    }
}

// Whether there is a cell with this number, and it is a part of the lanelet.
pub(crate) fn is_of_lane(cells: &PlacedCells, c: u32, e: u32) -> bool
    ensures { IsTrue result ↔ IsOfLane (net_of cells.now) c e }
{
    if c >= cells.len() {
        return false;
    }
    is_part_of(origin_at(cells, c), e)
}

// The lanelet of which the cell is the last.
fn ended_lane(cells: &PlacedCells, c: u32) -> Option<u32>
    requires { c < length cells.now }
    ensures { (e : ℕ) → (result ≡ Some e) ↔ EndsLane (net_of cells.now) c e }
{
    match origin_at(cells, c) {
        Origin::Part { lane, .. } => {
            if is_of_lane(cells, c + 1, lane) {
                None
            } else {
                Some(lane)
            }
        }
        Origin::Bridge { .. } => None,
    }
}

// The lanelet to which the cell leads as a bridge.
fn bridged_lane(cells: &PlacedCells, c: u32) -> Option<u32>
    requires { c < length cells.now }
    ensures { (f : ℕ) → (result ≡ Some f) ↔ LeadsTo (net_of cells.now) c f }
{
    match origin_at(cells, c) {
        Origin::Part { .. } => None,
        Origin::Bridge { to, .. } => Some(to),
    }
}

// For each cell the lanelet that it ends.
fn ended_lanes(alloc: Global, cells: &PlacedCells) -> Result<Vec<Numbers>, AllocError>
    ensures is { IfOk result (λ rows. AreRows (λ c e. EndsLane (net_of cells.now) c e) (length cells.now) rows.items) }
    ensures few { length cells.now ≤ MOST_CELLS }
{
    let mut rows = Vec::new(alloc);
    for c in 0..cells.len() {
        rows.push(one_or_none(alloc, ended_lane(cells, c))?)?;
    }
    Ok(rows)
}

// For each cell the lanelet to which it leads as a bridge.
fn bridged_lanes(alloc: Global, cells: &PlacedCells) -> Result<Vec<Numbers>, AllocError>
    ensures { IfOk result (λ rows. AreRows (λ c f. LeadsTo (net_of cells.now) c f) (length cells.now) rows.items) }
{
    let mut rows = Vec::new(alloc);
    for c in 0..cells.len() {
        rows.push(one_or_none(alloc, bridged_lane(cells, c))?)?;
    }
    Ok(rows)
}

/// The cells at which so many lanelets end, and the bridges that lead to them.
pub(crate) fn joints_of(
    alloc: Global,
    cells: &PlacedCells,
    count: u32,
) -> Result<Joints, AllocError>
    requires { AllByRecursion (λ p. IsInside count p.origin) cells.now }
    ensures { IfOk result (λ joints. AreJoints count (net_of cells.now) joints) }
{
    let ended = ended_lanes(alloc, cells)?;
    let bridged = bridged_lanes(alloc, cells)?;
    let ends = columns_of(alloc, &ended, count)?;
    let leads = columns_of(alloc, &bridged, count)?;
    Ok(Joints { ends, leads })
}
