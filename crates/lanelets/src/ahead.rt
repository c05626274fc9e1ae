//! Which cells are ahead of which.

ghost use Rattle.std.specs.Prelude.{◌≡◌, ◌↔◌, ◌⊎◌, ◌<◌, ◌≤◌, ◌+◌, ℕ, length, IsTrue, IfOk, OnOk};
ghost use Rattle.std.specs.List.{AllByRecursion};
ghost use Rattle.spot_terms.specs.Lists.{Includes};
ghost use Rattle.spot_terms.specs.Network.{EndsLane, IsAhead};
ghost use Rattle.spot_terms.specs.Ranges.{AreBuildable};
ghost use Rattle.lanelets.specs.Links.{AreLinks};
ghost use Rattle.lanelets.specs.Listing.{AreBelow, AreLists, Gathers};
ghost use Rattle.lanelets.specs.Steps.{net_of, IsOfLane, LeadsTo, IsInside, IsJoined, IsJoinedFrom, AreJoints, IsOntoFirst};

use crate::columns::columns_of;
use crate::lanes::{lane_at, lane_count};
use crate::links::Links;
use crate::numbers::{Numbers, list_at};
use crate::placed::PlacedCells;
use crate::portals::{first_portal, is_same_portal, last_portal};
use crate::steps::{Joints, is_of_lane, joints_of, origin_at};
use indexmap::IndexMap;
use spot_terms::{Origin, RawLane};
use std::alloc::{AllocError, Global};

// Whether the lanelet at `f` begins where that at `e` ends.
fn is_joined(lanes: &IndexMap<u32, RawLane>, e: u32, f: u32) -> bool
    requires buildable { AreBuildable lanes.now.entries }
    requires from { e < length lanes.now.entries }
    requires to { f < length lanes.now.entries }
    ensures { IsTrue result ↔ IsJoined lanes.now.entries e f }
{
    let (_, lane) = lane_at(lanes, e);
    let (_, next) = lane_at(lanes, f);
    is_same_portal(last_portal(lane), first_portal(next))
}

// Adds the last cells of those of the lanelets at `sources` that end where the lanelet at `f` begins.
fn add_joined(
    row: &mut Numbers,
    lanes: &IndexMap<u32, RawLane>,
    sources: &[u32],
    f: u32,
    ends: &[Numbers],
) -> Result<(), AllocError>
    requires buildable { AreBuildable lanes.now.entries }
    requires to { f < length lanes.now.entries }
    requires within { AreBelow (length lanes.now.entries) sources.now }
    requires many { length ends.now ≡ length lanes.now.entries }
    ensures { OnOk result (Gathers (IsJoinedFrom lanes.now.entries sources.now f ends.now) row.old row.new) }
{
    for e in sources {
        if is_joined(lanes, *e, f) {
            row.extend(list_at(ends, *e))?;
        }
    }
    Ok(())
}

// Adds the cell before this one, where it is of this lanelet.
fn add_previous(row: &mut Numbers, cells: &PlacedCells, d: u32, lane: u32) -> Result<(), AllocError>
    ensures { OnOk result (Gathers (λ c. (d ≡ c + 1) × IsOfLane (net_of cells.now) c lane) row.old row.new) }
{
    if d > 0 && is_of_lane(cells, d - 1, lane) {
        row.push(d - 1)?;
    }
    Ok(())
}

// Adds the cells from which one goes ahead to the first of the lanelet at `f`.
fn add_onto_first(
    row: &mut Numbers,
    lanes: &IndexMap<u32, RawLane>,
    links: &Links,
    joints: &Joints,
    f: u32,
) -> Result<(), AllocError>
    requires buildable { AreBuildable lanes.now.entries }
    requires links { AreLinks lanes.now.entries links.now }
    requires within { f < length lanes.now.entries }
    requires ends { length joints.now.ends.items ≡ length lanes.now.entries }
    requires leads { length joints.now.leads.items ≡ length lanes.now.entries }
    ensures { OnOk result (Gathers (IsOntoFirst lanes.now.entries links.now joints.now f) row.old row.new) }
{
    add_joined(row, lanes, list_at(&links.sources, f), f, &joints.ends)?;
    row.extend(list_at(&joints.leads, f))?;
    Ok(())
}

// Whether this is the first part of a lanelet.
fn is_first(piece: u32, part: u32) -> bool
    ensures { IsTrue result ↔ ((piece ≡ 0) × (part ≡ 0)) }
{
    piece == 0 && part == 0
}

// The cells from which one goes ahead to the cell with this number.
fn cells_before(
    alloc: Global,
    lanes: &IndexMap<u32, RawLane>,
    links: &Links,
    cells: &PlacedCells,
    joints: &Joints,
    d: u32,
) -> Result<Numbers, AllocError>
    requires buildable { AreBuildable lanes.now.entries }
    requires links { AreLinks lanes.now.entries links.now }
    requires inside { AllByRecursion (λ p. IsInside (length lanes.now.entries) p.origin) cells.now }
    requires joints { AreJoints (length lanes.now.entries) (net_of cells.now) joints.now }
    requires within { d < length cells.now }
    ensures { IfOk result (λ row. (c : ℕ) → (Includes row c ↔ IsAhead lanes.now.entries (net_of cells.now) c d)) }
{
    let mut row = Numbers::new(alloc);
    match origin_at(cells, d) {
        Origin::Bridge { from, .. } => row.extend(list_at(&joints.ends, from))?,
        Origin::Part {
            lane,
            piece,
            part,
            ..
        } => {
            add_previous(&mut row, cells, d, lane)?;
            if is_first(piece, part) {
                add_onto_first(&mut row, lanes, links, joints, lane)?;
            }
        }
    }
    Ok(row)
}

/// For each cell the numbers of those ahead, in order.
pub(crate) fn ahead_of(
    alloc: Global,
    lanes: &IndexMap<u32, RawLane>,
    links: &Links,
    cells: &PlacedCells,
) -> Result<Vec<Numbers>, AllocError>
    requires buildable { AreBuildable lanes.now.entries }
    requires links { AreLinks lanes.now.entries links.now }
    requires inside { AllByRecursion (λ p. IsInside (length lanes.now.entries) p.origin) cells.now }
    ensures { IfOk result (λ ahead. AreLists (IsAhead lanes.now.entries (net_of cells.now)) (length cells.now) ahead.items) }
{
    let joints = joints_of(alloc, cells, lane_count(lanes))?;
    let mut rows = Vec::new(alloc);
    for d in 0..cells.len() {
        rows.push(cells_before(alloc, lanes, links, cells, &joints, d)?)?;
    }
    let ahead = columns_of(alloc, &rows, cells.len())?;
    Ok(ahead)
}
