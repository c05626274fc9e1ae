//! The bridges between lanelets that follow each other.

ghost use Rattle.std.specs.Prelude.{◌≡◌, ◌<◌, ◌≤◌, length, slice_get, Some, OnOk};
ghost use Rattle.spot_terms.specs.Cells.{bridges_from};
ghost use Rattle.lanelets.specs.Bridges.{IsBridge, bridges_of};
ghost use Rattle.lanelets.specs.Links.{IsFollowed, AreLinks};
ghost use Rattle.spot_terms.specs.Lists.{Lists};
ghost use Rattle.spot_terms.specs.Ranges.{AreBuildable};
ghost use Rattle.lanelets.specs.Made.{Adds, IsPlaced};
ghost use Rattle.lanelets.specs.Pieces.{AreNear};

use crate::cell::{Cell, Placed};
use crate::lanes::{lane_at, lane_count};
use crate::links::Links;
use crate::numbers::list_at;
use crate::piece::hull_between;
use crate::portals::{first_portal, is_same_portal, last_portal};
use indexmap::IndexMap;
use spot_terms::{MOST_BYTES, Origin, Pt, RawLane};
use std::alloc::AllocError;

/// The lanelets that a bridge leads from and to, by their positions, and the id of the first.
#[derive(Clone, Copy)]
struct Ends {
    from: u32,
    id: u32,
    to: u32,
}

// The bridge between two portals.
fn bridge_between(ends: Ends, entry: (Pt, Pt), exit: (Pt, Pt)) -> Placed
    requires entry_in { AreNear entry }
    requires exit_in { AreNear exit }
    ensures { IsBridge ends.from ends.id ends.to entry exit result }
{
    let origin = Origin::Bridge {
        from: ends.from,
        to: ends.to,
    };
    let cell = Cell {
        lane: ends.id,
        poly: hull_between(entry, exit),
        entry,
        exit,
    };
    Placed { origin, cell }
}

// Adds the bridges from a lanelet to those that follow it.
fn add_bridges_from(
    made: &mut Vec<Placed>,
    lanes: &IndexMap<u32, RawLane>,
    from: u32,
    after: &[u32],
) -> Result<(), AllocError>
    requires buildable { AreBuildable lanes.now.entries }
    requires within { from < length lanes.now.entries }
    requires after { Lists (IsFollowed lanes.now.entries from) after.now }
    ensures { OnOk result (Adds (IsPlaced lanes.now.entries) (bridges_of lanes.now.entries from) made.old.items made.new.items) }
{
    let (id, lane) = lane_at(lanes, from);
    let entry = last_portal(lane);
    for to in after {
        let (_, next) = lane_at(lanes, *to);
        let exit = first_portal(next);
        if !is_same_portal(entry, exit) {
            let ends = Ends { from, id, to: *to };
            made.push(bridge_between(ends, entry, exit))?;
        }
    }
    Ok(())
}

/// Adds all bridges.
pub(crate) fn add_bridges(
    made: &mut Vec<Placed>,
    lanes: &IndexMap<u32, RawLane>,
    links: &Links,
) -> Result<(), AllocError>
    requires buildable { AreBuildable lanes.now.entries }
    requires links { AreLinks lanes.now.entries links.now }
    ensures { OnOk result (Adds (IsPlaced lanes.now.entries) (bridges_from lanes.now.entries 0 lanes.now.entries) made.old.items made.new.items) }
{
    for e in 0..lane_count(lanes) {
        add_bridges_from(made, lanes, e, list_at(&links.after, e))?;
    }
    Ok(())
}

// The number of bridges from a lanelet.
fn bridge_count_from(lanes: &IndexMap<u32, RawLane>, from: u32, after: &[u32]) -> u64
    requires buildable { AreBuildable lanes.now.entries }
    requires within { from < length lanes.now.entries }
    requires after { Lists (IsFollowed lanes.now.entries from) after.now }
    ensures value { result ≡ length (bridges_of lanes.now.entries from) }
    ensures few { result ≤ MOST_BYTES }
{
    let (_, lane) = lane_at(lanes, from);
    let entry = last_portal(lane);
    let mut count = 0;
    for to in after {
        let (_, next) = lane_at(lanes, *to);
        if !is_same_portal(entry, first_portal(next)) {
            count += 1;
        }
    }
    count
}

/// The number of all bridges.
pub(crate) fn bridge_count(lanes: &IndexMap<u32, RawLane>, links: &Links) -> u64
    requires buildable { AreBuildable lanes.now.entries }
    requires links { AreLinks lanes.now.entries links.now }
    ensures value { result ≡ length (bridges_from lanes.now.entries 0 lanes.now.entries) }
    ensures few { result ≤ 4_503_599_627_370_496 }
{
    let mut count = 0;
    for e in 0..lane_count(lanes) {
        count += bridge_count_from(lanes, e, list_at(&links.after, e));
    }
    count
}
