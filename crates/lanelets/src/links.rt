//! Which lanelets follow which.

ghost use Rattle.std.specs.Prelude.{◌≡◌, ◌<◌, ◌≤◌, length, IfOk};
ghost use Rattle.spot_terms.specs.Lists.{Pairwise};
ghost use Rattle.spot_terms.specs.Ranges.{AreBuildable};
ghost use Rattle.lanelets.specs.Links.{IsPlaceOf, ArePlaces, AreSuccessors, AreSources, AreLinks};

use crate::columns::columns_of;
use crate::lanes::{lane_at, lane_count};
use crate::numbers::{Numbers, list_at};
use indexmap::IndexMap;
use spot_terms::RawLane;
use std::alloc::{AllocError, Global};

/// For each lanelet by its position the positions of those that it follows, in any order, and of those that follow
/// it, in order.
#[derive(Drop)]
pub(crate) struct Links {
    pub(crate) sources: Vec<Numbers>,
    pub(crate) after: Vec<Numbers>,
}

// The position of the lanelet with this id.
fn place_of(lanes: &IndexMap<u32, RawLane>, id: u32) -> Option<u32>
    requires { AreBuildable lanes.now.entries }
    ensures { IsPlaceOf lanes.now.entries id result }
{
    match lanes.get_index_of(&id) {
        Some(place) => Some(place as u32),
        None => None,
    }
}

/// The positions of the lanelets with these ids, without those that aren't there.
pub(crate) fn places_of(
    alloc: Global,
    lanes: &IndexMap<u32, RawLane>,
    ids: &[u32],
) -> Result<Numbers, AllocError>
    requires { AreBuildable lanes.now.entries }
    ensures { IfOk result (λ places. ArePlaces lanes.now.entries ids.now places) }
{
    let mut places = Numbers::new(alloc);
    for id in ids {
        match place_of(lanes, *id) {
            Some(place) => places.push(place)?,
            None => {}
        }
    }
    Ok(places)
}

// For each lanelet the positions of those that it lists as successors.
fn successors_of(alloc: Global, lanes: &IndexMap<u32, RawLane>) -> Result<Vec<Numbers>, AllocError>
    requires { AreBuildable lanes.now.entries }
    ensures { IfOk result (λ rows. AreSuccessors lanes.now.entries rows.items) }
{
    let mut rows = Vec::new(alloc);
    for e in 0..lane_count(lanes) {
        let (_, lane) = lane_at(lanes, e);
        rows.push(places_of(alloc, lanes, lane.successors.list())?)?;
    }
    Ok(rows)
}

// For each lanelet the positions of those that it follows.
fn sources_of(alloc: Global, lanes: &IndexMap<u32, RawLane>) -> Result<Vec<Numbers>, AllocError>
    requires { AreBuildable lanes.now.entries }
    ensures { IfOk result (λ rows. AreSources lanes.now.entries rows.items) }
{
    let successors = successors_of(alloc, lanes)?;
    let listing = columns_of(alloc, &successors, lane_count(lanes))?;
    let mut rows = Vec::new(alloc);
    for f in 0..lane_count(lanes) {
        let (_, lane) = lane_at(lanes, f);
        let mut row = places_of(alloc, lanes, lane.predecessors.list())?;
        row.extend(list_at(&listing, f))?;
        rows.push(row)?;
    }
    Ok(rows)
}

/// Which lanelets follow which.
pub(crate) fn links_of(alloc: Global, lanes: &IndexMap<u32, RawLane>) -> Result<Links, AllocError>
    requires { AreBuildable lanes.now.entries }
    ensures { IfOk result (λ links. AreLinks lanes.now.entries links) }
{
    let sources = sources_of(alloc, lanes)?;
    let after = columns_of(alloc, &sources, lane_count(lanes))?;
    Ok(Links { sources, after })
}
