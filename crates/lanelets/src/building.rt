//! How a network is built.

ghost use Rattle.std.specs.Prelude.{◌≡◌, ◌≤◌, length, IfOk, IfErr};
ghost use Rattle.spot_terms.specs.Cells.{cells};
ghost use Rattle.spot_terms.specs.Lists.{Pairwise};
ghost use Rattle.lanelets.specs.Answers.{IsNetFault};
ghost use Rattle.spot_terms.specs.Limits.{HasNetwork};
ghost use Rattle.spot_terms.specs.Ranges.{AreBuildable};
ghost use Rattle.lanelets.specs.Links.{AreLinks};
ghost use Rattle.lanelets.specs.Made.{IsPlaced};

use crate::ahead::ahead_of;
use crate::boxes::cell_boxes;
use crate::bridges::add_bridges;
use crate::cell::Placed;
use crate::classes::classes_of;
use crate::counts::cell_count;
use crate::fault::NetFault;
use crate::kept::kept_lanes;
use crate::links::{Links, links_of};
use crate::making::add_lanes;
use crate::nearby::nearby_of;
use crate::network::Network;
use crate::placed::PlacedCells;
use crate::widths::first_wide;
use indexmap::IndexMap;
use spot_terms::{MOST_CELLS, RawLane};
use std::alloc::{AllocError, Global};

// All cells, of which there are `count`.
fn cells_of(
    alloc: Global,
    lanes: &IndexMap<u32, RawLane>,
    links: &Links,
    count: u64,
) -> Result<Vec<Placed>, AllocError>
    requires buildable { AreBuildable lanes.now.entries }
    requires links { AreLinks lanes.now.entries links.now }
    requires count { count ≡ length (cells lanes.now.entries) }
    ensures { IfOk result (λ made. Pairwise (IsPlaced lanes.now.entries) (cells lanes.now.entries) made.items) }
{
    let mut made = Vec::with_capacity(alloc, count as usize)?;
    add_lanes(&mut made, lanes)?;
    add_bridges(&mut made, lanes, links)?;
    Ok(made)
}

// The network of lanelets with so many cells.
fn network_of(
    alloc: Global,
    lanes: &IndexMap<u32, RawLane>,
    links: &Links,
    count: u64,
) -> Result<Network, AllocError>
    requires buildable { AreBuildable lanes.now.entries }
    requires links { AreLinks lanes.now.entries links.now }
    requires count { count ≡ length (cells lanes.now.entries) }
    requires few { length (cells lanes.now.entries) ≤ MOST_CELLS }
    ensures { IfOk result (λ network. network ≡ lanes.now.entries) }
{
    let cells = PlacedCells::from_vec(cells_of(alloc, lanes, links, count)?);
    let kept = kept_lanes(alloc, lanes)?;
    let ahead = ahead_of(alloc, lanes, links, &cells)?;
    let nearby = nearby_of(alloc, lanes, &cells)?;
    let classes = classes_of(alloc, &cells, &kept, &nearby)?;
    let boxes = cell_boxes(alloc, cells.list())?;
    Ok(Network::of(lanes, cells, boxes, kept, ahead, classes))
}

/// The network of lanelets, which are kept by their ids in document order.
///
/// There is none where it would have more than 100,000 cells, or else where a lanelet is too wide, or where there isn't
/// enough memory.
pub fn build(alloc: Global, lanes: &IndexMap<u32, RawLane>) -> Result<Network, NetFault>
    requires { AreBuildable lanes.now.entries }
    ensures ok { IfOk result (λ network. (network ≡ lanes.now.entries) × HasNetwork lanes.now.entries) }
    ensures fault { IfErr result (IsNetFault lanes.now.entries) }
{
    let Ok(links) = links_of(alloc, lanes) else {
        return Err(NetFault::Memory);
    };
    let count = cell_count(lanes, &links);
    if count > u64::from(MOST_CELLS) {
        return Err(NetFault::TooManyCells(count));
    }
    if let Some(id) = first_wide(lanes) {
        return Err(NetFault::LaneTooWide(id));
    }
    match network_of(alloc, lanes, &links, count) {
        Ok(network) => Ok(network),
        Err(_) => Err(NetFault::Memory),
    }
}
