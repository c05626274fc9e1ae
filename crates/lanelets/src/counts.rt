//! How many cells there are.

ghost use Rattle.std.specs.Prelude.{◌≡◌, ◌≤◌, ◌*◌, ℕ, length};
ghost use Rattle.spot_terms.specs.Cells.{cells_from, lane_cells, cells};
ghost use Rattle.spot_terms.specs.Ranges.{AreBuildable, IsLaneInRange, lane_size};
ghost use Rattle.lanelets.specs.Links.{AreLinks};

use crate::bridges::bridge_count;
use crate::lanes::{lane_at, lane_count};
use crate::links::Links;
use crate::making::piece_at;
use crate::piece::part_count;
use indexmap::IndexMap;
use spot_terms::{MOST_BYTES, RawLane};

// The number of cells of a lanelet.
fn part_count_of(lane: &RawLane) -> u64
    requires range { IsLaneInRange lane.now }
    requires few { lane_size lane.now ≤ MOST_BYTES }
    ensures value { (n : ℕ) → result ≡ length (cells_from n 0 lane.now.left lane.now.right) }
    ensures few { result ≤ 14_200_000 * lane_size lane.now }
{
    let mut count = 0;
    for q in 0..lane.left.list().len() - 1 {
        count += u64::from(part_count(&piece_at(lane, q)));
    }
    count
}

// The number of cells of all lanelets.
fn total_part_count(lanes: &IndexMap<u32, RawLane>) -> u64
    requires { AreBuildable lanes.now.entries }
    ensures value { result ≡ length (lane_cells 0 lanes.now.entries) }
    ensures few { result ≤ 952_945_868_800_000 }
{
    let mut count = 0;
    for e in 0..lane_count(lanes) {
        let (_, lane) = lane_at(lanes, e);
        count += part_count_of(lane);
    }
    count
}

/// The number of all cells, counted without making them.
pub(crate) fn cell_count(lanes: &IndexMap<u32, RawLane>, links: &Links) -> u64
    requires buildable { AreBuildable lanes.now.entries }
    requires links { AreLinks lanes.now.entries links.now }
    ensures { result ≡ length (cells lanes.now.entries) }
{
    total_part_count(lanes) + bridge_count(lanes, links)
}
