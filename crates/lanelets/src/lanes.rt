//! The lanelets of which a network is built.

ghost use Rattle.std.specs.Prelude.{◌≡◌, ◌<◌, ◌≤◌, length, slice_get, Some};
ghost use Rattle.spot_terms.specs.Ranges.{AreBuildable, IsLaneInRange, lane_size};

use indexmap::IndexMap;
use spot_terms::{MOST_BYTES, RawLane};

/// The number of lanelets.
pub(crate) fn lane_count(lanes: &IndexMap<u32, RawLane>) -> u32
    requires { AreBuildable lanes.now.entries }
    ensures is { result ≡ length lanes.now.entries }
    ensures few { result ≤ MOST_BYTES }
{
    lanes.len() as u32
}

/// The id and the lanelet at a position.
pub(crate) fn lane_at(lanes: &IndexMap<u32, RawLane>, e: u32) -> (u32, &RawLane)
    requires buildable { AreBuildable lanes.now.entries }
    requires within { e < length lanes.now.entries }
    ensures is { slice_get lanes.now.entries e ≡ Some (result.0, result.1.now) }
    ensures range { IsLaneInRange result.1.now }
    ensures few { lane_size result.1.now ≤ MOST_BYTES }
{
    let (id, lane) = lanes.get_index(e as usize).unwrap();
    (*id, lane)
}
