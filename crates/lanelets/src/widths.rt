//! How wide lanelets are.

ghost use Rattle.std.specs.Prelude.{◌↔◌, IsTrue};
ghost use Rattle.spot_terms.specs.Ranges.{AreBuildable, IsLaneInRange, IsPairInRange};
ghost use Rattle.spot_terms.specs.Limits.{AreFarApart, IsTooWide, IsFirstWide};

use crate::lanes::{lane_at, lane_count};
use indexmap::IndexMap;
use spot_terms::RawLane;

/// How far the two points of a lanelet's bounds may differ in a coordinate, in µm.
const MOST_ACROSS: u64 = 100_000_000;

// Whether two points differ too much in a coordinate.
fn are_far_apart(p: (i64, i64), q: (i64, i64)) -> bool
    requires p_in { IsPairInRange p }
    requires q_in { IsPairInRange q }
    ensures { IsTrue result ↔ AreFarApart p q }
{
    p.0.abs_diff(q.0) > MOST_ACROSS || p.1.abs_diff(q.1) > MOST_ACROSS
}

// Whether points of the two bounds at one place differ too much.
fn is_too_wide(lane: &RawLane) -> bool
    requires { IsLaneInRange lane.now }
    ensures { IsTrue result ↔ IsTooWide lane.now }
{
    let left = lane.left.list();
    let right = lane.right.list();
    for k in 0..left.len() {
        if are_far_apart(left[k], right[k]) {
            return true;
        }
    }
    false
}

/// The id of the first lanelet that is too wide.
pub(crate) fn first_wide(lanes: &IndexMap<u32, RawLane>) -> Option<u32>
    requires { AreBuildable lanes.now.entries }
    ensures { IsFirstWide lanes.now.entries result }
{
    for e in 0..lane_count(lanes) {
        let (id, lane) = lane_at(lanes, e);
        if is_too_wide(lane) {
            return Some(id);
        }
    }
    None
}
