//! The intervals that cells are reached in first.

ghost use Rattle.std.specs.Prelude.{◌≡◌, ◌<◌, ◌≤◌, ℕ, List, Option, Some, length, slice_index_or, IfOk, IfSome, IfNone};
ghost use Rattle.std.specs.List.Sorted.{IsNonDecreasingBy};
ghost use Rattle.spot_terms.specs.Bodies.{IsLeast};
ghost use Rattle.spot_terms.specs.LanePolygons.{reach_of};
ghost use Rattle.spot_terms.specs.Motions.{IsStartSpeed};
ghost use Rattle.spot_terms.specs.Ranges.{IsStart};
ghost use Rattle.lane_paths.specs.Labels.{label_at};
ghost use Rattle.lane_occupancy.specs.Reaches.{ends_at, IsWithin};

use crate::reach::reach_length;
use lane_paths::CellLabel;
use spot_terms::{AccStart, LAST_TICK, MOST_STEPS, MOST_TICKS};
use std::alloc::{AllocError, Global};

/// The reach lengths at the ends of the intervals below `steps`, each of `k` ticks, of a start with this start speed.
pub(crate) fn interval_ends(
    alloc: Global,
    s: &AccStart,
    speed: u64,
    k: u32,
    steps: u32,
) -> Result<Vec<u64>, AllocError>
    requires start { IsStart s.now }
    requires speed { IsStartSpeed s.now.b speed }
    requires ticks { k ≤ MOST_TICKS }
    requires steps { steps ≤ MOST_STEPS }
    ensures { IfOk result (λ ends. ends.items ≡ ends_at s.now speed k steps) }
{
    let mut ends = Vec::with_capacity(alloc, steps as usize)?;
    for i in 0..steps {
        ends.push(reach_at(s, speed, (i + 1) * k))?;
    }
    Ok(ends)
}

// The reach length at a tick, of a start with this start speed.
fn reach_at(s: &AccStart, speed: u64, ticks: u32) -> u64
    requires start { IsStart s.now }
    requires speed { IsStartSpeed s.now.b speed }
    requires ticks { ticks ≤ LAST_TICK }
    ensures { result ≡ reach_of s.now speed ticks }
{
    reach_length(speed, s.a.unsigned_abs(), s.v.unsigned_abs(), ticks)
}

/// The first interval at whose end a cell's label is at most the reach length; `None` where there is none.
pub(crate) fn first_interval(ends: &[u64], x: &CellLabel) -> Option<u32>
    requires few { length ends.now ≤ MOST_STEPS }
    requires ends { IsNonDecreasingBy (λ end. end) ends.now }
    ensures some { IfSome result (λ i. (labels : List (Option ℕ)) → label_at labels x.now.cell ≡ Some x.now.label → IsLeast (IsWithin labels ends.now x.now.cell) i) }
    ensures none { IfNone result ((labels : List (Option ℕ)) → label_at labels x.now.cell ≡ Some x.now.label → (i : ℕ) → IsWithin labels ends.now x.now.cell i → ⊥) }
{
    let first = ends_below(ends, x.label);
    if first < ends.len() {
        Some(first as u32)
    } else {
        None
    }
}

// How many ends are below the label: the first ones.
fn ends_below(ends: &[u64], label: u64) -> usize
    requires { IsNonDecreasingBy (λ end. end) ends.now }
    ensures bound { result ≤ length ends.now }
    ensures below { (i d : ℕ) → i < result → slice_index_or ends.now i d < label }
    ensures above { (i d : ℕ) → result ≤ i → i < length ends.now → label ≤ slice_index_or ends.now i d }
{
    ends.partition_point(|end| *end < label)
}
