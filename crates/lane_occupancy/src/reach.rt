//! How far the pieces of a lane motion can lead.

ghost use Rattle.std.specs.Prelude.{◌≡◌, ◌≤◌, ◌+◌, ◌-◌, ◌*◌, ◌/◌, ℕ, min};
ghost use Rattle.spot_terms.specs.LanePolygons as polygons;
ghost use Rattle.lane_occupancy.specs.Laws.{BoundsPieces};

use spot_terms::LAST_TICK;

/// The most that the pieces of a lane motion's first `ticks` ticks sum to, in µm: the sum of the speeds `speed + j·a` for
/// `j` from 1 to `ticks`, each at most `v`. The speeds are in mm/s, which is µm per tick, and `a` is in m/s².
///
/// The start speed is at most 2,000,000 and `v` at most 1,000,000, `a` is 1 to 20, and there are at most 100,000 ticks.
pub fn reach_length(speed: u64, a: u64, v: u64, ticks: u32) -> u64
    requires speed { speed ≤ 2_000_000 }
    requires a { (1 ≤ a) × (a ≤ 20) }
    requires v { v ≤ 1_000_000 }
    requires ticks { ticks ≤ LAST_TICK }
    ensures value { result ≡ polygons.reach_length speed a v ticks }
    ensures within { result ≤ 100_000_000_000 }
    ensures bounds { BoundsPieces speed a v ticks result }
{
    let ticks = u64::from(ticks);
    let rising = rising_ticks(speed, a, v, ticks);
    risen_length(speed, a, rising) + (ticks - rising) * v
}

// How many of the first ticks have a speed `speed + j·a` that is at most `v`.
fn rising_ticks(speed: u64, a: u64, v: u64, ticks: u64) -> u64
    requires a { 1 ≤ a }
    ensures value { result ≡ min ((v - speed) / a) ticks }
{
    (v.saturating_sub(speed) / a).min(ticks)
}

// The sum of the speeds `speed + j·a` for `j` from 1 to `ticks`.
fn risen_length(speed: u64, a: u64, ticks: u64) -> u64
    requires speed { speed ≤ 2_000_000 }
    requires a { a ≤ 20 }
    requires ticks { ticks ≤ LAST_TICK }
    ensures { (v : ℕ) → speed + ticks * a ≤ v → result ≡ polygons.reach_length speed a v ticks }
{
    ticks * speed + ticks * (ticks + 1) / 2 * a
}
