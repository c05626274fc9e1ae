//! The numbers of a start: how far its motions reach, and the octagons of its intervals.

ghost use Rattle.std.specs.Prelude.{◌≡◌, ◌<◌, ◌≤◌, ◌≤ℤ◌, List, Option, Some, slice_get, map};
ghost use Rattle.std.specs.List.{AllByRecursion};
ghost use Rattle.spot_terms.specs.Ranges.{IsStart};
ghost use Rattle.spot_terms.specs.Motions.{State, IsPlanarMotion};
ghost use Rattle.spot_terms.specs.Reach as reach;
ghost use Rattle.spot_terms.specs.Reach.{normal_at, along};
ghost use Rattle.spot_terms.specs.Whole.{SizeAtMost};
ghost use Rattle.acc_occupancy.specs.Lines.{AreLines, AreLinesInRange, line_number};
ghost use Rattle.acc_occupancy.specs.Runs.{HoldsBodies};

use crate::line::Line;
use convex_poly::OctNumbers;
use spot_terms::{AccStart, LAST_TICK, MOST_STEPS, MOST_TICKS};

/// How far the motions of a start reach at most along a normal at a tick, in µm: from the start, with each tick half of
/// the greatest speeds at its two ends and of the rounding, rounded down. No motion is beyond it.
///
/// `normal` is below 8, and `tick` at most 100,000.
pub fn reach_number(s: &AccStart, normal: u32, tick: u32) -> i64
    requires start { IsStart s.now }
    requires normal { normal < 8 }
    requires tick { tick ≤ LAST_TICK }
    ensures value { result ≡ reach.reach_number s.now (normal_at normal) tick }
    ensures motions { (states : List State) (st : State) → IsPlanarMotion s.now.p s.now.b s.now.a s.now.v states → slice_get states tick ≡ Some st → along (normal_at normal) st.p ≤ℤ result }
{
    Line::of(s, normal).place_at(tick)
}

/// The octagon of interval `i` of `k` ticks: along each normal the greatest reach number of its ticks, both ends
/// included, and how far the body reaches. It holds the body of each motion of the start at each of these ticks.
///
/// `k` is at most 1000, and `i` below 100.
pub fn interval_numbers(s: &AccStart, k: u32, i: u32) -> OctNumbers
    requires start { IsStart s.now }
    requires ticks { k ≤ MOST_TICKS }
    requires interval { i < MOST_STEPS }
    ensures value { result.n ≡ reach.interval_numbers s.now k i }
    ensures bodies { HoldsBodies s.now k i result.n }
    ensures small { AllByRecursion (SizeAtMost 100_000_000_000_000) result.n }
{
    octagon(&lines_of(s), k, i)
}

/// The eight lines of a start.
pub fn lines_of(s: &AccStart) -> [Line; 8]
    requires { IsStart s.now }
    ensures of_start { AreLines s.now result }
    ensures range { AreLinesInRange result }
{
    [
        Line::of(s, 0),
        Line::of(s, 1),
        Line::of(s, 2),
        Line::of(s, 3),
        Line::of(s, 4),
        Line::of(s, 5),
        Line::of(s, 6),
        Line::of(s, 7),
    ]
}

/// The octagon of an interval, from the eight lines of a start.
pub fn octagon(lines: &[Line; 8], k: u32, i: u32) -> OctNumbers
    requires range { AreLinesInRange lines.now }
    requires ticks { k ≤ MOST_TICKS }
    requires interval { i < MOST_STEPS }
    ensures { result.n ≡ map (line_number k i) lines.now }
{
    let mut n = [0; 8];
    for (normal, line) in lines.iter().enumerate() {
        n[normal] = line.number(k, i);
    }
    OctNumbers { n }
}
