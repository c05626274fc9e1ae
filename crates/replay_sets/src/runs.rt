//! The whole x of two rows that lie in a disc.
ghost use Rattle.std.specs.Prelude.{◌≡◌, ℕ, ◌+◌, ◌*◌, ◌<◌, ◌≤◌, ◌≤ℤ◌, ◌-ℤ◌, nat_abs, max};
ghost use Rattle.spot_terms.specs.Frames.{at};
ghost use Rattle.spot_terms.specs.Bodies.{InDisc};
ghost use Rattle.spot_terms.specs.Whole.{SizeAtMost};
ghost use Rattle.convex_poly.specs.Runs.{IsRun};
ghost use Rattle.replay_sets.specs.Halves.{IsHalf};

use spot_num::isqrt_floor;
use spot_terms::Pt;

/// How far a disc reaches to both sides at a height; `None` where it doesn't reach that height.
fn half_at(r: u64, rise: u64) -> Option<u64>
    requires radius { r ≤ 400_000_000 }
    ensures { IsHalf r rise result }
{
    if rise > r {
        None
    } else {
        Some(isqrt_floor(u128::from(r * r - rise * rise)))
    }
}

/// The greater of the heights of two rows over a place.
fn greater_rise(y: i64, y0: i64, y1: i64) -> u64
    requires y { SizeAtMost 40_000_000_000_000 y }
    requires y0 { SizeAtMost 40_000_000_000_000 y0 }
    requires y1 { SizeAtMost 40_000_000_000_000 y1 }
    ensures { result ≡ max (nat_abs (y0 -ℤ y)) (nat_abs (y1 -ℤ y)) }
{
    (y0 - y).unsigned_abs().max((y1 - y).unsigned_abs())
}

/// The least and the greatest whole x with (x, `y0`) and (x, `y1`) both in the disc.
pub(crate) fn run_of(p: Pt, r: u64, y0: i64, y1: i64) -> Option<(i64, i64)>
    requires radius { r ≤ 400_000_000 }
    requires x { SizeAtMost 40_000_000_000_000 p.x }
    requires y { SizeAtMost 40_000_000_000_000 p.y }
    requires y0 { SizeAtMost 40_000_000_000_000 y0 }
    requires y1 { SizeAtMost 40_000_000_000_000 y1 }
    ensures { IsRun (λ x. InDisc r p (at x y0) × InDisc r p (at x y1)) result }
{
    let half = half_at(r, greater_rise(p.y, y0, y1))? as i64;
    Some((p.x - half, p.x + half))
}
