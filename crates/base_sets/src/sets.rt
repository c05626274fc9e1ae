//! Products of two polygons of position and speed.

ghost use Rattle.std.specs.Prelude.{◌≡◌, ◌↔◌, IsTrue};
ghost use Rattle.spot_terms.specs.BaseSets.{HoldsState, rect_of};
ghost use Rattle.spot_terms.specs.Frames.{at};
ghost use Rattle.spot_terms.specs.Whole.{SizeAtMost};
ghost use Rattle.base_sets.specs.Values.{state_at, value_of};

use convex_poly::Poly;
use spot_terms::Pt;

/// A base set: a column and a row of the grid, a polygon in the plane of x and its speed, and one in that of y and its
/// speed.
#[derive(Drop)]
pub struct BaseSet {
    pub col: i64,
    pub row: i64,
    pub x: Poly,
    pub y: Poly,
}

impl BaseSet {
    /// Whether the set holds the state of position (`x`, `y`) and velocity (`vx`, `vy`).
    pub fn holds(&self, x: i64, vx: i64, y: i64, vy: i64) -> bool
        requires x { SizeAtMost 40_000_000_000_000 x }
        requires vx { SizeAtMost 1_000_000 vx }
        requires y { SizeAtMost 40_000_000_000_000 y }
        requires vy { SizeAtMost 1_000_000 vy }
        ensures { IsTrue result ↔ HoldsState (value_of self.now) (state_at x vx y vy) }
    {
        self.x.contains(Pt { x, y: vx }) && self.y.contains(Pt { x: y, y: vy })
    }

    /// The least x, the greatest x, the least y and the greatest y of the set's places, in µm. Each is at most 4·10^13 in
    /// size.
    pub fn rect(&self) -> (i64, i64, i64, i64)
        ensures exact { record { xlo = result.0; xhi = result.1; ylo = result.2; yhi = result.3 } ≡ rect_of (value_of self.now) }
        ensures least_x { SizeAtMost 40_000_000_000_000 result.0 }
        ensures greatest_x { SizeAtMost 40_000_000_000_000 result.1 }
        ensures least_y { SizeAtMost 40_000_000_000_000 result.2 }
        ensures greatest_y { SizeAtMost 40_000_000_000_000 result.3 }
    {
        (
            self.x.corners()[0].x,
            self.x.support(1, 0),
            self.y.corners()[0].x,
            self.y.support(1, 0),
        )
    }
}
