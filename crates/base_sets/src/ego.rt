//! Where the ego starts, and its bounds.

ghost use Rattle.std.specs.Prelude.{◌↔◌, pos, nat_abs, IsTrue};
ghost use Rattle.spot_terms.specs.EgoMotions.{FitsBound};
ghost use Rattle.spot_terms.specs.Whole.{SizeAtMost, Within};
ghost use Rattle.base_sets.specs.Values.{AreAtMost, AreBounds, IsEgoStart};

use spot_terms::{Pt, VBox};

/// Where the ego starts: the position in µm, and the box of its velocities.
#[derive(Clone, Copy, Debug, PartialEq, Eq)]
pub struct EgoStart {
    pub p: Pt,
    pub b: VBox,
}

/// The ego's greatest acceleration, in m/s², and its greatest speed, in mm/s, along x and along y.
#[derive(Clone, Copy, Debug, PartialEq, Eq)]
pub struct EgoBounds {
    pub a: i64,
    pub v: i64,
}

impl EgoStart {
    /// Whether no speed of the box is above the greatest speed in size.
    pub fn fits(&self, e: &EgoBounds) -> bool
        requires start { IsEgoStart self.now }
        requires bounds { AreBounds e.now }
        ensures { IsTrue result ↔ FitsBound self.now.b e.now.v }
    {
        are_at_most(self.b.xlo, self.b.xhi, e.v) && are_at_most(self.b.ylo, self.b.yhi, e.v)
    }
}

/// Whether two speeds are at most `v` in size.
fn are_at_most(lo: i64, hi: i64, v: i64) -> bool
    requires low { SizeAtMost 900_000 lo }
    requires high { SizeAtMost 900_000 hi }
    requires bound { Within (pos 0) (pos 900_000) v }
    ensures { IsTrue result ↔ AreAtMost v lo hi }
{
    is_at_most(lo, v) && is_at_most(hi, v)
}

/// Whether a speed is at most `v` in size.
fn is_at_most(speed: i64, v: i64) -> bool
    requires speed { SizeAtMost 900_000 speed }
    requires bound { Within (pos 0) (pos 900_000) v }
    ensures { IsTrue result ↔ SizeAtMost (nat_abs v) speed }
{
    speed.abs() <= v
}
