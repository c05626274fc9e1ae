//! What a run is given.

ghost use Rattle.std.specs.Prelude.{◌≡◌, ◌≤◌};
ghost use Rattle.spot_terms.specs.Courses.{box_at};
ghost use Rattle.base_sets.specs.Values.{AreBoxPlaces, IsBox, rect_of_box};
ghost use Rattle.area_run.specs.Plans.{IsPlan, course_of};

use base_sets::{EgoBounds, EgoStart, Grid, OuterBox, outer_box};
use spot_terms::MOST_STEPS;

/// What a run is given: the ego's start and its bounds, the grid, and the ticks of a step.
#[derive(Clone, Copy, Debug, PartialEq, Eq)]
pub struct Plan {
    pub s: EgoStart,
    pub e: EgoBounds,
    pub grid: Grid,
    pub k: u32,
}

impl Plan {
    /// The box that each motion of the ego is in at a step, which is at most 100.
    pub(crate) fn outer_box(&self, step: u32) -> OuterBox
        requires plan { IsPlan self.now }
        requires step { step ≤ MOST_STEPS }
        ensures exact { rect_of_box result ≡ box_at (course_of self.now) step }
        ensures reach { IsBox result }
        ensures near { AreBoxPlaces 21_000_000_000_000 result }
    {
        outer_box(&self.s, &self.e, self.k, step)
    }
}
