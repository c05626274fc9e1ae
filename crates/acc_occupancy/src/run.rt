//! The octagons of the intervals of a start, one after the other.

ghost use Rattle.std.specs.Prelude.{◌≡◌, ◌+◌, ◌<◌, ◌≤◌};
ghost use Rattle.std.specs.List.{AllByRecursion};
ghost use Rattle.spot_terms.specs.Ranges.{IsStart};
ghost use Rattle.spot_terms.specs.Reach as reach;
ghost use Rattle.spot_terms.specs.Whole.{SizeAtMost};
ghost use Rattle.acc_occupancy.specs.Runs.{Run, HoldsBodies};

use crate::line::Line;
use crate::reach::{lines_of, octagon};
use convex_poly::OctNumbers;
use spot_terms::{AccStart, MOST_STEPS, MOST_TICKS};
use std::marker::Model;

/// The octagons of a start, interval by interval. Contracts see the start, the ticks of an interval, and the interval
/// that comes next.
#[derive(Drop)]
pub struct AccRun {
    // whose intervals they are
    start: AccStart,
    ticks: u32,
    interval: u32,
    lines: [Line; 8],
}

impl Model for AccRun {
    ghost use Rattle.std.specs.Prelude.{◌≤◌};
    ghost use Rattle.spot_terms.specs.Ranges.{IsStart};
    ghost use Rattle.spot_terms.specs.declared.limits.TheConstants.{MOST_STEPS, MOST_TICKS};
    ghost use Rattle.acc_occupancy.specs.Lines.{AreLines, AreLinesInRange};
    ghost use Rattle.acc_occupancy.specs.Runs.{Run};

    ghost Value = { Run };

    ghost view = { λ r. record { start = r.start; ticks = r.ticks; interval = r.interval } };

    ghost invariant = { λ r. IsStart r.start × (r.ticks ≤ MOST_TICKS) × (r.interval ≤ MOST_STEPS) × AreLines r.start r.lines × AreLinesInRange r.lines };
}

impl AccRun {
    /// Stands before interval 0, of `k` ticks, at most 1000.
    pub fn open(s: &AccStart, k: u32) -> AccRun
        requires start { IsStart s.now }
        requires ticks { k ≤ MOST_TICKS }
        ensures { result ≡ record { start = s.now; ticks = k; interval = 0 } }
    {
        AccRun {
            start: *s,
            ticks: k,
            interval: 0,
            lines: lines_of(s),
        }
    }

    /// The octagon of the next interval. There are 100.
    pub fn next(&mut self) -> OctNumbers
        requires { self.old.interval < MOST_STEPS }
        ensures value { result.n ≡ reach.interval_numbers self.old.start self.old.ticks self.old.interval }
        ensures bodies { HoldsBodies self.old.start self.old.ticks self.old.interval result.n }
        ensures small { AllByRecursion (SizeAtMost 100_000_000_000_000) result.n }
        ensures next { self.new ≡ record self.old { interval = self.old.interval + 1 } }
    {
        let numbers = octagon(&self.lines, self.ticks, self.interval);
        self.interval += 1;
        numbers
    }
}
