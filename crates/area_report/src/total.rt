//! A run of the drivable area to its end, whose sets are counted. Nothing here takes memory.

ghost use Rattle.std.specs.Prelude.{◌≡◌, ◌<◌, ◌^◌, length};
ghost use Rattle.spot_terms.specs.StepLists.{IsStepList};
ghost use Rattle.area_run.specs.Plans.{course_of};
ghost use Rattle.area_report.specs.Totals.{IsTotal};

use crate::area::{end_of, goes_on};
use area_run::AreaRun;
use carve::Occupied;
use spot_terms::End;

/// How many sets the steps of a run have together, and how it ends.
#[derive(Clone, Copy, Debug, PartialEq, Eq)]
pub struct Total {
    pub sets: u128,
    pub end: End,
}

// How many sets the step has.
fn set_count<O: Occupied>(run: &AreaRun<'_, O>) -> u128
    ensures count { result ≡ length run.now.sets }
    ensures small { result < 2 ^ 64 }
    ensures early { run.now.at < 2 ^ 32 }
    ensures list { IsStepList (course_of run.now.plan) (O.count run.now.o) (O.hits run.now.o) run.now.at run.now.sets }
{
    let _step = run.at();
    run.sets().len() as u128
}

/// Goes with a run that stands at its first step up to the last step, or to the first one without sets, and counts the sets
/// of all these steps. A step has fewer than 2^64 sets, and there are fewer than 2^32 steps, so that the number fits.
pub fn total_of<O: Occupied>(run: &mut AreaRun<'_, O>) -> Total
    requires first { run.old.at ≡ 0 }
    ensures { IsTotal (course_of run.old.plan) (O.count run.old.o) (O.hits run.old.o) run.old.steps result }
{
    let mut sets = set_count(run);
    while goes_on(run) {
        run.step();
        sets += set_count(run);
    }
    Total {
        sets,
        end: end_of(run),
    }
}
