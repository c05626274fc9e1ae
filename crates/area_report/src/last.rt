//! A run up to its last step, without writing. Nothing here takes memory.

ghost use Rattle.std.specs.Prelude.{◌≡◌, ◌≤◌};
ghost use Rattle.spot_terms.specs.StepLists.{IsFirstList};
ghost use Rattle.area_run.specs.Plans.{course_of};
ghost use Rattle.area_report.specs.Areas.{StandsAtLast};

use crate::area::goes_on;
use area_run::AreaRun;
use carve::Occupied;

/// Makes the steps of a run that stands at its first one, up to the last step or to the first one without sets: there it
/// stands then.
pub fn go_to_last<O: Occupied>(run: &mut AreaRun<'_, O>)
    requires first { run.old.at ≡ 0 }
    requires list { IsFirstList (course_of run.old.plan) (O.count run.old.o) (O.hits run.old.o) run.old.sets }
    ensures pieces { run.new.o ≡ run.old.o }
    ensures plan { run.new.plan ≡ run.old.plan }
    ensures within { run.new.at ≤ run.old.steps }
    ensures last { StandsAtLast (course_of run.old.plan) (O.count run.old.o) (O.hits run.old.o) run.old.steps run.new.at run.new.sets }
{
    while goes_on(run) {
        run.step();
    }
}
