//! The lines of a run of the drivable area. Nothing here takes memory.

ghost use Rattle.std.specs.Prelude.{◌≡◌, ◌↔◌, ℕ, List, [], length, map, IsTrue};
ghost use Rattle.spot_terms.specs.Report.{report_text};
ghost use Rattle.spot_io.specs.Writes.{WritesText};
ghost use Rattle.base_sets.specs.Values.{value_of};
ghost use Rattle.area_run.specs.Plans.{course_of};
ghost use Rattle.spot_claims.specs.AreaOf.{step_lines};
ghost use Rattle.area_report.specs.Areas.{disc_lines, GoesOn, IsEnd, IsStepsText, WritesSteps};

use crate::recording::Recording;
use area_run::{AreaRun, Verdict};
use base_sets::BaseSet;
use carve::Occupied;
use spot_io::{Sink, SinkFault};
use spot_terms::{Disc, End};
use text_report::{SetLines, write_count, write_disc, write_end};

// The lines of the discs of a step.
fn write_discs<K: Sink>(sink: &mut K, step: u32, discs: &[Disc]) -> Result<(), SinkFault>
    requires { K.takes sink.old (length (report_text (disc_lines step discs.now))) }
    ensures { WritesText K.Sink sink.old sink.new (report_text (disc_lines step discs.now)) result }
{
    for d in discs {
        write_disc(sink, step, d.id, d.p, d.r)?;
    }
    Ok(())
}

// The lines of the sets of a step, and how many they are.
fn write_sets<K: Sink>(sink: &mut K, step: u32, sets: &[BaseSet]) -> Result<(), SinkFault>
    requires { K.takes sink.old (length (report_text (step_lines step [] (map value_of sets.now)))) }
    ensures { WritesText K.Sink sink.old sink.new (report_text (step_lines step [] (map value_of sets.now))) result }
{
    let mut lines = SetLines::new();
    for b in sets {
        lines.write(sink, step, b)?;
    }
    write_count(sink, step, sets.len() as u64)
}

// The lines of a step: its recorded discs, its sets, and how many they are.
fn write_step<K: Sink>(
    sink: &mut K,
    step: u32,
    discs: &[Disc],
    sets: &[BaseSet],
) -> Result<(), SinkFault>
    requires { K.takes sink.old (length (report_text (step_lines step discs.now (map value_of sets.now)))) }
    ensures { WritesText K.Sink sink.old sink.new (report_text (step_lines step discs.now (map value_of sets.now))) result }
{
    write_discs(sink, step, discs)?;
    write_sets(sink, step, sets)
}

/// Whether a step is to be made: the run has sets, and steps are left.
pub(crate) fn goes_on<O: Occupied>(run: &AreaRun<'_, O>) -> bool
    ensures { IsTrue result ↔ GoesOn run.now.at run.now.steps run.now.sets }
{
    match run.verdict() {
        Verdict::Open => run.at() < run.steps(),
        Verdict::Empty(_) => false,
    }
}

// How a run ends where no further step is made.
pub(crate) fn end_of<O: Occupied>(run: &AreaRun<'_, O>) -> End
    ensures { IsEnd run.now.at run.now.sets result }
{
    match run.verdict() {
        Verdict::Open => End::Open,
        Verdict::Empty(step) => End::Empty(step),
    }
}

/// Writes the recorded discs and the sets of each step of a run that stands at its first one, up to the last step or to the
/// first one without sets, and how it ends. The lines of a step leave before the next step is computed. At `SinkFault` the
/// sink's count of faults rose in this call, and a front of these lines was appended.
pub fn write_area<O: Occupied, R: Recording, K: Sink>(
    run: &mut AreaRun<'_, O>,
    recording: &R,
    sink: &mut K,
) -> Result<(), SinkFault>
    requires first { run.old.at ≡ 0 }
    requires room { (text : List ℕ) → IsStepsText (R.recorded recording.now) (course_of run.old.plan) (O.count run.old.o) (O.hits run.old.o) run.old.steps text → K.takes sink.old (length text) }
    ensures { WritesSteps (R.recorded recording.now) (course_of run.old.plan) (O.count run.old.o) (O.hits run.old.o) run.old.steps K.Sink sink.old sink.new run.new.at run.new.sets result }
{
    let step = run.at();
    write_step(sink, step, recording.discs(step), run.sets())?;
    while goes_on(run) {
        run.step();
        let step = run.at();
        write_step(sink, step, recording.discs(step), run.sets())?;
    }
    write_end(sink, end_of(run))
}
