//! The report of the drivable area that avoids recorded traffic: the ego, and step by step the recorded discs and the base
//! sets. All memory is taken before the first byte is written.

ghost use Rattle.std.specs.Prelude.{◌≡◌, ℕ, ◌≤◌, List, ◌++◌, length, IfOk, IfErr};
ghost use Rattle.area_run.specs.Plans.{course_of};
ghost use Rattle.area_report.specs.Areas.{IsStepsText};
ghost use Rattle.area_report.specs.Egos.{HasEgo};
ghost use Rattle.replay_sets.specs.Discs.{discs_at};
ghost use Rattle.spot_io.specs.Writes.{WritesText};
ghost use Rattle.spot_terms.specs.Causes.{Rose};
ghost use Rattle.spot_terms.specs.Ranges.{IsCommandInRange};
ghost use Rattle.spot_terms.specs.StepLists.{IsFirstList};
ghost use Rattle.spot_terms.specs.declared.command.Task.TheVariants.{Replay};
ghost use Rattle.spot_terms.specs.declared.status.Status.TheVariants.{WriteFault, Memory};
ghost use Rattle.spot_claims.specs.Outputs.{IsWritten};
ghost use Rattle.spot_claims.specs.Problems.{ego_radius};
ghost use Rattle.spot_run.specs.Areas.{discs_count, discs_hits, replay_opening, IsRecorded, WritesBehind};
ghost use Rattle.spot_run.specs.Tells.{TakesFor, Tells};

use crate::area::{open_run, status_of};
use area_report::{ego_of, write_area};
use area_run::AreaRun;
use replay_sets::Recorded;
use spot_io::{Sink, SinkFault};
use spot_terms::{Command, Mode, Scenario, Status};
use std::alloc::Global;
use text_report::{EgoLine, write_ego, write_head, write_time};

// The radius of a disc about the ego's position that its body holds, in µm.
fn radius_of(command: &Command) -> u64
    requires { IsCommandInRange command.now }
    ensures radius { result ≡ ego_radius command.now }
    ensures small { result ≤ 150_000_000 }
{
    500 * u64::from(command.ego_length.min(command.ego_width))
}

// The recorded traffic of a scenario for the ego of a command, or the status where memory is wanted.
fn recorded_of(alloc: Global, scenario: &Scenario, command: &Command) -> Result<Recorded, Status>
    requires command { IsCommandInRange command.now }
    ensures ok { IfOk result (IsRecorded scenario.now command.now) }
    ensures err { IfErr result (λ status. status ≡ Memory) }
{
    match Recorded::make(alloc, scenario, radius_of(command), command.steps) {
        Ok(recorded) => Ok(recorded),
        Err(_) => Err(Status::Memory),
    }
}

// Writes what stands before the first step: the mode, the time and the ego.
fn write_opening<K: Sink>(
    sink: &mut K,
    scenario: &Scenario,
    ego: &EgoLine,
    steps: u32,
) -> Result<(), SinkFault>
    requires { K.takes sink.old (length (replay_opening scenario.now steps ego.now)) }
    ensures { WritesText K.Sink sink.old sink.new (replay_opening scenario.now steps ego.now) result }
{
    write_head(sink, Mode::Replay)?;
    write_time(sink, scenario.step, steps)?;
    write_ego(sink, ego)
}

// Writes the report, with the steps of a run that stands at its first one, up to the last step or to the first one without
// sets, and how it ends.
fn write_lines<K: Sink>(
    sink: &mut K,
    scenario: &Scenario,
    recorded: &Recorded,
    ego: &EgoLine,
    run: &mut AreaRun<'_, Recorded>,
) -> Result<(), SinkFault>
    requires first { run.old.at ≡ 0 }
    requires list { IsFirstList (course_of run.old.plan) (discs_count run.old.o) (discs_hits run.old.o) run.old.sets }
    requires room { (text : List ℕ) → IsStepsText (discs_at recorded.now) (course_of run.old.plan) (discs_count run.old.o) (discs_hits run.old.o) run.old.steps text → K.takes sink.old (length (replay_opening scenario.now run.old.steps ego.now ++ text)) }
    ensures { WritesBehind (replay_opening scenario.now run.old.steps ego.now) (discs_at recorded.now) (course_of run.old.plan) (discs_count run.old.o) (discs_hits run.old.o) run.old.steps K.Sink sink.old sink.new run.new.at run.new.sets result }
{
    write_opening(sink, scenario, ego, run.steps())?;
    write_area(run, recorded, sink)
}

// Finds the area of the ego that avoids recorded traffic, and writes the report.
fn write_over<K: Sink>(
    alloc: Global,
    scenario: &Scenario,
    command: &Command,
    recorded: &Recorded,
    ego: &EgoLine,
    sink: &mut K,
) -> Status
    requires command { IsCommandInRange command.now }
    requires task { command.now.task ≡ Replay }
    requires recorded { IsRecorded scenario.now command.now recorded.now }
    requires ego { HasEgo scenario.now command.now ego.now }
    requires room { TakesFor scenario.now command.now (λ n. K.takes sink.old n) }
    ensures tells { Tells scenario.now command.now (K.written sink.old) (K.written sink.new) result }
    ensures kept { (IsWritten result → ⊥) → sink.new ≡ sink.old }
    ensures later { K.faults sink.old ≤ K.faults sink.new }
    ensures cause { result ≡ WriteFault → Rose (K.faults sink.old) (K.faults sink.new) }
{
    let mut run = match open_run(alloc, scenario, recorded, ego, command.steps) {
        Ok(run) => run,
        Err(status) => return status,
    };
    match write_lines(sink, scenario, recorded, ego, &mut run) {
        Ok(()) => status_of(&run),
        Err(_) => Status::WriteFault,
    }
}

/// Finds the drivable area of the ego of a scenario that avoids its recorded traffic, and writes the report: the ego, the
/// recorded discs and the base sets of each step, and how the area ends.
///
/// What may refuse it comes in this order, before anything is written: the problem, then the area. The lines of a step leave
/// before the next step is computed, and no memory is taken after the first byte. At `WriteFault` a front of the report was
/// appended, or of what it begins with.
pub(crate) fn write_replay<K: Sink>(
    alloc: Global,
    scenario: &Scenario,
    command: &Command,
    sink: &mut K,
) -> Status
    requires command { IsCommandInRange command.now }
    requires task { command.now.task ≡ Replay }
    requires room { TakesFor scenario.now command.now (λ n. K.takes sink.old n) }
    ensures tells { Tells scenario.now command.now (K.written sink.old) (K.written sink.new) result }
    ensures kept { (IsWritten result → ⊥) → sink.new ≡ sink.old }
    ensures later { K.faults sink.old ≤ K.faults sink.new }
    ensures cause { result ≡ WriteFault → Rose (K.faults sink.old) (K.faults sink.new) }
{
    let ego = match ego_of(scenario, command) {
        Ok(ego) => ego,
        Err(status) => return status,
    };
    let recorded = match recorded_of(alloc, scenario, command) {
        Ok(recorded) => recorded,
        Err(status) => return status,
    };
    write_over(alloc, scenario, command, &recorded, &ego, sink)
}
