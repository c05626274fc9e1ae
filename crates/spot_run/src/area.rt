//! The report of the drivable area of a scenario's ego: its traffic, its ego, and its base sets step by step. All memory is
//! taken before the first byte is written: what writes takes no allocator, and neither does a step of a run.

ghost use Rattle.std.specs.Prelude.{◌≡◌, ℕ, ◌≤◌, List, [], ◌++◌, length, IfOk, IfErr};
ghost use Rattle.std.specs.List.{AllByRecursion};
ghost use Rattle.base_sets.specs.Values.{course_with};
ghost use Rattle.area_run.specs.Plans.{course_of, plan_with};
ghost use Rattle.area_run.specs.Running.{IsOpened, IsVerdict};
ghost use Rattle.area_report.specs.Areas.{IsStepsText};
ghost use Rattle.area_report.specs.Egos.{HasEgo};
ghost use Rattle.spot_io.specs.Writes.{WritesText};
ghost use Rattle.spot_terms.specs.Causes.{Rose};
ghost use Rattle.spot_terms.specs.Ids.{HaveUniqueIds};
ghost use Rattle.spot_terms.specs.Participants.{starting};
ghost use Rattle.spot_terms.specs.Ranges.{IsCommandInRange};
ghost use Rattle.spot_terms.specs.RowBoxes.{IsWithinArea};
ghost use Rattle.spot_terms.specs.StepLists.{IsFirstList};
ghost use Rattle.spot_terms.specs.declared.command.Task.TheVariants.{Area};
ghost use Rattle.spot_terms.specs.declared.status.Status.TheVariants.{WriteFault};
ghost use Rattle.spot_claims.specs.Outputs.{IsWritten};
ghost use Rattle.spot_run.specs.Areas.{CanOpen, IsPastArea, StatusAt, opening_text, WritesBehind};
ghost use Rattle.spot_run.specs.Tells.{TakesFor, Tells};
ghost use Rattle.spot_run.specs.Writes.{IsPredicted};

use crate::report::write_traffic;
use crate::traffic::prediction_of;
use area_report::{Unrecorded, ego_of, write_area};
use area_run::{AreaFault, AreaRun, Verdict};
use carve::Occupied;
use participants::Prediction;
use spot_io::{Sink, SinkFault};
use spot_terms::{Command, MOST_STEPS, Mode, Scenario, Status, Which};
use std::alloc::Global;
use text_report::{EgoLine, write_ego};

/// A run of the ego over these pieces, with room for all its steps, or the status that says why there is none.
pub(crate) fn open_run<'o, O: Occupied>(
    alloc: Global,
    scenario: &Scenario,
    pieces: &'o O,
    ego: &EgoLine,
    steps: u32,
) -> Result<AreaRun<'o, O>, Status>
    requires { CanOpen scenario.now (O.last pieces.now) (O.far pieces.now) ego.now steps }
    ensures ok { IfOk result (IsOpened pieces.now (plan_with ego.now.s ego.now.e ego.now.grid scenario.now.step) steps (O.count pieces.now) (O.hits pieces.now)) }
    ensures within { IfOk result (λ _. IsWithinArea (course_with ego.now.s ego.now.e ego.now.grid scenario.now.step) (O.count pieces.now) (O.range pieces.now) steps) }
    ensures err { IfErr result (IsPastArea (course_with ego.now.s ego.now.e ego.now.grid scenario.now.step) (O.count pieces.now) (O.range pieces.now) steps) }
{
    match AreaRun::open(
        alloc,
        pieces,
        &ego.s,
        &ego.e,
        &ego.grid,
        scenario.step,
        steps,
    ) {
        Ok(run) => Ok(run),
        Err(AreaFault::AreaTooWide(step, cells)) => {
            Err(Status::Limit(Which::AreaTooWide, step, cells))
        }
        Err(AreaFault::TooManyBoxes(step, boxes)) => {
            Err(Status::Limit(Which::TooManyBoxes, step, boxes))
        }
        Err(AreaFault::Memory) => Err(Status::Memory),
    }
}

// Writes what stands before the first step: the mode, the time, the lines of all obstacles, and the ego.
fn write_opening<K: Sink>(
    sink: &mut K,
    scenario: &Scenario,
    prediction: &Prediction,
    ego: &EgoLine,
    steps: u32,
) -> Result<(), SinkFault>
    requires enough { length (starting scenario.now.movers) ≤ length prediction.now.participants }
    requires few { AllByRecursion (λ p. length p.octs ≤ MOST_STEPS) prediction.now.participants }
    requires room { K.takes sink.old (length (opening_text scenario.now steps prediction.now ego.now)) }
    ensures { WritesText K.Sink sink.old sink.new (opening_text scenario.now steps prediction.now ego.now) result }
{
    write_traffic(sink, Mode::Area, scenario, prediction, steps)?;
    write_ego(sink, ego)
}

// Writes the report, with the steps of a run that stands at its first one, up to the last step or to the first one without
// sets, and how it ends.
fn write_lines<O: Occupied, K: Sink>(
    sink: &mut K,
    scenario: &Scenario,
    prediction: &Prediction,
    ego: &EgoLine,
    run: &mut AreaRun<'_, O>,
) -> Result<(), SinkFault>
    requires enough { length (starting scenario.now.movers) ≤ length prediction.now.participants }
    requires few { AllByRecursion (λ p. length p.octs ≤ MOST_STEPS) prediction.now.participants }
    requires first { run.old.at ≡ 0 }
    requires list { IsFirstList (course_of run.old.plan) (O.count run.old.o) (O.hits run.old.o) run.old.sets }
    requires room { (text : List ℕ) → IsStepsText (λ _. []) (course_of run.old.plan) (O.count run.old.o) (O.hits run.old.o) run.old.steps text → K.takes sink.old (length (opening_text scenario.now run.old.steps prediction.now ego.now ++ text)) }
    ensures { WritesBehind (opening_text scenario.now run.old.steps prediction.now ego.now) (λ _. []) (course_of run.old.plan) (O.count run.old.o) (O.hits run.old.o) run.old.steps K.Sink sink.old sink.new run.new.at run.new.sets result }
{
    write_opening(sink, scenario, prediction, ego, run.steps())?;
    write_area(run, &Unrecorded, sink)
}

/// The status of a run that is done.
pub(crate) fn status_of<O: Occupied>(run: &AreaRun<'_, O>) -> Status
    ensures { StatusAt run.now.at run.now.sets result }
{
    match run.verdict() {
        Verdict::Open => Status::Open,
        Verdict::Empty(step) => Status::Empty(step),
    }
}

// Finds the area of the ego over a prediction, and writes the report.
fn write_over<K: Sink>(
    alloc: Global,
    scenario: &Scenario,
    command: &Command,
    prediction: &Prediction,
    ego: &EgoLine,
    sink: &mut K,
) -> Status
    requires ids { HaveUniqueIds scenario.now }
    requires command { IsCommandInRange command.now }
    requires task { command.now.task ≡ Area }
    requires predicted { IsPredicted scenario.now command.now.steps prediction.now }
    requires ego { HasEgo scenario.now command.now ego.now }
    requires room { TakesFor scenario.now command.now (λ n. K.takes sink.old n) }
    ensures tells { Tells scenario.now command.now (K.written sink.old) (K.written sink.new) result }
    ensures kept { (IsWritten result → ⊥) → sink.new ≡ sink.old }
    ensures later { K.faults sink.old ≤ K.faults sink.new }
    ensures cause { result ≡ WriteFault → Rose (K.faults sink.old) (K.faults sink.new) }
{
    let mut run = match open_run(alloc, scenario, prediction, ego, command.steps) {
        Ok(run) => run,
        Err(status) => return status,
    };
    match write_lines(sink, scenario, prediction, ego, &mut run) {
        Ok(()) => status_of(&run),
        Err(_) => Status::WriteFault,
    }
}

/// Finds the drivable area of the ego of a scenario whose command asks for it, and writes the report: the prediction of all
/// obstacles, the ego, the base sets of each step, and how the area ends.
///
/// What may refuse it comes in this order, before anything is written: the problem, the network, the prediction, the area.
/// The lines of a step leave before the next step is computed, and no memory is taken after the first byte. At `WriteFault`
/// a front of the report was appended, or of what it begins with.
pub(crate) fn write_area_report<K: Sink>(
    alloc: Global,
    scenario: &Scenario,
    command: &Command,
    sink: &mut K,
) -> Status
    requires ids { HaveUniqueIds scenario.now }
    requires command { IsCommandInRange command.now }
    requires task { command.now.task ≡ Area }
    requires room { TakesFor scenario.now command.now (λ n. K.takes sink.old n) }
    ensures tells { Tells scenario.now command.now (K.written sink.old) (K.written sink.new) result }
    ensures kept { (IsWritten result → ⊥) → sink.new ≡ sink.old }
    ensures later { K.faults sink.old ≤ K.faults sink.new }
    ensures cause { result ≡ WriteFault → Rose (K.faults sink.old) (K.faults sink.new) }
{
    let ego = match ego_of(scenario, command) {
        Ok(ego) => ego,
        Err(status) => return status,
    };
    let prediction = match prediction_of(alloc, scenario, command.steps) {
        Ok(prediction) => prediction,
        Err(status) => return status,
    };
    write_over(alloc, scenario, command, &prediction, &ego, sink)
}
