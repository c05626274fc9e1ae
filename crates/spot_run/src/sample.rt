//! The summary of the drivable area of a made scenario. Nothing is read, and all is computed before the first byte is
//! written.

ghost use Rattle.std.specs.Prelude.{◌≡◌, ◌≤◌, List, length, IfOk, IfErr};
ghost use Rattle.base_sets.specs.Values.{course_with};
ghost use Rattle.area_report.specs.Egos.{HasEgo};
ghost use Rattle.spot_terms.specs.Causes.{Rose};
ghost use Rattle.spot_terms.specs.Ranges.{IsCommandInRange};
ghost use Rattle.spot_terms.specs.declared.command.Task.TheVariants.{Sample};
ghost use Rattle.spot_terms.specs.declared.status.Status.TheVariants.{WriteFault, Memory};
ghost use Rattle.spot_claims.specs.Outputs.{IsWritten};
ghost use Rattle.spot_claims.specs.Scenario.{IsScenarioOf};
ghost use Rattle.spot_claims.specs.Tree.{Element};
ghost use Rattle.sample_roads.specs.Accepted.{IsSample};
ghost use Rattle.spot_run.specs.Areas.{count_at, range_at, IsPastArea};
ghost use Rattle.spot_run.specs.Samples.{text_of, IsMade, IsTotalOver, IsSummed, IsStopped, TakesSample, TellsSample};
ghost use Rattle.spot_run.specs.Tells.{TakesFor, Tells};
ghost use Rattle.spot_run.specs.Writes.{IsPredicted};

use crate::area::open_run;
use crate::load::scenario_of;
use crate::traffic::{network_of, predict_over};
use area_report::{Total, ego_of, total_of};
use participants::{Prediction, polygon_count};
use sample_roads::make;
use spot_io::Sink;
use spot_terms::{Code, Command, MOST_BYTES, Scenario, Status};
use spot_tree::{TreeFault, read_tree};
use std::alloc::Global;
use text_report::{EgoLine, Summary, write_summary};

// The scenario of a made text. No check refuses it, so that only memory may be wanted.
fn scenario_in(alloc: Global, text: &[u8]) -> Result<Scenario, Status>
    requires short { length text.now ≤ MOST_BYTES }
    requires accepted { (tree : List Element) × IsSample text.now tree }
    ensures scenario { IfOk result (λ s. IsScenarioOf text.now s) }
    ensures memory { IfErr result (λ status. status ≡ Memory) }
{
    match read_tree(alloc, text) {
        Ok(tree) => scenario_of(alloc, &tree),
        Err(TreeFault::NotJson) => Err(Status::Refused(Code::NotJson, 0)),
        Err(TreeFault::NotTree(place)) => Err(Status::Refused(Code::NotTree, place)),
        Err(TreeFault::Memory) => Err(Status::Memory),
    }
}

// The scenario that a command makes, and how many bytes its text has.
fn made_of(alloc: Global, command: &Command) -> Result<(Scenario, u64), Status>
    requires command { IsCommandInRange command.now }
    ensures scenario { IfOk result (λ made. IsMade command.now made.0) }
    ensures bytes { IfOk result (λ made. made.1 ≡ length (text_of command.now)) }
    ensures memory { IfErr result (λ status. status ≡ Memory) }
{
    let text = match make(alloc, command.seed, command.lanes, command.movers) {
        Ok(text) => text,
        Err(_) => return Err(Status::Memory),
    };
    match scenario_in(alloc, &text) {
        Ok(scenario) => Ok((scenario, text.len() as u64)),
        Err(status) => Err(status),
    }
}

// The sets of a run of the ego that avoids the prediction, or the status that says why there is none.
fn total_over(
    alloc: Global,
    scenario: &Scenario,
    command: &Command,
    prediction: &Prediction,
    ego: &EgoLine,
) -> Result<Total, Status>
    requires command { IsCommandInRange command.now }
    requires predicted { IsPredicted scenario.now command.now.steps prediction.now }
    requires ego { HasEgo scenario.now command.now ego.now }
    ensures ok { IfOk result (IsTotalOver scenario.now command.now.steps ego.now prediction.now) }
    ensures err { IfErr result (IsPastArea (course_with ego.now.s ego.now.e ego.now.grid scenario.now.step) (count_at prediction.now) (range_at prediction.now) command.now.steps) }
{
    match open_run(alloc, scenario, prediction, ego, command.steps) {
        Ok(run) => {
            let mut run = run;
            Ok(total_of(&mut run))
        }
        Err(status) => Err(status),
    }
}

// The summary of a scenario whose text has so many bytes, or the status that says why there is none.
fn summary_of(
    alloc: Global,
    scenario: &Scenario,
    command: &Command,
    bytes: u64,
) -> Result<Summary, Status>
    requires command { IsCommandInRange command.now }
    requires task { command.now.task ≡ Sample }
    ensures ok { IfOk result (IsSummed scenario.now command.now bytes) }
    ensures err { IfErr result (IsStopped scenario.now command.now) }
{
    let ego = match ego_of(scenario, command) {
        Ok(ego) => ego,
        Err(status) => return Err(status),
    };
    let net = match network_of(alloc, scenario) {
        Ok(net) => net,
        Err(status) => return Err(status),
    };
    let prediction = match predict_over(alloc, scenario, &net, command.steps) {
        Ok(prediction) => prediction,
        Err(status) => return Err(status),
    };
    match total_over(alloc, scenario, command, &prediction, &ego) {
        Ok(total) => Ok(Summary {
            seed: command.seed,
            lanes: command.lanes,
            movers: command.movers,
            bytes,
            cells: net.len(),
            polygons: polygon_count(prediction.list()),
            sets: total.sets,
            end: total.end,
        }),
        Err(status) => Err(status),
    }
}

// Writes the summary of the scenario of a command, whose text has so many bytes.
fn write_made<K: Sink>(
    alloc: Global,
    scenario: &Scenario,
    command: &Command,
    bytes: u64,
    sink: &mut K,
) -> Status
    requires command { IsCommandInRange command.now }
    requires task { command.now.task ≡ Sample }
    requires bytes { bytes ≡ length (text_of command.now) }
    requires room { TakesFor scenario.now command.now (λ n. K.takes sink.old n) }
    ensures tells { Tells scenario.now command.now (K.written sink.old) (K.written sink.new) result }
    ensures kept { (IsWritten result → ⊥) → sink.new ≡ sink.old }
    ensures later { K.faults sink.old ≤ K.faults sink.new }
    ensures cause { result ≡ WriteFault → Rose (K.faults sink.old) (K.faults sink.new) }
{
    match summary_of(alloc, scenario, command, bytes) {
        Ok(summary) => match write_summary(sink, &summary) {
            Ok(()) => Status::Open,
            Err(_) => Status::WriteFault,
        },
        Err(status) => status,
    }
}

/// Makes the scenario of a command that asks for a sample, finds the drivable area of its ego, and writes the summary: of what
/// the scenario was made and how long its text is, the cells of its network and its lane polygons, the base sets of all steps,
/// and how the area ends. `Open` comes however it ends.
///
/// What may refuse it comes in the order of an area, before anything is written. At `WriteFault` a front of the summary was
/// appended.
pub(crate) fn write_sample<K: Sink>(alloc: Global, command: &Command, sink: &mut K) -> Status
    requires command { IsCommandInRange command.now }
    requires task { command.now.task ≡ Sample }
    requires room { TakesSample command.now (λ n. K.takes sink.old n) }
    ensures tells { TellsSample command.now (K.written sink.old) (K.written sink.new) result }
    ensures kept { (IsWritten result → ⊥) → sink.new ≡ sink.old }
    ensures later { K.faults sink.old ≤ K.faults sink.new }
    ensures cause { result ≡ WriteFault → Rose (K.faults sink.old) (K.faults sink.new) }
{
    match made_of(alloc, command) {
        Ok((scenario, bytes)) => write_made(alloc, &scenario, command, bytes, sink),
        Err(status) => status,
    }
}
