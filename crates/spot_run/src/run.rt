//! The top call.

ghost use Rattle.std.specs.Prelude.{◌≡◌, ◌↔◌, ◌≤◌, IsTrue};
ghost use Rattle.spot_terms.specs.Causes.{Rose};
ghost use Rattle.spot_terms.specs.Ids.{HaveUniqueIds};
ghost use Rattle.spot_terms.specs.Ranges.{IsCommandInRange};
ghost use Rattle.spot_terms.specs.Tasks.{ReadsInput};
ghost use Rattle.spot_run.specs.RunOf.{run_of};
ghost use Rattle.spot_run.specs.Tells.{TakesFor, Tells};
ghost use Rattle.spot_run.specs.Writes.{TakesPrediction, WritesPrediction};
ghost use Rattle.spot_words.specs.Words.{StandsFor};
ghost use Rattle.spot_claims.specs.Answers.{AreaTooWideExactly, BadWordsExactly, EgoTooFastExactly, IsKnown, LaneTooWideExactly, LateProblemExactly, NoProblemExactly, NotJsonExactly, NotTreeExactly, ReadFaultOnly, RefusedExactly, TooLongExactly, TooManyBoxesExactly, TooManyCellsExactly, TooManyLanePolygonsExactly, WriteFaultOnly};
ghost use Rattle.spot_claims.specs.Headline.{Headline};
ghost use Rattle.spot_claims.specs.Outcomes.{Completes, ReadsSource, TakesOutput, WritesOutput};
ghost use Rattle.spot_claims.specs.Outputs.{IsWritten};
ghost use Rattle.spot_claims.specs.Stages.{AreForReading};
ghost use Rattle.spot_claims.specs.Tight.{IsTight};

use crate::area::write_area_report;
use crate::draw::write_drawing;
use crate::load::load;
use crate::replay::write_replay;
use crate::report::write_prediction;
use crate::sample::write_sample;
use crate::traffic::prediction_of;
use spot_io::{Sink, Source};
use spot_terms::{Command, MOST_STEPS, Scenario, Status, Task};
use spot_words::read_words;
use std::alloc::Global;

// Predicts a scenario and writes the report.
fn write_report<K: Sink>(alloc: Global, scenario: &Scenario, steps: u32, sink: &mut K) -> Status
    requires steps { (1 ≤ steps) × (steps ≤ MOST_STEPS) }
    requires room { TakesPrediction scenario.now steps (λ n. K.takes sink.old n) }
    ensures report { WritesPrediction scenario.now steps (K.written sink.old) (K.written sink.new) result }
    ensures kept { (IsWritten result → ⊥) → sink.new ≡ sink.old }
    ensures later { K.faults sink.old ≤ K.faults sink.new }
    ensures cause { result ≡ Status.WriteFault → Rose (K.faults sink.old) (K.faults sink.new) }
{
    let prediction = match prediction_of(alloc, scenario, steps) {
        Ok(prediction) => prediction,
        Err(status) => return status,
    };
    match write_prediction(sink, scenario, &prediction, steps) {
        Ok(()) => Status::Open,
        Err(_) => Status::WriteFault,
    }
}

// Whether a task reads its scenario from the source.
fn reads_input(task: Task) -> bool
    ensures { IsTrue result ↔ ReadsInput task }
{
    match task {
        Task::Predict | Task::Area | Task::Replay | Task::Draw => true,
        Task::Sample => false,
    }
}

// Writes the output of a command that reads its scenario.
fn write_output<K: Sink>(
    alloc: Global,
    scenario: &Scenario,
    command: &Command,
    sink: &mut K,
) -> Status
    requires ids { HaveUniqueIds scenario.now }
    requires command { IsCommandInRange command.now }
    requires reads { ReadsInput command.now.task }
    requires room { TakesFor scenario.now command.now (λ n. K.takes sink.old n) }
    ensures tells { Tells scenario.now command.now (K.written sink.old) (K.written sink.new) result }
    ensures kept { (IsWritten result → ⊥) → sink.new ≡ sink.old }
    ensures later { K.faults sink.old ≤ K.faults sink.new }
    ensures cause { result ≡ Status.WriteFault → Rose (K.faults sink.old) (K.faults sink.new) }
{
    match command.task {
        Task::Predict => write_report(alloc, scenario, command.steps, sink),
        Task::Area => write_area_report(alloc, scenario, command, sink),
        Task::Replay => write_replay(alloc, scenario, command, sink),
        Task::Draw => write_drawing(alloc, scenario, command, sink),
        Task::Sample => unreachable!(),
    }
}

/// Reads a scenario and writes the report that the words ask for. The first word is the program's own name.
///
/// The modes are `predict`, `area`, `replay`, `draw` and `sample`. A sample makes its own scenario: the source isn't read
/// then. All values of a prediction, of a drawing and of a summary are computed before the first byte is written, and so is
/// recorded traffic; all memory for the steps of an area is taken before it, and the base sets of a step are written before
/// the next step is computed. Writing takes no memory. After a refusal, a limit, a read fault or want of memory nothing was
/// written; after a write fault a front of the output was, or of what it begins with.
pub fn run_spot<S: Source, K: Sink>(
    alloc: Global,
    words: &Vec<String>,
    source: &mut S,
    sink: &mut K,
) -> Status
    // The sink can take the output.
    requires { TakesOutput (StandsFor words.now.items) (S.left source.old) (λ n. K.takes sink.old n) }

    // Each admissible motion lies in what is printed for it, or has entered what is occupied.
    ensures headline { Headline (run_of words.now.items S.Source source.old source.new K.Sink sink.old sink.new result) }

    // What is written is the output, or at a write fault a front of it; else nothing.
    ensures output { WritesOutput (run_of words.now.items S.Source source.old source.new K.Sink sink.old sink.new result) }
    ensures kept { (IsWritten result → ⊥) → sink.new ≡ sink.old }

    // Nothing that is printed is wider than it has to be.
    ensures tight { IsTight (run_of words.now.items S.Source source.old source.new K.Sink sink.old sink.new result) }

    // The source is read to its end, or not at all.
    ensures source_read { ReadsSource (run_of words.now.items S.Source source.old source.new K.Sink sink.old sink.new result) }
    ensures source_kept { (AreForReading (run_of words.now.items S.Source source.old source.new K.Sink sink.old sink.new result) → ⊥) → source.new ≡ source.old }

    // The counts of faults never fall.
    ensures source_later { S.faults source.old ≤ S.faults source.new }
    ensures sink_later { K.faults sink.old ≤ K.faults sink.new }

    // When each answer comes.
    ensures known { IsKnown (run_of words.now.items S.Source source.old source.new K.Sink sink.old sink.new result) }
    ensures bad_words { BadWordsExactly (run_of words.now.items S.Source source.old source.new K.Sink sink.old sink.new result) }
    ensures read_fault { ReadFaultOnly (run_of words.now.items S.Source source.old source.new K.Sink sink.old sink.new result) }
    ensures too_long { TooLongExactly (run_of words.now.items S.Source source.old source.new K.Sink sink.old sink.new result) }
    ensures not_json { NotJsonExactly (run_of words.now.items S.Source source.old source.new K.Sink sink.old sink.new result) }
    ensures not_tree { NotTreeExactly (run_of words.now.items S.Source source.old source.new K.Sink sink.old sink.new result) }
    ensures refused { RefusedExactly (run_of words.now.items S.Source source.old source.new K.Sink sink.old sink.new result) }
    ensures no_problem { NoProblemExactly (run_of words.now.items S.Source source.old source.new K.Sink sink.old sink.new result) }
    ensures late_problem { LateProblemExactly (run_of words.now.items S.Source source.old source.new K.Sink sink.old sink.new result) }
    ensures ego_too_fast { EgoTooFastExactly (run_of words.now.items S.Source source.old source.new K.Sink sink.old sink.new result) }
    ensures too_many_cells { TooManyCellsExactly (run_of words.now.items S.Source source.old source.new K.Sink sink.old sink.new result) }
    ensures lane_too_wide { LaneTooWideExactly (run_of words.now.items S.Source source.old source.new K.Sink sink.old sink.new result) }
    ensures too_many_lane_polygons { TooManyLanePolygonsExactly (run_of words.now.items S.Source source.old source.new K.Sink sink.old sink.new result) }
    ensures area_too_wide { AreaTooWideExactly (run_of words.now.items S.Source source.old source.new K.Sink sink.old sink.new result) }
    ensures too_many_boxes { TooManyBoxesExactly (run_of words.now.items S.Source source.old source.new K.Sink sink.old sink.new result) }
    ensures write_fault { WriteFaultOnly (run_of words.now.items S.Source source.old source.new K.Sink sink.old sink.new result) }

    // Where nothing fails, the output is written.
    ensures complete { Completes (run_of words.now.items S.Source source.old source.new K.Sink sink.old sink.new result) }
{
    let command = match read_words(alloc, words) {
        Ok(Some(command)) => command,
        Ok(None) => return Status::BadWords,
        Err(_) => return Status::Memory,
    };
    if !reads_input(command.task) {
        return write_sample(alloc, &command, sink);
    }
    match load(alloc, source) {
        Ok(scenario) => write_output(alloc, &scenario, &command, sink),
        Err(status) => status,
    }
}
