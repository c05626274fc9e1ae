//! The program: it hands its words, standard input and standard output to `run_spot`, says on standard error how the run
//! ended where that isn't as asked, and ends with the number of the status.
#![tactic(auto)]

mod status_line;

ghost use Rattle.std.specs.Prelude.{◌≡◌, ◌≢◌, ◌⊎◌, ◌≤◌, [], length, IfOk, MatchResult};
ghost use Rattle.std.specs.Io.KnownBytes.{Appends, Keeps};
ghost use Rattle.std.specs.IoError.{error_kind};
ghost use Rattle.std.specs.Process.{exit_status};
ghost use Rattle.spot_claims.specs.Answers.{AreaTooWideExactly, BadWordsExactly, EgoTooFastExactly, IsKnown, LaneTooWideExactly, LateProblemExactly, NoProblemExactly, NotJsonExactly, NotTreeExactly, ReadFaultOnly, RefusedExactly, TooLongExactly, TooManyBoxesExactly, TooManyCellsExactly, TooManyLanePolygonsExactly, WriteFaultOnly};
ghost use Rattle.spot_claims.specs.Headline.{Headline};
ghost use Rattle.spot_claims.specs.Outcomes.{Completes, ReadsSource, TakesOutput, WritesOutput};
ghost use Rattle.spot_claims.specs.Outputs.{IsWritten};
ghost use Rattle.spot_claims.specs.Stages.{AreForReading};
ghost use Rattle.spot_run.specs.RunOf.{run_of};
ghost use Rattle.spot_words.specs.Words.{StandsFor};
ghost use Rattle.spot_terms.specs.Causes.{Rose};
ghost use Rattle.spot_terms.specs.Statuses.{IsDone, status_number};
ghost use Rattle.spot_cli.specs.Endings.{EndsAs};
ghost use Rattle.spot_cli.specs.Programs.{IsSound};
ghost use Rattle.spot_cli.specs.StatusLines.{said};

use spot_io::{Buffered, Sink, Source, StdSink, StdSource};
use spot_run::run_spot;
use spot_terms::Status;
use status_line::put_status;
use std::alloc::Global;
use std::io::{BufWriter, ErrorKind};
use std::process::ExitCode;
use std::{env, io};
use text_report::LineBuffer;

// The program's words, its own name first. An error where there is no memory for them, or where one isn't text.
fn words(rt: &HostRuntime) -> io::Result<Vec<String>> {
    Ok(env::args(rt)?.collect(rt.alloc())?)
}

// How much of a report is handed to the writer at once, in bytes.
const BUFFER: usize = 65_536;

// How a run ends once what the sink kept back is sent on: a report is written only then.
fn flushed<K: Buffered>(status: Status, sink: &mut K) -> Status
    ensures ends { EndsAs status result }
    ensures emptied { IsDone result → K.kept_back sink.new ≡ [] }
    ensures untouched { (IsDone status → ⊥) → sink.new ≡ sink.old }
    ensures kept { Keeps (K.written sink.old) (K.written sink.new) }
    ensures later { K.faults sink.old ≤ K.faults sink.new }
    ensures same { result ≡ status → K.faults sink.new ≡ K.faults sink.old }
    ensures cause { result ≡ Status.WriteFault → (status ≡ Status.WriteFault) ⊎ Rose (K.faults sink.old) (K.faults sink.new) }
{
    let done = matches!(status, Status::Open | Status::Empty(_));
    if done && sink.flush().is_err() {
        Status::WriteFault
    } else {
        status
    }
}

// Runs on what a source gives, and writes the report to a sink, which keeps nothing of it back. The words and the bytes
// decide how it ends, but for want of memory and faults.
fn run<S: Source, K: Buffered>(
    alloc: Global,
    words: &Vec<String>,
    source: &mut S,
    sink: &mut K,
) -> Status
    // The sink can take the output.
    requires { TakesOutput (StandsFor words.now.items) (S.left source.old) (λ n. K.takes sink.old n) }

    // Each admissible motion lies in what is printed for it, or has entered what is occupied.
    ensures headline { Headline (run_of words.now.items S.Source source.old source.new K.Sink sink.old sink.new result) }

    // What is written is the output, or at a write fault a front of it; else nothing.
    ensures output { WritesOutput (run_of words.now.items S.Source source.old source.new K.Sink sink.old sink.new result) }
    ensures kept { (IsWritten result → ⊥) → sink.new ≡ sink.old }

    // The source is read to its end, or not at all.
    ensures source_read { ReadsSource (run_of words.now.items S.Source source.old source.new K.Sink sink.old sink.new result) }
    ensures source_kept { (AreForReading (run_of words.now.items S.Source source.old source.new K.Sink sink.old sink.new result) → ⊥) → source.new ≡ source.old }

    // The counts of faults never fall.
    ensures source_later { S.faults source.old ≤ S.faults source.new }
    ensures sink_later { K.faults sink.old ≤ K.faults sink.new }

    // When each answer comes.
    ensures known { IsKnown (run_of words.now.items S.Source source.old source.new K.Sink sink.old sink.new result) }
    ensures bad_words { BadWordsExactly (run_of words.now.items S.Source source.old source.new K.Sink sink.old sink.new result) }
    ensures read_fault { ReadFaultOnly (run_of words.now.items S.Source source.old source.new K.Sink sink.old sink.new result) }
    ensures too_long { TooLongExactly (run_of words.now.items S.Source source.old source.new K.Sink sink.old sink.new result) }
    ensures not_json { NotJsonExactly (run_of words.now.items S.Source source.old source.new K.Sink sink.old sink.new result) }
    ensures not_tree { NotTreeExactly (run_of words.now.items S.Source source.old source.new K.Sink sink.old sink.new result) }
    ensures refused { RefusedExactly (run_of words.now.items S.Source source.old source.new K.Sink sink.old sink.new result) }
    ensures no_problem { NoProblemExactly (run_of words.now.items S.Source source.old source.new K.Sink sink.old sink.new result) }
    ensures late_problem { LateProblemExactly (run_of words.now.items S.Source source.old source.new K.Sink sink.old sink.new result) }
    ensures ego_too_fast { EgoTooFastExactly (run_of words.now.items S.Source source.old source.new K.Sink sink.old sink.new result) }
    ensures too_many_cells { TooManyCellsExactly (run_of words.now.items S.Source source.old source.new K.Sink sink.old sink.new result) }
    ensures lane_too_wide { LaneTooWideExactly (run_of words.now.items S.Source source.old source.new K.Sink sink.old sink.new result) }
    ensures too_many_lane_polygons { TooManyLanePolygonsExactly (run_of words.now.items S.Source source.old source.new K.Sink sink.old sink.new result) }
    ensures area_too_wide { AreaTooWideExactly (run_of words.now.items S.Source source.old source.new K.Sink sink.old sink.new result) }
    ensures too_many_boxes { TooManyBoxesExactly (run_of words.now.items S.Source source.old source.new K.Sink sink.old sink.new result) }
    ensures write_fault { WriteFaultOnly (run_of words.now.items S.Source source.old source.new K.Sink sink.old sink.new result) }

    // Where nothing fails, the output is written.
    ensures complete { Completes (run_of words.now.items S.Source source.old source.new K.Sink sink.old sink.new result) }

    // Where the run is done, the sink keeps nothing back.
    ensures emptied { IsDone result → K.kept_back sink.new ≡ [] }
{
    let status = run_spot(alloc, words, source, sink);
    flushed(status, sink)
}

// How the program ends where its words can't be had: words that aren't text stand for no command.
fn status_without_words(error: &io::Error) -> Status
    ensures memory { error_kind error.now ≡ ErrorKind.OutOfMemory → result ≡ Status.Memory }
    ensures no_text { error_kind error.now ≢ ErrorKind.OutOfMemory → result ≡ Status.BadWords }
{
    if error.kind() == ErrorKind::OutOfMemory {
        Status::Memory
    } else {
        Status::BadWords
    }
}

// Says how the run ended, and gives what the process ends with. A line that can't be written changes nothing: there is no
// place left to say so.
fn finish<K: Sink>(errors: &mut K, status: Status) -> ExitCode
    requires { K.takes errors.old (length (said status)) }
    ensures exit { exit_status result ≡ status_number status }
    ensures said { (Rose (K.faults errors.old) (K.faults errors.new) → ⊥)
        → Appends (K.written errors.old) (K.written errors.new) (said status) }
{
    let mut line = LineBuffer::new();
    put_status(&mut line, status);
    let _ = line.write(errors);
    ExitCode::from(status.number())
}

// What the program does, given its words, or why they can't be had: it runs, says how the run ended, and gives what the
// process ends with.
fn program<S: Source, K: Buffered, E: Sink>(
    alloc: Global,
    words: io::Result<Vec<String>>,
    source: &mut S,
    sink: &mut K,
    errors: &mut E,
) -> ExitCode
    requires output { IfOk words (λ w. TakesOutput (StandsFor w.items) (S.left source.old) (λ n. K.takes sink.old n)) }
    requires line { (status : Status) → E.takes errors.old (length (said status)) }
    ensures ends { (status : Status) × (exit_status result ≡ status_number status)
        × ((Rose (E.faults errors.old) (E.faults errors.new) → ⊥) → Appends (E.written errors.old) (E.written errors.new) (said status))
        × MatchResult words
        (λ w. IsSound (run_of w.items S.Source source.old source.new K.Sink sink.old sink.new status)
        × ((IsWritten status → ⊥) → sink.new ≡ sink.old)
        × ((AreForReading (run_of w.items S.Source source.old source.new K.Sink sink.old sink.new status) → ⊥) → source.new ≡ source.old)
        × (IsDone status → K.kept_back sink.new ≡ []))
        (λ error. (error_kind error ≡ ErrorKind.OutOfMemory → status ≡ Status.Memory) × (error_kind error ≢ ErrorKind.OutOfMemory → status ≡ Status.BadWords)
        × (source.new ≡ source.old) × (sink.new ≡ sink.old)) }
{
    match words {
        Ok(words) => {
            let status = run(alloc, &words, source, sink);
            finish(errors, status)
        }
        Err(error) => {
            let status = status_without_words(&error);
            finish(errors, status)
        }
    }
}

fn main(rt: HostRuntime) -> ExitCode {
    let stderr = rt.stderr();
    let mut errors = StdSink {
        inner: io::writer(&stderr),
        count: 0,
    };
    let Ok(inner) = BufWriter::with_capacity(rt.alloc(), BUFFER, io::writer(&rt)) else {
        return finish(&mut errors, Status::Memory);
    };
    let mut source = StdSource {
        inner: rt.reader(),
        count: 0,
    };
    let mut sink = StdSink { inner, count: 0 };
    program(rt.alloc(), words(&rt), &mut source, &mut sink, &mut errors)
}
