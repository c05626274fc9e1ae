//! The line on standard error.

ghost use Rattle.std.specs.Prelude.{◌≡◌, ◌≤◌, length};
ghost use Rattle.spot_cli.specs.StatusLines.{code_word as word_of_code, which_word as word_of_limit, said};

use spot_terms::{Code, Status, Which};
use text_report::LineBuffer;

/// Makes what is said of how a run ended: a line, or nothing where the whole output was written.
pub fn put_status(line: &mut LineBuffer, status: Status)
    ensures { line.new ≡ said status }
{
    match status {
        Status::Open | Status::Empty(_) => line.start(""),
        Status::BadWords => line.start("spot: bad command line\n"),
        Status::Refused(code, place) => {
            line.start("spot: refused ");
            line.text(code_word(code));
            line.text(" at ");
            line.digits(place);
            line.end();
        }
        Status::Limit(which, step, count) => {
            line.start("spot: limit ");
            line.text(which_word(which));
            line.text(" step ");
            line.digits(step);
            line.text(" count ");
            line.digits(count);
            line.end();
        }
        Status::ReadFault => line.start("spot: read fault\n"),
        Status::WriteFault => line.start("spot: write fault\n"),
        Status::Memory => line.start("spot: out of memory\n"),
    }
}

/// The word for why an input is refused.
pub fn code_word(code: Code) -> &'static str
    ensures word { result.now ≡ word_of_code code }
    ensures short { length result.now ≤ 19 }
{
    match code {
        Code::NotJson => "NotJson",
        Code::NotTree => "NotTree",
        Code::Root => "Root",
        Code::Version => "Version",
        Code::Missing => "Missing",
        Code::BadNumber => "BadNumber",
        Code::OutOfRange => "OutOfRange",
        Code::StepSize => "StepSize",
        Code::BadId => "BadId",
        Code::DuplicateId => "DuplicateId",
        Code::BoundCount => "BoundCount",
        Code::UncertainPosition => "UncertainPosition",
        Code::UncertainValue => "UncertainValue",
        Code::TooManyParticipants => "TooManyParticipants",
        Code::NoProblem => "NoProblem",
        Code::LateProblem => "LateProblem",
        Code::EgoTooFast => "EgoTooFast",
    }
}

/// The word for a limit.
pub fn which_word(which: Which) -> &'static str
    ensures word { result.now ≡ word_of_limit which }
    ensures short { length result.now ≤ 19 }
{
    match which {
        Which::TooLong => "TooLong",
        Which::TooManyCells => "TooManyCells",
        Which::LaneTooWide => "LaneTooWide",
        Which::TooManyLanePolygons => "TooManyLanePolygons",
        Which::AreaTooWide => "AreaTooWide",
        Which::TooManyBoxes => "TooManyBoxes",
    }
}
