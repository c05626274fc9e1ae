//! The summary of the drivable area of a made scenario.
ghost use Rattle.std.specs.Prelude.{◌≡◌, length};
ghost use Rattle.spot_io.specs.Writes.{WritesText};
ghost use Rattle.spot_terms.specs.Summaries.{summary_text};
ghost use Rattle.text_report.specs.Summaries.{value_of, made_line, lanes_line, sets_line};

use crate::line_buffer::LineBuffer;
use crate::writers::write_end;
use spot_io::{Sink, SinkFault};
use spot_terms::End;

/// What a summary says.
#[derive(Clone, Copy, Debug, PartialEq, Eq)]
pub struct Summary {
    /// The number, the lanes and the movers that the scenario was made of.
    pub seed: u32,
    pub lanes: u32,
    pub movers: u32,
    /// How many bytes its text has.
    pub bytes: u64,
    /// How many cells its network has.
    pub cells: u32,
    /// How many lane polygons its participants have together.
    pub polygons: u64,
    /// How many base sets all steps have together.
    pub sets: u128,
    /// How the area ends.
    pub end: End,
}

/// Writes the four lines of a summary: what the scenario was made of and how long its text is; the cells of its network and
/// the lane polygons; the base sets; and how the area ends.
///
/// At `SinkFault` the sink's count of faults rose in this call, and a front of the lines was appended.
pub fn write_summary<K: Sink>(sink: &mut K, s: &Summary) -> Result<(), SinkFault>
    requires { K.takes sink.old (length (summary_text (value_of s.now))) }
    ensures { WritesText K.Sink sink.old sink.new (summary_text (value_of s.now)) result }
{
    let mut line = LineBuffer::new();
    put_made(&mut line, s);
    line.write(sink)?;
    put_lanes(&mut line, s);
    line.write(sink)?;
    put_sets(&mut line, s);
    line.write(sink)?;
    write_end(sink, s.end)
}

fn put_made(line: &mut LineBuffer, s: &Summary)
    ensures { line.new ≡ made_line s.now }
{
    line.start("sample");
    line.number(s.seed);
    line.number(s.lanes);
    line.number(s.movers);
    line.number(s.bytes);
    line.end();
}

fn put_lanes(line: &mut LineBuffer, s: &Summary)
    ensures { line.new ≡ lanes_line s.now }
{
    line.start("cells");
    line.number(s.cells);
    line.word("lanes");
    line.number(s.polygons);
    line.end();
}

fn put_sets(line: &mut LineBuffer, s: &Summary)
    ensures { line.new ≡ sets_line s.now }
{
    line.start("sets");
    line.number(s.sets);
    line.end();
}
