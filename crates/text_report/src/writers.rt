//! The writers of the lines: each makes its line in a buffer, by a function of its own, and writes it whole. Each answers
//! `SinkFault` only where the sink's count of faults rose in the call, and then a front of the line was appended.
ghost use Rattle.std.specs.Prelude.{◌≡◌, ◌+◌, ◌≤◌, ◌++◌, length};
ghost use Rattle.spot_io.specs.Writes.{WritesText};
ghost use Rattle.spot_terms.specs.Report.{line_text, mode_word, kind_word, head_line, time_line, mover_line, late_line, fixed_line, lane_line, occ_line, corner_words, ego_line, set_line, disc_line, count_line, last_line};
ghost use Rattle.base_sets.specs.Values.{value_of};
ghost use Rattle.text_report.specs.Blanked.{blanked};
ghost use Rattle.text_report.specs.Values.{ego_value};

use crate::ego_line::EgoLine;
use crate::line_buffer::LineBuffer;
use base_sets::BaseSet;
use convex_poly::{OctNumbers, Poly};
use spot_io::{Sink, SinkFault};
use spot_terms::{End, Mode, MoverLine, Pt};

/// The first line: which report it is.
///
/// At `SinkFault` the sink's count of faults rose in this call, and a front of the line was appended.
pub fn write_head<K: Sink>(sink: &mut K, mode: Mode) -> Result<(), SinkFault>
    requires { K.takes sink.old (length (line_text (head_line mode))) }
    ensures { WritesText K.Sink sink.old sink.new (line_text (head_line mode)) result }
{
    let mut line = LineBuffer::new();
    put_head(&mut line, mode);
    line.write(sink)
}

fn put_head(line: &mut LineBuffer, mode: Mode)
    ensures { line.new ≡ line_text (head_line mode) }
{
    line.start("spot");
    line.word("1");
    line.word(word_of_mode(mode));
    line.end();
}

/// The line of times: the milliseconds of a step, and the number of steps.
///
/// At `SinkFault` the sink's count of faults rose in this call, and a front of the line was appended.
pub fn write_time<K: Sink>(sink: &mut K, k: u32, steps: u32) -> Result<(), SinkFault>
    requires { K.takes sink.old (length (line_text (time_line k steps))) }
    ensures { WritesText K.Sink sink.old sink.new (line_text (time_line k steps)) result }
{
    let mut line = LineBuffer::new();
    put_time(&mut line, k, steps);
    line.write(sink)
}

fn put_time(line: &mut LineBuffer, k: u32, steps: u32)
    ensures { line.new ≡ line_text (time_line k steps) }
{
    line.start("time");
    line.number(k);
    line.number(steps);
    line.end();
}

/// The line of a predicted participant: its id; `lane` where it follows lanes, else `free`; its greatest acceleration in
/// m/s² and speed in mm/s; its start speed in mm/s; the radius of its body in µm; its start position in µm; and its box of
/// start velocities in mm/s.
///
/// At `SinkFault` the sink's count of faults rose in this call, and a front of the line was appended.
pub fn write_mover<K: Sink>(sink: &mut K, m: &MoverLine) -> Result<(), SinkFault>
    requires { K.takes sink.old (length (line_text (mover_line m.now))) }
    ensures { WritesText K.Sink sink.old sink.new (line_text (mover_line m.now)) result }
{
    let mut line = LineBuffer::new();
    put_mover(&mut line, m);
    line.write(sink)
}

fn put_mover(line: &mut LineBuffer, m: &MoverLine)
    ensures { line.new ≡ line_text (mover_line m.now) }
{
    line.start("mover");
    line.number(m.id);
    line.word(word_of_kind(m.lane));
    line.number(m.a);
    line.number(m.v);
    line.number(m.s);
    line.number(m.r);
    line.point(m.p);
    line.velocities(m.b);
    line.end();
}

/// The line of a participant that isn't predicted: its id, and its initial time, which isn't 0, in steps.
///
/// At `SinkFault` the sink's count of faults rose in this call, and a front of the line was appended.
pub fn write_late<K: Sink>(sink: &mut K, id: u32, time: u32) -> Result<(), SinkFault>
    requires { K.takes sink.old (length (line_text (late_line id time))) }
    ensures { WritesText K.Sink sink.old sink.new (line_text (late_line id time)) result }
{
    let mut line = LineBuffer::new();
    put_late(&mut line, id, time);
    line.write(sink)
}

fn put_late(line: &mut LineBuffer, id: u32, time: u32)
    ensures { line.new ≡ line_text (late_line id time) }
{
    line.start("late");
    line.number(id);
    line.number(time);
    line.end();
}

/// The line of a static obstacle: its id, and the eight numbers of the octagon that it occupies, in µm.
///
/// At `SinkFault` the sink's count of faults rose in this call, and a front of the line was appended.
pub fn write_fixed<K: Sink>(sink: &mut K, id: u32, n: &OctNumbers) -> Result<(), SinkFault>
    requires { K.takes sink.old (length (line_text (fixed_line id n.now.n))) }
    ensures { WritesText K.Sink sink.old sink.new (line_text (fixed_line id n.now.n)) result }
{
    let mut line = LineBuffer::new();
    put_fixed(&mut line, id, n);
    line.write(sink)
}

fn put_fixed(line: &mut LineBuffer, id: u32, body: &OctNumbers)
    ensures { line.new ≡ line_text (fixed_line id body.now.n) }
{
    line.start("fixed");
    line.number(id);
    line.numbers(&body.n);
    line.end();
}

/// The line of a lane polygon: a participant's id, the number of the cell, the first interval that the cell is reached in,
/// counted from 0, how many corners the polygon has, and each of them, in µm.
///
/// At `SinkFault` the sink's count of faults rose in this call, and a front of the line was appended.
pub fn write_lane<K: Sink>(
    sink: &mut K,
    id: u32,
    cell: u32,
    first: u32,
    p: &Poly,
) -> Result<(), SinkFault>
    requires { K.takes sink.old (length (line_text (lane_line id cell first p.now))) }
    ensures { WritesText K.Sink sink.old sink.new (line_text (lane_line id cell first p.now)) result }
{
    let mut line = LineBuffer::new();
    put_lane(&mut line, id, cell, first, p);
    line.write(sink)
}

fn put_lane(line: &mut LineBuffer, id: u32, cell: u32, first: u32, p: &Poly)
    ensures { line.new ≡ line_text (lane_line id cell first p.now) }
{
    line.start("lane");
    line.number(id);
    line.number(cell);
    line.number(first);
    put_corners(line, p);
    line.end();
}

/// The line of an occupancy: a participant's id, the number of the interval, counted from 0, and the eight numbers of the
/// octagon that holds it in that interval, in µm.
///
/// At `SinkFault` the sink's count of faults rose in this call, and a front of the line was appended.
pub fn write_occ<K: Sink>(
    sink: &mut K,
    id: u32,
    interval: u32,
    n: &OctNumbers,
) -> Result<(), SinkFault>
    requires { K.takes sink.old (length (line_text (occ_line id interval n.now.n))) }
    ensures { WritesText K.Sink sink.old sink.new (line_text (occ_line id interval n.now.n)) result }
{
    let mut line = LineBuffer::new();
    put_occ(&mut line, id, interval, n);
    line.write(sink)
}

fn put_occ(line: &mut LineBuffer, id: u32, interval: u32, reached: &OctNumbers)
    ensures { line.new ≡ line_text (occ_line id interval reached.now.n) }
{
    line.start("occ");
    line.number(id);
    line.number(interval);
    line.numbers(&reached.n);
    line.end();
}

/// The line of a recorded disc: its step, its obstacle's id, and its centre and its radius in µm.
///
/// At `SinkFault` the sink's count of faults rose in this call, and a front of the line was appended.
pub fn write_disc<K: Sink>(sink: &mut K, step: u32, id: u32, p: Pt, r: u64) -> Result<(), SinkFault>
    requires { K.takes sink.old (length (line_text (disc_line step id p r))) }
    ensures { WritesText K.Sink sink.old sink.new (line_text (disc_line step id p r)) result }
{
    let mut line = LineBuffer::new();
    put_disc(&mut line, step, id, p, r);
    line.write(sink)
}

fn put_disc(line: &mut LineBuffer, step: u32, id: u32, p: Pt, r: u64)
    ensures { line.new ≡ line_text (disc_line step id p r) }
{
    line.start("disc");
    line.number(step);
    line.number(id);
    line.point(p);
    line.number(r);
    line.end();
}

/// The line of the ego: its problem's id; its greatest acceleration in m/s² and speed in mm/s; the widths of a column and
/// of a row in µm; its start position in µm; and its box of start velocities in mm/s.
///
/// At `SinkFault` the sink's count of faults rose in this call, and a front of the line was appended.
pub fn write_ego<K: Sink>(sink: &mut K, e: &EgoLine) -> Result<(), SinkFault>
    requires { K.takes sink.old (length (line_text (ego_line (ego_value e.now)))) }
    ensures { WritesText K.Sink sink.old sink.new (line_text (ego_line (ego_value e.now))) result }
{
    let mut line = LineBuffer::new();
    put_ego(&mut line, e);
    line.write(sink)
}

fn put_ego(line: &mut LineBuffer, e: &EgoLine)
    ensures { line.new ≡ line_text (ego_line (ego_value e.now)) }
{
    line.start("ego");
    line.number(e.problem);
    line.number(e.e.a);
    line.number(e.e.v);
    line.number(e.grid.w);
    line.number(e.grid.g);
    line.point(e.s.p);
    line.velocities(e.s.b);
    line.end();
}

/// The line of a base set, whose polygon of x has this text.
pub(crate) fn put_set(line: &mut LineBuffer, x: &LineBuffer, step: u32, b: &BaseSet)
    requires x { x.now ≡ blanked (corner_words b.now.x) }
    requires short { length x.now ≤ 861 }
    ensures { line.new ≡ line_text (set_line step (value_of b.now)) }
{
    line.start("set");
    line.number(step);
    line.number(b.col);
    line.number(b.row);
    line.word("x");
    line.append(x);
    line.word("y");
    put_corners(line, &b.y);
    line.end();
}

// How many corners a polygon has, and each of them.
pub(crate) fn put_corners(line: &mut LineBuffer, p: &Poly)
    requires { length line.old + 861 ≤ 2048 }
    ensures bytes { line.new ≡ line.old ++ blanked (corner_words p.now) }
    ensures short { length line.new ≤ length line.old + 861 }
{
    let corners = p.corners();
    line.number(corners.len());
    line.points(corners);
}

/// The line of a step's count: the step, and how many base sets it has.
///
/// At `SinkFault` the sink's count of faults rose in this call, and a front of the line was appended.
pub fn write_count<K: Sink>(sink: &mut K, step: u32, sets: u64) -> Result<(), SinkFault>
    requires { K.takes sink.old (length (line_text (count_line step sets))) }
    ensures { WritesText K.Sink sink.old sink.new (line_text (count_line step sets)) result }
{
    let mut line = LineBuffer::new();
    put_count(&mut line, step, sets);
    line.write(sink)
}

fn put_count(line: &mut LineBuffer, step: u32, sets: u64)
    ensures { line.new ≡ line_text (count_line step sets) }
{
    line.start("count");
    line.number(step);
    line.number(sets);
    line.end();
}

/// The last line: how the report ends.
///
/// At `SinkFault` the sink's count of faults rose in this call, and a front of the line was appended.
pub fn write_end<K: Sink>(sink: &mut K, e: End) -> Result<(), SinkFault>
    requires { K.takes sink.old (length (line_text (last_line e))) }
    ensures { WritesText K.Sink sink.old sink.new (line_text (last_line e)) result }
{
    let mut line = LineBuffer::new();
    put_end(&mut line, e);
    line.write(sink)
}

fn put_end(line: &mut LineBuffer, e: End)
    ensures { line.new ≡ line_text (last_line e) }
{
    match e {
        End::Done => line.start("done"),
        End::Open => line.start("open"),
        End::Empty(step) => {
            line.start("empty");
            line.number(step);
        }
    }
    line.end();
}

// The word that names the report.
fn word_of_mode(mode: Mode) -> &'static str
    ensures word { result.now ≡ mode_word mode }
    ensures short { length result.now ≤ 7 }
{
    match mode {
        Mode::Predict => "predict",
        Mode::Area => "area",
        Mode::Replay => "replay",
    }
}

// The word that says whether a participant follows lanes.
fn word_of_kind(lane: bool) -> &'static str
    ensures word { result.now ≡ kind_word lane }
    ensures short { length result.now ≤ 4 }
{
    if lane { "lane" } else { "free" }
}
