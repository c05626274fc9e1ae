//! The report of a prediction, line by line. Nothing here takes memory. Each call answers `SinkFault` only where the sink's
//! count of faults rose in it, and then a front of its lines was appended.

ghost use Rattle.std.specs.Prelude.{◌≡◌, ◌≤◌, length, map, flat_map};
ghost use Rattle.std.specs.List.{AllByRecursion};
ghost use Rattle.spot_terms.specs.Report.{report_text};
ghost use Rattle.spot_terms.specs.Participants.{starting};
ghost use Rattle.spot_io.specs.Writes.{WritesText};
ghost use Rattle.spot_run.specs.Lines.{line_of as participant_line, obstacle_lines, octagon_line, octagon_lines, occupancy_lines, polygon_line, lane_lines, front_lines, back_lines, opening_lines};
ghost use Rattle.spot_run.specs.Writes.{report_of};

use convex_poly::OctNumbers;
use participants::{LanePoly, Participant, Prediction};
use spot_io::{Sink, SinkFault};
use spot_terms::{End, MOST_STEPS, Mode, Mover, MoverLine, Scenario};
use text_report::{
    write_end, write_fixed, write_head, write_lane, write_late, write_mover, write_occ, write_time,
};

// What the line of a participant says.
fn line_of(p: &Participant) -> MoverLine
    ensures { result ≡ participant_line p.now }
{
    MoverLine {
        id: p.id,
        lane: p.lane,
        a: p.start.a,
        v: p.start.v,
        s: p.speed,
        r: p.start.r,
        p: p.start.p,
        b: p.start.b,
    }
}

// The lines of the dynamic obstacles, in document order.
fn write_obstacles<K: Sink>(
    sink: &mut K,
    movers: &[Mover],
    participants: &[Participant],
) -> Result<(), SinkFault>
    requires enough { length (starting movers.now) ≤ length participants.now }
    requires room { K.takes sink.old (length (report_text (obstacle_lines movers.now participants.now))) }
    ensures { WritesText K.Sink sink.old sink.new (report_text (obstacle_lines movers.now participants.now)) result }
{
    let mut next = 0;
    for m in movers {
        if m.time == 0 {
            write_mover(sink, &line_of(&participants[next]))?;
            next += 1;
        } else {
            write_late(sink, m.id, m.time)?;
        }
    }
    Ok(())
}

// The lines of the static obstacles.
fn write_octagons<K: Sink>(sink: &mut K, octagons: &[(u32, OctNumbers)]) -> Result<(), SinkFault>
    requires { K.takes sink.old (length (report_text (map octagon_line octagons.now))) }
    ensures { WritesText K.Sink sink.old sink.new (report_text (map octagon_line octagons.now)) result }
{
    for (id, octagon) in octagons {
        write_fixed(sink, *id, octagon)?;
    }
    Ok(())
}

// The lane polygons of one participant.
fn write_polygons<K: Sink>(sink: &mut K, id: u32, polygons: &[LanePoly]) -> Result<(), SinkFault>
    requires { K.takes sink.old (length (report_text (map (polygon_line id) polygons.now))) }
    ensures { WritesText K.Sink sink.old sink.new (report_text (map (polygon_line id) polygons.now)) result }
{
    for p in polygons {
        write_lane(sink, id, p.cell, p.first, &p.poly)?;
    }
    Ok(())
}

// The lane polygons of the participants, none of one that is free.
fn write_lanes<K: Sink>(sink: &mut K, participants: &[Participant]) -> Result<(), SinkFault>
    requires { K.takes sink.old (length (report_text (flat_map lane_lines participants.now))) }
    ensures { WritesText K.Sink sink.old sink.new (report_text (flat_map lane_lines participants.now)) result }
{
    for p in participants {
        write_polygons(sink, p.id, p.polys.list())?;
    }
    Ok(())
}

// The octagons of one participant, by interval.
fn write_intervals<K: Sink>(sink: &mut K, id: u32, octagons: &[OctNumbers]) -> Result<(), SinkFault>
    requires few { length octagons.now ≤ MOST_STEPS }
    requires room { K.takes sink.old (length (report_text (octagon_lines id 0 octagons.now))) }
    ensures { WritesText K.Sink sink.old sink.new (report_text (octagon_lines id 0 octagons.now)) result }
{
    for (i, octagon) in octagons.iter().enumerate() {
        write_occ(sink, id, i as u32, octagon)?;
    }
    Ok(())
}

// The octagons of the participants.
fn write_occupancies<K: Sink>(sink: &mut K, participants: &[Participant]) -> Result<(), SinkFault>
    requires few { AllByRecursion (λ p. length p.octs ≤ MOST_STEPS) participants.now }
    requires room { K.takes sink.old (length (report_text (flat_map occupancy_lines participants.now))) }
    ensures { WritesText K.Sink sink.old sink.new (report_text (flat_map occupancy_lines participants.now)) result }
{
    for p in participants {
        write_intervals(sink, p.id, p.octs.list())?;
    }
    Ok(())
}

// The head, and the lines of the dynamic obstacles.
fn write_front<K: Sink>(
    sink: &mut K,
    mode: Mode,
    scenario: &Scenario,
    participants: &[Participant],
    steps: u32,
) -> Result<(), SinkFault>
    requires enough { length (starting scenario.now.movers) ≤ length participants.now }
    requires room { K.takes sink.old (length (report_text (front_lines mode scenario.now steps participants.now))) }
    ensures { WritesText K.Sink sink.old sink.new (report_text (front_lines mode scenario.now steps participants.now)) result }
{
    write_head(sink, mode)?;
    write_time(sink, scenario.step, steps)?;
    write_obstacles(sink, scenario.movers.list(), participants)
}

// The lines of the participants' lane polygons and octagons.
fn write_back<K: Sink>(sink: &mut K, participants: &[Participant]) -> Result<(), SinkFault>
    requires few { AllByRecursion (λ p. length p.octs ≤ MOST_STEPS) participants.now }
    requires room { K.takes sink.old (length (report_text (back_lines participants.now))) }
    ensures { WritesText K.Sink sink.old sink.new (report_text (back_lines participants.now)) result }
{
    write_lanes(sink, participants)?;
    write_occupancies(sink, participants)
}

/// Writes what a report with traffic begins with: the mode, the time, and the lines of all obstacles. At `SinkFault` the
/// sink's count of faults rose in this call, and a front of these lines was appended.
pub fn write_traffic<K: Sink>(
    sink: &mut K,
    mode: Mode,
    scenario: &Scenario,
    prediction: &Prediction,
    steps: u32,
) -> Result<(), SinkFault>
    requires enough { length (starting scenario.now.movers) ≤ length prediction.now.participants }
    requires few { AllByRecursion (λ p. length p.octs ≤ MOST_STEPS) prediction.now.participants }
    requires room { K.takes sink.old (length (report_text (opening_lines mode scenario.now.step steps scenario.now.movers prediction.now))) }
    ensures { WritesText K.Sink sink.old sink.new (report_text (opening_lines mode scenario.now.step steps scenario.now.movers prediction.now)) result }
{
    let participants = prediction.list();
    write_front(sink, mode, scenario, participants, steps)?;
    write_octagons(sink, prediction.fixed())?;
    write_back(sink, participants)
}

/// Writes the report of a prediction, of so many steps. At `SinkFault` the sink's count of faults rose in this call, and a
/// front of the report was appended.
pub fn write_prediction<K: Sink>(
    sink: &mut K,
    scenario: &Scenario,
    prediction: &Prediction,
    steps: u32,
) -> Result<(), SinkFault>
    requires enough { length (starting scenario.now.movers) ≤ length prediction.now.participants }
    requires few { AllByRecursion (λ p. length p.octs ≤ MOST_STEPS) prediction.now.participants }
    requires room { K.takes sink.old (length (report_of scenario.now steps prediction.now)) }
    ensures { WritesText K.Sink sink.old sink.new (report_of scenario.now steps prediction.now) result }
{
    write_traffic(sink, Mode::Predict, scenario, prediction, steps)?;
    write_end(sink, End::Done)
}
