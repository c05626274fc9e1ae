//! The drawing of the area of a scenario's ego: the outer box of the last step that is made, what is occupied there, and the
//! base sets. All memory is taken before the first byte is written.

ghost use Rattle.std.specs.Prelude.{◌≡◌, ◌<◌, ◌≤◌, Some, length, map, option_map, slice_get, IfOk};
ghost use Rattle.std.specs.List.{AllByRecursion};
ghost use Rattle.area_run.specs.Plans.{course_of};
ghost use Rattle.area_report.specs.Egos.{HasEgo};
ghost use Rattle.participants.specs.Pieces.{pieces_at};
ghost use Rattle.participants.specs.Predictions.{IsSmall};
ghost use Rattle.spot_io.specs.Writes.{WritesText};
ghost use Rattle.spot_terms.specs.Causes.{Rose};
ghost use Rattle.spot_terms.specs.Drawings.{shape_of as drawn_piece};
ghost use Rattle.spot_terms.specs.Pieces.{octagon as octagon_piece};
ghost use Rattle.spot_terms.specs.Ranges.{IsCommandInRange};
ghost use Rattle.spot_terms.specs.declared.command.Task.TheVariants.{Draw};
ghost use Rattle.spot_terms.specs.declared.status.Status.TheVariants.{WriteFault};
ghost use Rattle.spot_claims.specs.Outputs.{IsWritten};
ghost use Rattle.spot_run.specs.Drawings.{drawing_at};
ghost use Rattle.spot_run.specs.Tells.{TakesFor, Tells};
ghost use Rattle.spot_run.specs.Writes.{IsPredicted};
ghost use Rattle.svg_report.specs.Shapes.{drawn_of, IsNearShape};

use crate::area::{open_run, status_of};
use crate::traffic::prediction_of;
use area_report::{ego_of, go_to_last};
use area_run::AreaRun;
use carve::Occupied;
use convex_poly::OctNumbers;
use participants::Prediction;
use spot_io::{Sink, SinkFault};
use spot_terms::{Command, Scenario, Status};
use std::alloc::{AllocError, Global};
use svg_report::{Shape, draw};
use text_report::EgoLine;

// The rectangle of an octagon's numbers along the axes.
fn rectangle_of(octagon: &OctNumbers) -> Shape
    requires { IsSmall octagon.now }
    ensures drawn { drawn_of result ≡ drawn_piece (octagon_piece octagon.now.n) }
    ensures near { IsNearShape result }
{
    let n = &octagon.n;
    Shape::Rect(-n[4], n[0], -n[6], n[2])
}

// What is drawn of a piece of a step: its lane polygon, where it has one, and else the rectangle of its octagon.
fn shape_of(prediction: &Prediction, step: u32, piece: u32) -> Shape
    requires step { step ≤ prediction.now.steps }
    requires piece { piece < length (pieces_at prediction.now step) }
    ensures drawn { option_map drawn_piece (slice_get (pieces_at prediction.now step) piece) ≡ Some (drawn_of result) }
    ensures near { IsNearShape result }
{
    match prediction.parts(step, piece) {
        (_, Some(polygon)) => Shape::Lane(polygon.copy()),
        (octagon, None) => rectangle_of(octagon),
    }
}

// What is drawn of the pieces of a step, in their order.
fn shapes_of(alloc: Global, prediction: &Prediction, step: u32) -> Result<Vec<Shape>, AllocError>
    requires { step ≤ prediction.now.steps }
    ensures drawn { IfOk result (λ shapes. map drawn_of shapes.items ≡ map drawn_piece (pieces_at prediction.now step)) }
    ensures near { IfOk result (λ shapes. AllByRecursion IsNearShape shapes.items) }
{
    let count = prediction.pieces(step);
    let mut shapes = Vec::with_capacity(alloc, count as usize)?;
    for piece in 0..count {
        shapes.push(shape_of(prediction, step, piece))?;
    }
    Ok(shapes)
}

// Writes the drawing of the step at which a run stands, with these shapes of its pieces.
fn draw_step<K: Sink>(
    sink: &mut K,
    run: &AreaRun<'_, Prediction>,
    shapes: &[Shape],
) -> Result<(), SinkFault>
    requires drawn { map drawn_of shapes.now ≡ map drawn_piece (pieces_at run.now.o run.now.at) }
    requires near { AllByRecursion IsNearShape shapes.now }
    requires room { K.takes sink.old (length (drawing_at (course_of run.now.plan) run.now.o run.now.at run.now.sets)) }
    ensures { WritesText K.Sink sink.old sink.new (drawing_at (course_of run.now.plan) run.now.o run.now.at run.now.sets) result }
{
    draw(sink, &run.outer_box(), shapes, run.sets())
}

// Finds the area of the ego over a prediction, and draws its last step.
fn draw_over<K: Sink>(
    alloc: Global,
    scenario: &Scenario,
    command: &Command,
    prediction: &Prediction,
    ego: &EgoLine,
    sink: &mut K,
) -> Status
    requires command { IsCommandInRange command.now }
    requires task { command.now.task ≡ Draw }
    requires predicted { IsPredicted scenario.now command.now.steps prediction.now }
    requires ego { HasEgo scenario.now command.now ego.now }
    requires room { TakesFor scenario.now command.now (λ n. K.takes sink.old n) }
    ensures tells { Tells scenario.now command.now (K.written sink.old) (K.written sink.new) result }
    ensures kept { (IsWritten result → ⊥) → sink.new ≡ sink.old }
    ensures later { K.faults sink.old ≤ K.faults sink.new }
    ensures cause { result ≡ WriteFault → Rose (K.faults sink.old) (K.faults sink.new) }
{
    let mut run = match open_run(alloc, scenario, prediction, ego, command.steps) {
        Ok(run) => run,
        Err(status) => return status,
    };
    go_to_last(&mut run);
    let Ok(shapes) = shapes_of(alloc, prediction, run.at()) else {
        return Status::Memory;
    };
    match draw_step(sink, &run, &shapes) {
        Ok(()) => status_of(&run),
        Err(_) => Status::WriteFault,
    }
}

/// Finds the drivable area of the ego of a scenario whose command asks for it, as `area` does, and draws its last step: the
/// last one that is asked for, or the one that is empty.
///
/// What may refuse it comes in this order, before anything is written: the problem, the network, the prediction, the area.
/// No memory is taken after the first byte. At `WriteFault` a front of the drawing was appended.
pub(crate) fn write_drawing<K: Sink>(
    alloc: Global,
    scenario: &Scenario,
    command: &Command,
    sink: &mut K,
) -> Status
    requires command { IsCommandInRange command.now }
    requires task { command.now.task ≡ Draw }
    requires room { TakesFor scenario.now command.now (λ n. K.takes sink.old n) }
    ensures tells { Tells scenario.now command.now (K.written sink.old) (K.written sink.new) result }
    ensures kept { (IsWritten result → ⊥) → sink.new ≡ sink.old }
    ensures later { K.faults sink.old ≤ K.faults sink.new }
    ensures cause { result ≡ WriteFault → Rose (K.faults sink.old) (K.faults sink.new) }
{
    let ego = match ego_of(scenario, command) {
        Ok(ego) => ego,
        Err(status) => return status,
    };
    let prediction = match prediction_of(alloc, scenario, command.steps) {
        Ok(prediction) => prediction,
        Err(status) => return status,
    };
    draw_over(alloc, scenario, command, &prediction, &ego, sink)
}
