//! The drawing.

ghost use Rattle.std.specs.Prelude.{flat_map, length, map, codes};
ghost use Rattle.std.specs.List.{AllByRecursion};
ghost use Rattle.spot_io.specs.Writes.{WritesText};
ghost use Rattle.spot_terms.specs.Drawings.{drawing_text, first_line, set_line, shape_line};
ghost use Rattle.base_sets.specs.Values.{rect_of_box, value_of};
ghost use Rattle.svg_report.specs.Shapes.{drawn_of, IsNear, IsNearShape};

use crate::lines::{put_first, put_last, put_set, put_shape};
use crate::shape::Shape;
use base_sets::{BaseSet, OuterBox};
use spot_io::{Sink, SinkFault};
use text_report::LineBuffer;

// Writes the first line.
fn write_first<K: Sink>(sink: &mut K, o: &OuterBox) -> Result<(), SinkFault>
    requires near { IsNear (rect_of_box o.now) }
    requires room { K.takes sink.old (length (first_line (rect_of_box o.now))) }
    ensures { WritesText K.Sink sink.old sink.new (first_line (rect_of_box o.now)) result }
{
    let mut line = LineBuffer::new();
    put_first(&mut line, o);
    line.write(sink)
}

// Writes the shapes, one after another.
fn write_shapes<K: Sink>(sink: &mut K, shapes: &[Shape]) -> Result<(), SinkFault>
    requires near { AllByRecursion IsNearShape shapes.now }
    requires room { K.takes sink.old (length (flat_map (λ shape. shape_line (drawn_of shape)) shapes.now)) }
    ensures { WritesText K.Sink sink.old sink.new (flat_map (λ shape. shape_line (drawn_of shape)) shapes.now) result }
{
    let mut line = LineBuffer::new();
    for shape in shapes {
        put_shape(&mut line, shape);
        line.write(sink)?;
    }
    Ok(())
}

// Writes the rectangles of base sets, one after another.
fn write_sets<K: Sink>(sink: &mut K, sets: &[BaseSet]) -> Result<(), SinkFault>
    requires { K.takes sink.old (length (flat_map (λ b. set_line (value_of b)) sets.now)) }
    ensures { WritesText K.Sink sink.old sink.new (flat_map (λ b. set_line (value_of b)) sets.now) result }
{
    let mut line = LineBuffer::new();
    for b in sets {
        put_set(&mut line, b);
        line.write(sink)?;
    }
    Ok(())
}

// Writes the last line.
fn write_last<K: Sink>(sink: &mut K) -> Result<(), SinkFault>
    requires { K.takes sink.old (length (codes "</svg>\n")) }
    ensures { WritesText K.Sink sink.old sink.new (codes "</svg>\n") result }
{
    let mut line = LineBuffer::new();
    put_last(&mut line);
    line.write(sink)
}

/// Writes the drawing of a box, of shapes and of base sets, a line each, in this order. What is drawn of a set is the
/// rectangle of its places. The ends of the box and of the rectangles are at most 10^14 in size.
///
/// At `SinkFault` the sink's count of faults rose in this call, and a front of the drawing was appended.
pub fn draw<K: Sink>(
    sink: &mut K,
    o: &OuterBox,
    shapes: &[Shape],
    sets: &[BaseSet],
) -> Result<(), SinkFault>
    requires near { IsNear (rect_of_box o.now) }
    requires shapes { AllByRecursion IsNearShape shapes.now }
    requires room { K.takes sink.old (length (drawing_text (rect_of_box o.now) (map drawn_of shapes.now) (map value_of sets.now))) }
    ensures { WritesText K.Sink sink.old sink.new (drawing_text (rect_of_box o.now) (map drawn_of shapes.now) (map value_of sets.now)) result }
{
    write_first(sink, o)?;
    write_shapes(sink, shapes)?;
    write_sets(sink, sets)?;
    write_last(sink)
}
