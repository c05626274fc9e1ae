//! The lines of base sets, one after another.

ghost use Rattle.std.specs.Prelude.{◌≡◌, ◌↔◌, ◌≤◌, IsTrue, length};
ghost use Rattle.spot_io.specs.Writes.{WritesText};
ghost use Rattle.spot_terms.specs.Report.{line_text, corner_words, set_line};
ghost use Rattle.base_sets.specs.Values.{value_of};
ghost use Rattle.text_report.specs.Blanked.{blanked};

use crate::line_buffer::LineBuffer;
use crate::writers::{put_corners, put_set};
use base_sets::BaseSet;
use convex_poly::{Poly, segment};
use spot_io::{Sink, SinkFault};
use spot_terms::Pt;
use std::marker::Model;

/// The lines of base sets. Neighbours mostly have the same polygon of x: the text of its corners is kept for the next line.
/// Seen as the polygon whose text is kept.
#[derive(Drop)]
pub struct SetLines {
    line: LineBuffer,
    x: Poly,
    text: LineBuffer,
}

impl Model for SetLines {
    ghost use Rattle.std.specs.Prelude.{◌≡◌, ◌≤◌, List, length};
    ghost use Rattle.spot_terms.specs.Report.{corner_words};
    ghost use Rattle.spot_terms.specs.declared.plain.Pt.{Pt};
    ghost use Rattle.text_report.specs.Blanked.{blanked};

    ghost Value = { List Pt };

    ghost view = { λ l. l.x };

    ghost invariant = { λ l. (l.text ≡ blanked (corner_words l.x)) × (length l.text ≤ 861) };
}

impl SetLines {
    /// No line yet.
    pub fn new() -> SetLines {
        let x = segment(Pt { x: 0, y: 0 }, Pt { x: 0, y: 0 });
        let mut text = LineBuffer::new();
        put_text(&mut text, &x);
        SetLines {
            line: LineBuffer::new(),
            x,
            text,
        }
    }

    /// Writes the line of a base set: its step, its column and its row; then of its polygon of x, and of that of y, how many
    /// corners it has, and each of them: a place in µm and a speed in mm/s.
    ///
    /// At `SinkFault` the sink's count of faults rose in this call, and a front of the line was appended.
    pub fn write<K: Sink>(&mut self, sink: &mut K, step: u32, b: &BaseSet) -> Result<(), SinkFault>
        requires { K.takes sink.old (length (line_text (set_line step (value_of b.now)))) }
        ensures { WritesText K.Sink sink.old sink.new (line_text (set_line step (value_of b.now))) result }
    {
        go_to(&mut self.x, &mut self.text, &b.x);
        put_set(&mut self.line, &self.text, step, b);
        self.line.write(sink)
    }
}

// The text of a polygon's corners, in place of what is there.
fn put_text(text: &mut LineBuffer, p: &Poly)
    ensures text { text.new ≡ blanked (corner_words p.now) }
    ensures short { length text.new ≤ 861 }
{
    text.start("");
    put_corners(text, p);
}

// Goes to a polygon. The text of its corners is made anew unless it is the one that is kept.
fn go_to(kept: &mut Poly, text: &mut LineBuffer, p: &Poly)
    requires text { text.old ≡ blanked (corner_words kept.old) }
    requires short { length text.old ≤ 861 }
    ensures kept { kept.new ≡ p.now }
    ensures text { text.new ≡ blanked (corner_words p.now) }
    ensures short { length text.new ≤ 861 }
{
    if !is_same(kept, p) {
        put_text(text, p);
        *kept = p.copy();
    }
}

// Whether two polygons are equal.
fn is_same(p: &Poly, q: &Poly) -> bool
    ensures { IsTrue result ↔ p.now ≡ q.now }
{
    p.corners() == q.corners()
}
