//! The lines of a drawing, each in a buffer.

ghost use Rattle.std.specs.Prelude.{◌≡◌, ◌+◌, ◌≤◌, ◌++◌, ◌+ℤ◌, ◌-ℤ◌, neg_ℤ, pos, codes, length};
ghost use Rattle.spot_terms.specs.Drawings.{first_line, point_text, points_text, polygon_line, rect_line, set_line, shape_line};
ghost use Rattle.spot_terms.specs.Report.{whole};
ghost use Rattle.spot_terms.specs.Whole.{SizeAtMost};
ghost use Rattle.base_sets.specs.Values.{rect_of_box, value_of};
ghost use Rattle.svg_report.specs.Shapes.{drawn_of, IsNear, IsNearShape};

use crate::shape::Shape;
use base_sets::{BaseSet, OuterBox};
use convex_poly::Poly;
use spot_terms::Pt;
use text_report::LineBuffer;

// A number that is drawn.
fn put_number(line: &mut LineBuffer, n: i64)
    requires room { length line.old + 20 ≤ 2048 }
    requires near { SizeAtMost 1_000_000_000_000_000 n }
    ensures bytes { line.new ≡ line.old ++ whole n }
    ensures short { length line.new ≤ length line.old + 20 }
{
    line.digits(n);
}

// A y, as it is drawn.
fn drawn_y(y: i64) -> i64
    requires { SizeAtMost 100_000_000_000_000 y }
    ensures value { result ≡ neg_ℤ y }
    ensures near { SizeAtMost 1_000_000_000_000_000 result }
{
    -y
}

// How many places there are from `lo` to `hi`, both with them.
fn extent(lo: i64, hi: i64) -> i64
    requires low { SizeAtMost 100_000_000_000_000 lo }
    requires high { SizeAtMost 100_000_000_000_000 hi }
    ensures value { result ≡ hi -ℤ lo +ℤ pos 1 }
    ensures near { SizeAtMost 1_000_000_000_000_000 result }
{
    hi - lo + 1
}

/// The first line: the box that is seen.
pub(crate) fn put_first(line: &mut LineBuffer, o: &OuterBox)
    requires { IsNear (rect_of_box o.now) }
    ensures { line.new ≡ first_line (rect_of_box o.now) }
{
    line.start("<svg xmlns=\"http://www.w3.org/2000/svg\" viewBox=\"");
    put_number(line, o.xlo);
    line.text(" ");
    put_number(line, drawn_y(o.yhi));
    line.text(" ");
    put_number(line, extent(o.xlo, o.xhi));
    line.text(" ");
    put_number(line, extent(o.ylo, o.yhi));
    line.text("\">\n");
}

// A rectangle of a class, by its ends.
fn put_rect(line: &mut LineBuffer, class: &str, r: &OuterBox)
    requires near { IsNear (rect_of_box r.now) }
    requires short { length class.now ≤ 100 }
    ensures { line.new ≡ rect_line class.now (rect_of_box r.now) }
{
    line.start("<rect class=\"");
    line.text(class);
    line.text("\" x=\"");
    put_number(line, r.xlo);
    line.text("\" y=\"");
    put_number(line, drawn_y(r.yhi));
    line.text("\" width=\"");
    put_number(line, extent(r.xlo, r.xhi));
    line.text("\" height=\"");
    put_number(line, extent(r.ylo, r.yhi));
    line.text("\"/>\n");
}

// A point.
fn put_point(line: &mut LineBuffer, p: Pt)
    requires room { length line.old + 41 ≤ 2048 }
    requires x { SizeAtMost 40_000_000_000_000 p.x }
    requires y { SizeAtMost 40_000_000_000_000 p.y }
    ensures bytes { line.new ≡ line.old ++ point_text p }
    ensures short { length line.new ≤ length line.old + 41 }
{
    put_number(line, p.x);
    line.text(",");
    put_number(line, drawn_y(p.y));
}

// The corners of a polygon, separated by one space.
fn put_points(line: &mut LineBuffer, p: &Poly)
    requires { length line.old ≤ 1000 }
    ensures bytes { line.new ≡ line.old ++ points_text p.now }
    ensures short { length line.new ≤ length line.old + 840 }
{
    let corners = p.corners();
    put_point(line, corners[0]);
    for i in 1..corners.len() {
        line.text(" ");
        put_point(line, corners[i]);
    }
}

// A lane polygon.
fn put_polygon(line: &mut LineBuffer, p: &Poly)
    ensures { line.new ≡ polygon_line p.now }
{
    line.start("<polygon class=\"occ\" points=\"");
    put_points(line, p);
    line.text("\"/>\n");
}

/// A shape; nothing, where it is a rectangle without places.
pub(crate) fn put_shape(line: &mut LineBuffer, shape: &Shape)
    requires { IsNearShape shape.now }
    ensures { line.new ≡ shape_line (drawn_of shape.now) }
{
    match shape {
        Shape::Lane(p) => put_polygon(line, p),
        Shape::Rect(xlo, xhi, ylo, yhi) => {
            if *xlo <= *xhi && *ylo <= *yhi {
                put_rect(
                    line,
                    "occ",
                    &OuterBox {
                        xlo: *xlo,
                        xhi: *xhi,
                        ylo: *ylo,
                        yhi: *yhi,
                    },
                );
            } else {
                line.start("");
            }
        }
    }
}

/// The rectangle of a base set's places.
pub(crate) fn put_set(line: &mut LineBuffer, b: &BaseSet)
    ensures { line.new ≡ set_line (value_of b.now) }
{
    let (xlo, xhi, ylo, yhi) = b.rect();
    put_rect(line, "free", &OuterBox { xlo, xhi, ylo, yhi });
}

/// The last line.
pub(crate) fn put_last(line: &mut LineBuffer)
    ensures { line.new ≡ codes "</svg>\n" }
{
    line.start("</svg>\n");
}
