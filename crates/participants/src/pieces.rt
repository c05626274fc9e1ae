//! The runs and the ranges of pieces.

ghost use Rattle.std.specs.Prelude.{◌≡◌, ◌≤◌, ℤ, List, IsTrue, neg_ℤ, pos};
ghost use Rattle.std.specs.Int.{int_max, int_min};
ghost use Rattle.spot_terms.specs.Frames.{at, number};
ghost use Rattle.spot_terms.specs.Pieces.{Piece, octagon, cut_octagon, InPiece, y_range};
ghost use Rattle.spot_terms.specs.RowBoxes.{slots_shared};
ghost use Rattle.spot_terms.specs.Whole.{SizeAtMost, Within};
ghost use Rattle.spot_terms.specs.declared.plain.Pt.{Pt as Point};
ghost use Rattle.convex_poly.specs.Boxes.{IsBoxOf};
ghost use Rattle.convex_poly.specs.Runs.{IsRun};
ghost use Rattle.base_sets.specs.Values.{IsBox};
ghost use Rattle.carve.specs.Ranges.{IsRange};
ghost use Rattle.participants.specs.Pieces.{IsBeside, IsOutlined};
ghost use Rattle.participants.specs.Predictions.{IsSmall};

use base_sets::OuterBox;
use carve::{common_span, rows_shared};
use convex_poly::{BoundingBox, OctNumbers, Poly};

/// The least and the greatest whole x with (x, `y0`) and (x, `y1`) both in the octagon and in the polygon.
pub fn cut_run(o: &OctNumbers, p: &Poly, y0: i64, y1: i64) -> Option<(i64, i64)>
    requires y0 { SizeAtMost 40_000_000_000_000 y0 }
    requires y1 { SizeAtMost 40_000_000_000_000 y1 }
    requires small { IsSmall o.now }
    ensures { IsRun (λ x. InPiece (cut_octagon o.now.n p.now) (at x y0) × InPiece (cut_octagon o.now.n p.now) (at x y1)) result }
{
    let of_octagon = o.run(y0, y1)?;
    let of_polygon = p.run(y0, y1)?;
    common_span(of_octagon, of_polygon)
}

// The numbers from `low` to `high`; none where there is none.
fn unless_empty(low: i64, high: i64) -> Option<(i64, i64)>
    ensures { IsRange (low, high) result }
{
    if low <= high { Some((low, high)) } else { None }
}

// The range of the y of an octagon.
fn octagon_span(o: &OctNumbers) -> Option<(i64, i64)>
    requires small { IsSmall o.now }
    ensures { IsRange (y_range (octagon o.now.n)) result }
{
    unless_empty(-o.n[6], o.n[2])
}

// The range of the y of an octagon that is cut with a polygon whose box this is.
fn cut_span(o: &OctNumbers, bounds: &BoundingBox) -> Option<(i64, i64)>
    requires small { IsSmall o.now }
    ensures { IsRange (int_max (neg_ℤ (number o.now.n 6)) bounds.now.low.y, int_min (number o.now.n 2) bounds.now.high.y) result }
{
    unless_empty((-o.n[6]).max(bounds.low.y), o.n[2].min(bounds.high.y))
}

/// The range of the y of a piece, by its octagon and the box round the polygon that it is cut with.
pub fn span_of(o: &OctNumbers, bounds: &Option<BoundingBox>) -> Option<(i64, i64)>
    requires small { IsSmall o.now }
    ensures range { (range : ℤ × ℤ) × IsRange range result }
    ensures piece { (piece : Piece) → IsOutlined piece o.now bounds.now → IsRange (y_range piece) result }
{
    match bounds {
        Some(bounds) => cut_span(o, bounds),
        None => octagon_span(o),
    }
}

// Whether an octagon is left of `left` or right of `right`.
fn octagon_beside(o: &OctNumbers, left: i64, right: i64) -> bool
    requires small { IsSmall o.now }
    ensures { IsTrue result → IsBeside (octagon o.now.n) left right }
{
    if o.n[0] < left {
        return true;
    }
    right < -o.n[4]
}

// Whether a polygon in this box is left of `left` or right of `right`, and so an octagon that is cut with it.
fn cut_beside(bounds: &BoundingBox, left: i64, right: i64) -> bool
    ensures { IsTrue result → (numbers : List ℤ) (corners : List Point) → IsBoxOf corners bounds.now → IsBeside (cut_octagon numbers corners) left right }
{
    if bounds.high.x < left {
        return true;
    }
    right < bounds.low.x
}

/// Whether the octagon of a piece, or the box round the polygon that it is cut with, is left of `left` or right of `right`.
pub fn is_piece_beside(o: &OctNumbers, bounds: &Option<BoundingBox>, left: i64, right: i64) -> bool
    requires small { IsSmall o.now }
    ensures { IsTrue result → (piece : Piece) → IsOutlined piece o.now bounds.now → IsBeside piece left right }
{
    if let Some(bounds) = bounds {
        if cut_beside(bounds, left, right) {
            return true;
        }
    }
    octagon_beside(o, left, right)
}

/// How many rows of the box, of height `g`, meet the range of the y of a piece.
pub fn rows_met(span: Option<(i64, i64)>, b: &OuterBox, g: i64) -> u64
    requires range { (range : ℤ × ℤ) × IsRange range span }
    requires reach { IsBox b.now }
    requires height { Within (pos 100_000) (pos 100_000_000) g }
    ensures value { (range : ℤ × ℤ) → IsRange range span → result ≡ slots_shared g range (b.now.ylo, b.now.yhi) }
    ensures few { result ≤ 1_000_000_000 }
{
    match span {
        Some((low, high)) => rows_shared(low, high, b, g),
        None => 0,
    }
}
