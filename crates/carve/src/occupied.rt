//! What is occupied at a step: convex pieces.
ghost use Rattle.std.specs.Prelude.{◌≡◌, ℕ, ℤ, ◌<◌, ◌≤◌, ◌≤ℤ◌, pos, sum_by};
ghost use Rattle.spot_terms.specs.Frames.{at};
ghost use Rattle.spot_terms.specs.Lists.{numbers_below};
ghost use Rattle.spot_terms.specs.RowBoxes.{slots_shared};
ghost use Rattle.spot_terms.specs.Whole.{SizeAtMost, Within};
ghost use Rattle.spot_terms.specs.declared.plain.Pt.{Pt};
ghost use Rattle.convex_poly.specs.Runs.{IsRun};
ghost use Rattle.base_sets.specs.Values.{IsBox};
ghost use Rattle.carve.specs.Ranges.{AreBeside, IsRange};

use crate::boxes::rows_shared;
use base_sets::OuterBox;

/// What is occupied: at each step up to a last one some pieces, each of which holds whole points of the plane.
pub trait Occupied {
    /// How many pieces a step has.
    ghost count: { Self → ℕ → ℕ };

    /// The point lies in the piece of the step.
    ghost hits: { Self → ℕ → ℕ → Pt → Type 0 };

    /// The least and the greatest y of the piece; it has none where the first is above the second.
    ghost range: { Self → ℕ → ℕ → ℤ × ℤ };

    /// The greatest step that may be asked for.
    ghost last: { Self → ℕ };

    /// The greatest size of a y that may be asked for.
    ghost far: { Self → ℕ };

    /// How many pieces the step has.
    fn pieces(&self, step: u32) -> u32
        requires { step ≤ last self.now }
        ensures { result ≡ count self.now step };

    /// The y range of the piece, and `None` exactly where it is empty.
    fn span(&self, step: u32, piece: u32) -> Option<(i64, i64)>
        requires step { step ≤ last self.now }
        requires piece { piece < count self.now step }
        ensures { IsRange (range self.now step piece) result };

    /// For each piece the rows of height `g` of the box that meet its range of y, all together. What keeps the ranges of its
    /// pieces in a list may go over the list once, in place of asking for one after the other.
    fn rows(&self, step: u32, b: &OuterBox, g: i64) -> u64
        requires step { step ≤ last self.now }
        requires reach { IsBox b.now }
        requires height { Within (pos 100_000) (pos 100_000_000) g }
        ensures sum { result ≡ sum_by (λ p. slots_shared g (range self.now step p) (b.now.ylo, b.now.yhi)) (numbers_below (count self.now step)) }
        ensures few { result ≤ 4_294_967_295_000_000_000 }
    {
        let mut rows = 0;
        for piece in 0..self.pieces(step) {
            if let Some((low, high)) = self.span(step, piece) {
                rows += rows_shared(low, high, b, g);
            }
        }
        rows
    }

    /// The least and the greatest whole x with (x, `y0`) and (x, `y1`) both in the piece; all between are in it too.
    /// `None` exactly where there is none.
    fn run(&self, step: u32, piece: u32, y0: i64, y1: i64) -> Option<(i64, i64)>
        requires step { step ≤ last self.now }
        requires piece { piece < count self.now step }
        requires ordered { y0 ≤ℤ y1 }
        requires y0_near { SizeAtMost (far self.now) y0 }
        requires y1_near { SizeAtMost (far self.now) y1 }
        ensures { IsRun (λ x. hits self.now step piece (at x y0) × hits self.now step piece (at x y1)) result };

    /// The first piece of the step, from `from` on, that may have a point whose x is from `left` to `right`, or how many pieces
    /// there are. The pieces before it, from `from` on, have no such point.
    fn next(&self, step: u32, from: u32, left: i64, right: i64) -> u32
        requires step { step ≤ last self.now }
        requires from { from ≤ count self.now step }
        ensures from { from ≤ result }
        ensures within { result ≤ count self.now step }
        ensures beside { AreBeside (hits self.now step) left right from result };

    /// The whole points between two points of a piece of equal x lie in the piece.
    ghost upright: { (o : Self) (step piece : ℕ) (x y0 y y1 : ℤ) → y0 ≤ℤ y → y ≤ℤ y1 → hits o step piece (at x y0) → hits o step piece (at x y1) → hits o step piece (at x y) };

    /// The y of each point of a piece lies in its range.
    ghost in_range: { (o : Self) (step piece : ℕ) (p : Pt) → hits o step piece p → Within (range o step piece).0 (range o step piece).1 p.y };
}
