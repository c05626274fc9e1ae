//! What pieces take away among places of x.

ghost use Rattle.std.specs.Prelude.{◌≡◌, ◌≤◌, ◌<◌, ◌≤ℤ◌, IfSome};
ghost use Rattle.spot_terms.specs.Frames.{at};
ghost use Rattle.spot_terms.specs.Grid.{slot, slot_high, slot_low};
ghost use Rattle.spot_terms.specs.Whole.{SizeAtMost};
ghost use Rattle.convex_poly.specs.Runs.{IsRun};
ghost use Rattle.base_sets.specs.Values.{IsBox, IsGrid};
ghost use Rattle.carve.specs.Ranges.{HitsAmong, InBoth};

use crate::occupied::Occupied;
use crate::rows::run_within;
use crate::runs::Span;
use base_sets::{Grid, OuterBox};

/// What two spans have in common.
pub fn common_span(a: (i64, i64), b: (i64, i64)) -> Option<(i64, i64)>
    ensures { IsRun (InBoth a b) result }
{
    let first = a.0.max(b.0);
    let last = a.1.min(b.1);
    if first <= last {
        Some((first, last))
    } else {
        None
    }
}

/// The least and the greatest x of the columns of a box.
pub(crate) fn columns_of(b: &OuterBox, grid: &Grid) -> Span
    requires reach { IsBox b.now }
    requires grid { IsGrid grid.now }
    ensures low { result.first ≡ slot_low grid.now.w (slot grid.now.w b.now.xlo) }
    ensures high { result.last ≡ slot_high grid.now.w (slot grid.now.w b.now.xhi) }
{
    Span {
        first: grid.col(b.xlo) * grid.w,
        last: grid.col(b.xhi) * grid.w + grid.w - 1,
    }
}

/// The x of these columns at which both ends lie in the piece, whose range is known.
pub(crate) fn run_among<O: Occupied>(
    o: &O,
    step: u32,
    piece: u32,
    columns: &Span,
    range: (i64, i64),
    low: i64,
    high: i64,
) -> Option<(i64, i64)>
    requires step { step ≤ O.last o.now }
    requires piece { piece < O.count o.now step }
    requires range { range ≡ O.range o.now step piece }
    requires ordered { low ≤ℤ high }
    requires low_far { SizeAtMost (O.far o.now) low }
    requires high_far { SizeAtMost (O.far o.now) high }
    ensures run { IsRun (λ x. HitsAmong columns.now.first columns.now.last (O.hits o.now step) piece (at x low) × HitsAmong columns.now.first columns.now.last (O.hits o.now step) piece (at x high)) result }
    ensures met { IfSome result (λ _. ((O.range o.now step piece).0 ≤ℤ low) × (high ≤ℤ (O.range o.now step piece).1)) }
{
    let run = run_within(o, step, piece, range, low, high)?;
    common_span(run, (columns.first, columns.last))
}
