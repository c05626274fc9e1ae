//! The free runs of a row of the grid, over pieces.

ghost use Rattle.std.specs.Prelude.{◌≡◌, ◌+◌, ◌<◌, ◌≤◌, ◌≤ℤ◌, pos, [], ◌∷◌, ◌++◌, length, sum_by, vec_capacity, IfOk, IfSome};
ghost use Rattle.convex_poly.specs.Runs.{IsRun};
ghost use Rattle.spot_terms.specs.Frames.{at};
ghost use Rattle.spot_terms.specs.Lists.{numbers_below};
ghost use Rattle.spot_terms.specs.Courses.{slots_met};
ghost use Rattle.spot_terms.specs.Grid.{slot, slot_low, slot_high, AreFreeRuns, CoverTheRest, IsRemoved};
ghost use Rattle.spot_terms.specs.RowBoxes.{slots_shared, runs_bound};
ghost use Rattle.spot_terms.specs.Whole.{SizeAtMost, Within};
ghost use Rattle.base_sets.specs.Values.{IsBox, IsGrid, rect_of_box};
ghost use Rattle.carve.specs.Ranges.{IsRowNear};
ghost use Rattle.carve.specs.Taking.{AreSpans, IsTaken, TakesBetween};

use crate::occupied::Occupied;
use crate::runs::{Span, put_free};
use base_sets::{Grid, OuterBox};
use std::alloc::{AllocError, Global};
use std::marker::Model;

/// The free runs of a row, in order, and room to find them.
#[derive(Drop)]
pub struct Runs {
    pub(crate) spans: Vec<Span>,
    pub(crate) free: Vec<(i64, i64)>,
    room: u64,
}

impl Model for Runs {
    ghost use Rattle.std.specs.Prelude.{◌≤◌, vec_capacity};
    ghost use Rattle.carve.specs.Rooms.{RunRoom};

    ghost Value = { RunRoom };

    ghost view = { λ r. record { room = r.room; runs = r.free.items } };

    ghost invariant = { λ r. (r.room ≤ vec_capacity r.spans) × (r.room ≤ vec_capacity r.free) };
}

impl Runs {
    /// Room for so many runs, of which there are none yet.
    pub fn open(alloc: Global, room: u64) -> Result<Runs, AllocError>
        ensures { IfOk result (λ r. r ≡ record { room = room; runs = [] }) }
    {
        Ok(Runs {
            spans: Vec::with_capacity(alloc, room as usize)?,
            free: Vec::with_capacity(alloc, room as usize)?,
            room,
        })
    }

    /// The runs, in order: of each the least and the greatest x, in µm.
    pub fn list(&self) -> &[(i64, i64)]
        ensures { result.now ≡ self.now.runs }
    {
        &self.free
    }
}

/// Lists the free runs of all columns of the box in a row, from left to right, in place of what is there.
///
/// There is room for a run of each column and one more for each piece of the step; the room stays. The runs are at most the
/// columns of the box and the pieces whose range of y meets the row. Each x of the columns is removed or lies in a run.
pub fn row_runs<O: Occupied>(o: &O, step: u32, row: i64, b: &OuterBox, grid: &Grid, runs: &mut Runs)
    requires step { step ≤ O.last o.now }
    requires reach { IsBox b.now }
    requires grid { IsGrid grid.now }
    requires row { IsRowNear (O.far o.now) grid.now.g row }
    requires room { slots_met grid.now.w b.now.xlo b.now.xhi + O.count o.now step ≤ runs.old.room }
    ensures exact { AreFreeRuns (IsRemoved (O.count o.now step) (O.hits o.now step) grid.now.g row) grid.now.w
        (slot grid.now.w b.now.xlo) (slot grid.now.w b.now.xhi) runs.new.runs }
    ensures covers { CoverTheRest (IsRemoved (O.count o.now step) (O.hits o.now step) grid.now.g row) grid.now.w
        (slot grid.now.w b.now.xlo) (slot grid.now.w b.now.xhi) runs.new.runs }
    ensures few { length runs.new.runs ≤ runs_bound grid.now.w grid.now.g (rect_of_box b.now) (O.count o.now step) (O.range o.now step) row }
    ensures room { runs.new.room ≡ runs.old.room }
{
    let (low, high) = row_ends(row, grid.g);
    gather(o, step, low, high, grid.g, &mut runs.spans);
    find_free(&mut runs.free, &runs.spans, b, grid);
}

// Lists the runs of all columns of the box that the spans leave free, in order, in place of what is there.
pub(crate) fn find_free(free: &mut Vec<(i64, i64)>, spans: &[Span], b: &OuterBox, grid: &Grid)
    requires spans { AreSpans spans.now }
    requires reach { IsBox b.now }
    requires grid { IsGrid grid.now }
    requires room { slots_met grid.now.w b.now.xlo b.now.xhi + length spans.now ≤ vec_capacity free.old }
    ensures exact { AreFreeRuns (IsTaken spans.now) grid.now.w (slot grid.now.w b.now.xlo) (slot grid.now.w b.now.xhi) free.new.items }
    ensures covers { CoverTheRest (IsTaken spans.now) grid.now.w (slot grid.now.w b.now.xlo) (slot grid.now.w b.now.xhi) free.new.items }
    ensures few { length free.new.items ≤ slots_met grid.now.w b.now.xlo b.now.xhi + length spans.now }
    ensures capacity { vec_capacity free.old ≤ vec_capacity free.new }
{
    free.clear();
    put_free(free, spans, grid.col(b.xlo), grid.col(b.xhi), grid.w);
}

// Lists what the pieces take away from the places between `low` and `high`, in order.
fn gather<O: Occupied>(o: &O, step: u32, low: i64, high: i64, g: i64, spans: &mut Vec<Span>)
    requires step { step ≤ O.last o.now }
    requires height { Within (pos 100_000) (pos 100_000_000) g }
    requires ordered { low ≤ℤ high }
    requires low_far { SizeAtMost (O.far o.now) low }
    requires high_far { SizeAtMost (O.far o.now) high }
    requires room { O.count o.now step ≤ vec_capacity spans.old }
    ensures exact { TakesBetween (O.count o.now step) (O.hits o.now step) low high spans.new.items }
    ensures spans { AreSpans spans.new.items }
    ensures few { length spans.new.items ≤ O.count o.now step }
    ensures met { length spans.new.items ≤ sum_by (λ p. slots_shared g (O.range o.now step p) (low, high)) (numbers_below (O.count o.now step)) }
    ensures capacity { vec_capacity spans.old ≤ vec_capacity spans.new }
{
    spans.clear();
    for piece in 0..o.pieces(step) {
        if let Some((first, last)) = run_across(o, step, piece, low, high) {
            push_span(spans, Span { first, last });
        }
    }
    spans.sort_unstable();
}

// The x at which both ends lie in the piece. A piece whose range doesn't reach both isn't asked.
pub(crate) fn run_across<O: Occupied>(
    o: &O,
    step: u32,
    piece: u32,
    low: i64,
    high: i64,
) -> Option<(i64, i64)>
    requires step { step ≤ O.last o.now }
    requires piece { piece < O.count o.now step }
    requires ordered { low ≤ℤ high }
    requires low_far { SizeAtMost (O.far o.now) low }
    requires high_far { SizeAtMost (O.far o.now) high }
    ensures run { IsRun (λ x. O.hits o.now step piece (at x low) × O.hits o.now step piece (at x high)) result }
    ensures met { IfSome result (λ _. ((O.range o.now step piece).0 ≤ℤ low) × (high ≤ℤ (O.range o.now step piece).1)) }
{
    match o.span(step, piece) {
        Some(range) => run_within(o, step, piece, range, low, high),
        None => None,
    }
}

// The same of a piece whose range is known.
pub(crate) fn run_within<O: Occupied>(
    o: &O,
    step: u32,
    piece: u32,
    range: (i64, i64),
    low: i64,
    high: i64,
) -> Option<(i64, i64)>
    requires step { step ≤ O.last o.now }
    requires piece { piece < O.count o.now step }
    requires range { range ≡ O.range o.now step piece }
    requires ordered { low ≤ℤ high }
    requires low_far { SizeAtMost (O.far o.now) low }
    requires high_far { SizeAtMost (O.far o.now) high }
    ensures run { IsRun (λ x. O.hits o.now step piece (at x low) × O.hits o.now step piece (at x high)) result }
    ensures met { IfSome result (λ _. ((O.range o.now step piece).0 ≤ℤ low) × (high ≤ℤ (O.range o.now step piece).1)) }
{
    if range.0 <= low && high <= range.1 {
        o.run(step, piece, low, high)
    } else {
        None
    }
}

// Adds a span, for which there is room.
pub(crate) fn push_span(spans: &mut Vec<Span>, span: Span)
    requires room { length spans.old.items < vec_capacity spans.old }
    ensures items { spans.new.items ≡ spans.old.items ++ span ∷ [] }
    ensures capacity { vec_capacity spans.old ≤ vec_capacity spans.new }
{
    if spans.push(span).is_err() {
        unreachable!();
    }
}

/// The least and the greatest y of a row of height `g`, in µm. The least is at most 4·10^13 in size.
pub fn row_ends(row: i64, g: i64) -> (i64, i64)
    requires low { SizeAtMost 40_000_000_000_000 (slot_low g row) }
    requires height { Within (pos 100_000) (pos 100_000_000) g }
    ensures low { result.0 ≡ slot_low g row }
    ensures high { result.1 ≡ slot_high g row }
{
    let low = row * g;
    (low, low + g - 1)
}
