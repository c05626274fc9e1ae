//! The sets of step 0.

ghost use Rattle.std.specs.Prelude.{◌≡◌, ◌↔◌, ◌<◌, ◌≤◌, ◌≤ℤ◌, [], IfOk, IsTrue};
ghost use Rattle.spot_terms.specs.Frames.{at};
ghost use Rattle.spot_terms.specs.Grid.{slot, slot_high, slot_low};
ghost use Rattle.spot_terms.specs.StepLists.{IsFirstList, IsStartRemoved};
ghost use Rattle.spot_terms.specs.StepLists as lists;
ghost use Rattle.spot_terms.specs.Whole.{SizeAtMost, Within};
ghost use Rattle.base_sets.specs.Values.{value_of};
ghost use Rattle.area_run.specs.Plans.{IsPlan, course_of};

use crate::plan::Plan;
use base_sets::BaseSet;
use carve::{Occupied, SetList, row_ends};
use convex_poly::{Poly, segment};
use spot_terms::Pt;
use std::alloc::{AllocError, Global};

/// Room for so many sets, with those of step 0: the set of the start, or none where the start is removed in its row.
pub(crate) fn first_sets<O: Occupied>(
    alloc: Global,
    o: &O,
    plan: &Plan,
    room: u64,
) -> Result<SetList, AllocError>
    requires plan { IsPlan plan.now }
    requires far { 35_000_000_000_000 ≤ O.far o.now }
    requires room { 0 < room }
    ensures room { IfOk result (λ l. l.room ≡ room) }
    ensures first { IfOk result (λ l. IsFirstList (course_of plan.now) (O.count o.now) (O.hits o.now) l.sets) }
{
    let mut sets = SetList::open(alloc, room)?;
    if !is_start_removed(plan, o) {
        sets.push(start_set(plan));
    }
    Ok(sets)
}

/// Whether one of the pieces of step 0 holds, at the start's x, both ends of the start's row.
fn is_start_removed<O: Occupied>(plan: &Plan, o: &O) -> bool
    requires plan { IsPlan plan.now }
    requires far { 35_000_000_000_000 ≤ O.far o.now }
    ensures { IsTrue result ↔ IsStartRemoved (course_of plan.now) (O.count o.now) (O.hits o.now) }
{
    let (low, high) = start_row(plan);
    for piece in 0..o.pieces(0) {
        if is_across(o, piece, low, high, plan.s.p.x) {
            return true;
        }
    }
    false
}

/// The least and the greatest y of the start's row.
fn start_row(plan: &Plan) -> (i64, i64)
    requires plan { IsPlan plan.now }
    ensures low { result.0 ≡ slot_low plan.now.grid.g (slot plan.now.grid.g plan.now.s.p.y) }
    ensures high { result.1 ≡ slot_high plan.now.grid.g (slot plan.now.grid.g plan.now.s.p.y) }
    ensures ordered { result.0 ≤ℤ result.1 }
    ensures low_near { SizeAtMost 22_000_000_000_000 result.0 }
    ensures high_near { SizeAtMost 22_000_000_000_000 result.1 }
{
    row_ends(plan.grid.row(plan.s.p.y), plan.grid.g)
}

/// Whether the piece of step 0 holds both (`x`, `low`) and (`x`, `high`).
fn is_across<O: Occupied>(o: &O, piece: u32, low: i64, high: i64, x: i64) -> bool
    requires piece { piece < O.count o.now 0 }
    requires ordered { low ≤ℤ high }
    requires low_far { SizeAtMost (O.far o.now) low }
    requires high_far { SizeAtMost (O.far o.now) high }
    ensures { IsTrue result ↔ (O.hits o.now 0 piece (at x low) × O.hits o.now 0 piece (at x high)) }
{
    match o.run(0, piece, low, high) {
        Some(span) => is_within(x, &span),
        None => false,
    }
}

/// Whether a place is between the ends of a span, or one of them.
fn is_within(x: i64, span: &(i64, i64)) -> bool
    ensures { IsTrue result ↔ Within span.now.0 span.now.1 x }
{
    span.0 <= x && x <= span.1
}

/// The set of the start.
fn start_set(plan: &Plan) -> BaseSet
    requires plan { IsPlan plan.now }
    ensures { value_of result ≡ lists.first_set (course_of plan.now) }
{
    BaseSet {
        col: plan.grid.col(plan.s.p.x),
        row: plan.grid.row(plan.s.p.y),
        x: speeds_at(plan.s.p.x, plan.s.b.xlo, plan.s.b.xhi),
        y: speeds_at(plan.s.p.y, plan.s.b.ylo, plan.s.b.yhi),
    }
}

/// The segment of a place and the speeds from `lo` to `hi`.
fn speeds_at(place: i64, lo: i64, hi: i64) -> Poly
    requires place { SizeAtMost 20_000_000_000_000 place }
    requires low { SizeAtMost 900_000 lo }
    requires high { SizeAtMost 900_000 hi }
    requires ordered { lo ≤ℤ hi }
    ensures { result ≡ lists.segment place lo hi }
{
    segment(Pt { x: place, y: lo }, Pt { x: place, y: hi })
}
