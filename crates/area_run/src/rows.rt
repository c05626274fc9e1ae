//! The free runs of the rows of a step's box.

ghost use Rattle.std.specs.Prelude.{◌≡◌, ◌+◌, ◌<◌, ◌≤◌, ◌++◌, ◌∷◌, [], ◌+ℤ◌, pos, length, take, vec_capacity, IfOk};
ghost use Rattle.spot_terms.specs.Courses.{box_at, slots_met as slots_met_of};
ghost use Rattle.spot_terms.specs.Grid.{slot};
ghost use Rattle.spot_terms.specs.RowBoxes.{row_boxes_in};
ghost use Rattle.base_sets.specs.Values.{AreBoxPlaces, IsBox, rect_of_box};
ghost use Rattle.area_run.specs.Plans.{IsPlan, course_of};
ghost use Rattle.area_run.specs.Rows.{AreAllRowsIn, AreRunsOf};
ghost use Rattle.area_run.specs.Stages.{IsStage};

use crate::plan::Plan;
use crate::rooms::Rooms;
use base_sets::{OuterBox, slots_met};
use carve::{Occupied, RowSpans, Runs};
use spot_terms::MOST_STEPS;
use std::alloc::{AllocError, Global};

/// A step: its number, its box, and the free runs of each row of the box over the pieces of the step.
#[derive(Drop)]
pub(crate) struct StepRuns<'o, O: Occupied> {
    pub(crate) o: &'o O,
    pub(crate) plan: Plan,
    pub(crate) step: u32,
    pub(crate) b: OuterBox,
    pub(crate) taken: RowSpans,
    pub(crate) runs: Runs,
    pub(crate) free: Vec<(i64, i64)>,
    pub(crate) ends: Vec<(usize, usize)>,
}

impl<'o, O: Occupied> StepRuns<'o, O> {
    /// Stands at step 0, with this room.
    pub(crate) fn open(
        alloc: Global,
        o: &'o O,
        plan: &Plan,
        rooms: &Rooms,
    ) -> Result<StepRuns<'o, O>, AllocError>
        requires plan { IsPlan plan.now }
        ensures pieces { IfOk result (λ r. r.o.now ≡ o.now) }
        ensures plan { IfOk result (λ r. r.plan ≡ plan.now) }
        ensures step { IfOk result (λ r. r.step ≡ 0) }
        ensures exact { IfOk result (λ r. rect_of_box r.b ≡ box_at (course_of plan.now) 0) }
        ensures reach { IfOk result (λ r. IsBox r.b) }
        ensures near { IfOk result (λ r. AreBoxPlaces 21_000_000_000_000 r.b) }
        ensures taken { IfOk result (λ r. r.taken.room ≡ rooms.now.boxes) }
        ensures heads { IfOk result (λ r. r.taken.rows ≡ rooms.now.rows) }
        ensures room { IfOk result (λ r. r.runs.room ≡ rooms.now.runs) }
        ensures capacity { IfOk result (λ r. rooms.now.boxes ≤ vec_capacity r.free) }
        ensures rows { IfOk result (λ r. rooms.now.rows ≤ vec_capacity r.ends) }
    {
        Ok(StepRuns {
            o,
            plan: *plan,
            step: 0,
            b: plan.outer_box(0),
            taken: RowSpans::open(alloc, rooms.rows, rooms.boxes)?,
            runs: Runs::open(alloc, rooms.runs)?,
            free: Vec::with_capacity(alloc, rooms.boxes as usize)?,
            ends: Vec::with_capacity(alloc, rooms.rows as usize)?,
        })
    }

    /// Goes to a step, and finds its free runs.
    pub(crate) fn go_to(&mut self, step: u32)
        requires plan { IsPlan self.old.plan }
        requires steps { step ≤ MOST_STEPS }
        requires last { step ≤ O.last self.old.o.now }
        requires far { 35_000_000_000_000 ≤ O.far self.old.o.now }
        requires room { slots_met_of self.old.plan.grid.w (box_at (course_of self.old.plan) step).xlo (box_at (course_of self.old.plan) step).xhi + O.count self.old.o.now step ≤ self.old.runs.room }
        requires taken { row_boxes_in self.old.plan.grid.w self.old.plan.grid.g (box_at (course_of self.old.plan) step) (O.count self.old.o.now step) (O.range self.old.o.now step) ≤ self.old.taken.room }
        requires heads { slots_met_of self.old.plan.grid.g (box_at (course_of self.old.plan) step).ylo (box_at (course_of self.old.plan) step).yhi ≤ self.old.taken.rows }
        requires boxes { row_boxes_in self.old.plan.grid.w self.old.plan.grid.g (box_at (course_of self.old.plan) step) (O.count self.old.o.now step) (O.range self.old.o.now step) ≤ vec_capacity self.old.free }
        requires rows { slots_met_of self.old.plan.grid.g (box_at (course_of self.old.plan) step).ylo (box_at (course_of self.old.plan) step).yhi ≤ vec_capacity self.old.ends }
        ensures pieces { self.new.o.now ≡ self.old.o.now }
        ensures plan { self.new.plan ≡ self.old.plan }
        ensures step { self.new.step ≡ step }
        ensures stage { IsStage self.old.plan step (O.count self.old.o.now step) (O.hits self.old.o.now step) (O.range self.old.o.now step) self.new.b self.new.free.items self.new.ends.items }
        ensures taken { self.new.taken.room ≡ self.old.taken.room }
        ensures heads { self.new.taken.rows ≡ self.old.taken.rows }
        ensures room { self.new.runs.room ≡ self.old.runs.room }
        ensures capacity { vec_capacity self.old.free ≤ vec_capacity self.new.free }
        ensures rows { vec_capacity self.old.ends ≤ vec_capacity self.new.ends }
    {
        self.step = step;
        self.b = self.plan.outer_box(step);
        list_rows(
            self.o,
            step,
            &self.plan,
            &self.b,
            &mut self.taken,
            &mut self.runs,
            &mut self.free,
            &mut self.ends,
        );
    }

    /// The free runs of row `j` of the box.
    pub(crate) fn row(&self, j: usize) -> &[(i64, i64)]
        requires stage { IsStage self.now.plan self.now.step (O.count self.now.o.now self.now.step) (O.hits self.now.o.now self.now.step) (O.range self.now.o.now self.now.step) self.now.b self.now.free.items self.now.ends.items }
        requires row { j < length self.now.ends.items }
        ensures { AreRunsOf (course_of self.now.plan) self.now.step (O.count self.now.o.now self.now.step) (O.hits self.now.o.now self.now.step) (O.range self.now.o.now self.now.step) (slot self.now.plan.grid.g self.now.b.ylo +ℤ pos j) result.now }
    {
        let (from, to) = self.ends[j];
        &self.free[from..to]
    }
}

/// Lists the free runs of the rows of a box, one row behind the other, in place of what is there.
fn list_rows<O: Occupied>(
    o: &O,
    step: u32,
    plan: &Plan,
    b: &OuterBox,
    taken: &mut RowSpans,
    runs: &mut Runs,
    free: &mut Vec<(i64, i64)>,
    ends: &mut Vec<(usize, usize)>,
)
    requires plan { IsPlan plan.now }
    requires last { step ≤ O.last o.now }
    requires far { 35_000_000_000_000 ≤ O.far o.now }
    requires exact { rect_of_box b.now ≡ box_at (course_of plan.now) step }
    requires reach { IsBox b.now }
    requires near { AreBoxPlaces 21_000_000_000_000 b.now }
    requires room { slots_met_of plan.now.grid.w b.now.xlo b.now.xhi + O.count o.now step ≤ runs.old.room }
    requires taken { row_boxes_in plan.now.grid.w plan.now.grid.g (rect_of_box b.now) (O.count o.now step) (O.range o.now step) ≤ taken.old.room }
    requires heads { slots_met_of plan.now.grid.g b.now.ylo b.now.yhi ≤ taken.old.rows }
    requires boxes { row_boxes_in plan.now.grid.w plan.now.grid.g (rect_of_box b.now) (O.count o.now step) (O.range o.now step) ≤ vec_capacity free.old }
    requires rows { slots_met_of plan.now.grid.g b.now.ylo b.now.yhi ≤ vec_capacity ends.old }
    ensures listed { AreAllRowsIn (course_of plan.now) step (O.count o.now step) (O.hits o.now step) (O.range o.now step) free.new.items ends.new.items }
    ensures taken { taken.new.room ≡ taken.old.room }
    ensures heads { taken.new.rows ≡ taken.old.rows }
    ensures room { runs.new.room ≡ runs.old.room }
    ensures capacity { vec_capacity free.old ≤ vec_capacity free.new }
    ensures rows { vec_capacity ends.old ≤ vec_capacity ends.new }
{
    free.clear();
    ends.clear();
    taken.gather(o, step, b, &plan.grid);
    for j in 0..slots_met(plan.grid.g, b.ylo, b.yhi) {
        taken.row_runs(j as usize, b, &plan.grid, runs);
        push_row(free, ends, runs.list());
    }
}

/// Adds a row with these runs, for which there is room.
fn push_row(free: &mut Vec<(i64, i64)>, ends: &mut Vec<(usize, usize)>, runs: &[(i64, i64)])
    requires room { length free.old.items + length runs.now ≤ vec_capacity free.old }
    requires row { length ends.old.items < vec_capacity ends.old }
    ensures free { free.new.items ≡ free.old.items ++ runs.now }
    ensures ends { ends.new.items ≡ ends.old.items ++ (length free.old.items, length free.old.items + length runs.now) ∷ [] }
    ensures capacity { vec_capacity free.old ≤ vec_capacity free.new }
    ensures rows { vec_capacity ends.old ≤ vec_capacity ends.new }
{
    let from = free.len();
    for run in runs {
        if free.push(*run).is_err() {
            unreachable!();
        }
    }
    if ends.push((from, free.len())).is_err() {
        unreachable!();
    }
}
