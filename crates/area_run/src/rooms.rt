//! How much room a run needs.

ghost use Rattle.std.specs.Prelude.{◌≡◌, ◌+◌, ◌≤◌, max};
ghost use Rattle.area_run.specs.Greatest.{IsRoomBelow, IsRoomOf};
ghost use Rattle.area_run.specs.Plans.{IsPlan, course_of};

use crate::plan::Plan;
use base_sets::slots_met;
use carve::{Occupied, row_boxes};
use spot_terms::MOST_STEPS;

/// Room for so many cells, runs of a row, rows, and row boxes.
#[derive(Clone, Copy)]
pub(crate) struct Rooms {
    pub(crate) cells: u64,
    pub(crate) runs: u64,
    pub(crate) rows: u64,
    pub(crate) boxes: u64,
}

impl Rooms {
    /// The room that a step needs.
    fn of_step<O: Occupied>(plan: &Plan, o: &O, step: u32) -> Rooms
        requires plan { IsPlan plan.now }
        requires step { step ≤ MOST_STEPS }
        requires last { step ≤ O.last o.now }
        ensures { IsRoomOf (course_of plan.now) (O.count o.now) (O.range o.now) step result }
    {
        let b = plan.outer_box(step);
        Rooms {
            cells: b.cells(&plan.grid),
            runs: slots_met(plan.grid.w, b.xlo, b.xhi) + u64::from(o.pieces(step)),
            rows: slots_met(plan.grid.g, b.ylo, b.yhi),
            boxes: row_boxes(o, step, &b, &plan.grid),
        }
    }

    /// The greater one of each.
    fn max(&self, other: &Rooms) -> Rooms
        ensures cells { result.cells ≡ max self.now.cells other.now.cells }
        ensures runs { result.runs ≡ max self.now.runs other.now.runs }
        ensures rows { result.rows ≡ max self.now.rows other.now.rows }
        ensures boxes { result.boxes ≡ max self.now.boxes other.now.boxes }
    {
        Rooms {
            cells: self.cells.max(other.cells),
            runs: self.runs.max(other.runs),
            rows: self.rows.max(other.rows),
            boxes: self.boxes.max(other.boxes),
        }
    }

    /// The room that the steps up to `steps` need: of each kind the greatest of all steps.
    pub(crate) fn up_to<O: Occupied>(plan: &Plan, o: &O, steps: u32) -> Rooms
        requires plan { IsPlan plan.now }
        requires steps { steps ≤ MOST_STEPS }
        requires last { steps ≤ O.last o.now }
        ensures { IsRoomBelow (course_of plan.now) (O.count o.now) (O.range o.now) (steps + 1) result }
    {
        let mut rooms = Rooms::of_step(plan, o, 0);
        for step in 1..steps + 1 {
            rooms = rooms.max(&Rooms::of_step(plan, o, step));
        }
        rooms
    }
}
