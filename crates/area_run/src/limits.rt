//! The limits of a run.

ghost use Rattle.std.specs.Prelude.{◌≡◌, ◌+◌, ◌≤◌, IfErr, IfOk, IfSome, None};
ghost use Rattle.spot_terms.specs.RowBoxes.{HasTooManyBoxes, IsAreaTooWide, IsNarrow, IsWithinArea};
ghost use Rattle.area_run.specs.Greatest.{IsRoomBelow};
ghost use Rattle.area_run.specs.Passed.{HasFewBoxes, IsPassed};
ghost use Rattle.area_run.specs.Plans.{IsPlan, course_of};

use crate::fault::AreaFault;
use crate::plan::Plan;
use crate::rooms::Rooms;
use carve::{Occupied, row_boxes};
use spot_terms::{MOST_GRID_CELLS, MOST_ROW_BOXES, MOST_STEP_CELLS, MOST_STEPS};

/// The least step up to `steps` that is too wide, and how many cells there are: its own where these are too many, and else
/// those up to it.
fn too_wide(plan: &Plan, steps: u32) -> Option<(u32, u64)>
    requires plan { IsPlan plan.now }
    requires steps { steps ≤ MOST_STEPS }
    ensures some { IfSome result (λ r. IsAreaTooWide (course_of plan.now) steps r.0 r.1) }
    ensures none { result ≡ None → IsNarrow (course_of plan.now) steps }
{
    let mut total = 0;
    for step in 0..steps + 1 {
        let here = plan.outer_box(step).cells(&plan.grid);
        if here > MOST_STEP_CELLS {
            return Some((step, here));
        }
        total += here;
        if total > MOST_GRID_CELLS {
            return Some((step, total));
        }
    }
    None
}

/// The least step up to `steps` that has too many row boxes, and how many.
fn too_many_boxes<O: Occupied>(plan: &Plan, o: &O, steps: u32) -> Option<(u32, u64)>
    requires plan { IsPlan plan.now }
    requires steps { steps ≤ MOST_STEPS }
    requires last { steps ≤ O.last o.now }
    ensures some { IfSome result (λ r. HasTooManyBoxes (course_of plan.now) (O.count o.now) (O.range o.now) steps r.0 r.1) }
    ensures none { result ≡ None → HasFewBoxes (course_of plan.now) (O.count o.now) (O.range o.now) steps }
{
    for step in 0..steps + 1 {
        let boxes = row_boxes(o, step, &plan.outer_box(step), &plan.grid);
        if boxes > MOST_ROW_BOXES {
            return Some((step, boxes));
        }
    }
    None
}

/// The room that the steps up to `steps` need, where they pass no limit: that of the least step that is too wide, and only
/// where there is none that of the least step with too many row boxes. The fault is never want of memory.
///
/// Row boxes are counted once for each step. Only where a step has too many are they counted again, to find the least.
pub(crate) fn room_within<O: Occupied>(plan: &Plan, o: &O, steps: u32) -> Result<Rooms, AreaFault>
    requires plan { IsPlan plan.now }
    requires steps { steps ≤ MOST_STEPS }
    requires last { steps ≤ O.last o.now }
    ensures room { IfOk result (IsRoomBelow (course_of plan.now) (O.count o.now) (O.range o.now) (steps + 1)) }
    ensures within { IfOk result (λ _. IsWithinArea (course_of plan.now) (O.count o.now) (O.range o.now) steps) }
    ensures err { IfErr result (IsPassed (course_of plan.now) (O.count o.now) (O.range o.now) steps) }
{
    if let Some((step, cells)) = too_wide(plan, steps) {
        return Err(AreaFault::AreaTooWide(step, cells));
    }
    let rooms = Rooms::up_to(plan, o, steps);
    if rooms.boxes <= MOST_ROW_BOXES {
        return Ok(rooms);
    }
    match too_many_boxes(plan, o, steps) {
        Some((step, boxes)) => Err(AreaFault::TooManyBoxes(step, boxes)),
        None => Ok(rooms),
    }
}

/// The limit that a run of so many steps, at most 100, passes, if it passes one: that of the least step that is too wide,
/// and only where there is none that of the least step with too many row boxes. It is never want of memory.
pub fn limit_passed<O: Occupied>(plan: &Plan, o: &O, steps: u32) -> Option<AreaFault>
    requires plan { IsPlan plan.now }
    requires steps { steps ≤ MOST_STEPS }
    requires last { steps ≤ O.last o.now }
    ensures some { IfSome result (IsPassed (course_of plan.now) (O.count o.now) (O.range o.now) steps) }
    ensures none { result ≡ None → IsWithinArea (course_of plan.now) (O.count o.now) (O.range o.now) steps }
{
    match room_within(plan, o, steps) {
        Ok(_) => None,
        Err(fault) => Some(fault),
    }
}
