//! The children of the sets of a step.

ghost use Rattle.std.specs.Prelude.{◌≡◌, ℕ, ◌≤◌, ℤ, None, Some, length, map};
ghost use Rattle.spot_terms.specs.BaseSets.{SetValue};
ghost use Rattle.spot_terms.specs.Courses.{box_at};
ghost use Rattle.spot_terms.specs.Lists.{Includes};
ghost use Rattle.base_sets.specs.Values.{IsBox, rect_of_box, value_of};
ghost use Rattle.merge_sets.specs.Tables.{Holds};
ghost use Rattle.area_laws.specs.Filling.{IsFilledFrom};
ghost use Rattle.area_laws.specs.Reaching.{IsStepSet};
ghost use Rattle.area_run.specs.Plans.{IsPlan, course_of};
ghost use Rattle.area_run.specs.Strips.{row_count};

use crate::children::{Children, is_same};
use crate::group::fill_group;
use crate::plan::Plan;
use crate::strip::Strip;
use base_sets::{BaseSet, OuterBox};
use merge_sets::CellTable;

/// The children of the sets come into a table, in which nothing is yet since it was begun with this box: neighbours with one
/// polygon along x together, by the rows of the strip.
pub(crate) fn fill(
    plan: &Plan,
    b: &OuterBox,
    sets: &[BaseSet],
    table: &mut CellTable,
    children: &mut Children,
    strip: &mut Strip,
)
    requires plan { IsPlan plan.now }
    requires reach { IsBox b.now }
    requires sets { (set : SetValue) → Includes (map value_of sets.now) set → IsStepSet set }
    requires begun { table.old.step ≡ Some (b.now, plan.now.grid, plan.now.k) }
    requires empty { (col row : ℤ) → Holds table.old col row None }
    requires room { row_count plan.now b.now ≤ length strip.old.rows.items }
    ensures filled { (i : ℕ) → rect_of_box b.now ≡ box_at (course_of plan.now) i → IsFilledFrom (course_of plan.now) i (map value_of sets.now) table.new }
    ensures most { table.new.most ≡ table.old.most }
    ensures room { length strip.new.rows.items ≡ length strip.old.rows.items }
{
    children.start(plan, b);
    strip.start(plan, b);
    let mut from = 0;
    for i in 0..sets.len() {
        if !is_same(&sets[from].x, &sets[i].x) {
            fill_group(plan, b, &sets[from..i], table, children, strip);
            from = i;
        }
    }
    fill_group(plan, b, &sets[from..], table, children, strip);
}
