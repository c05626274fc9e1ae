//! The children of neighbouring sets with one polygon along x.

ghost use Rattle.std.specs.Prelude.{◌≡◌, List, Some, map, length};
ghost use Rattle.spot_terms.specs.BaseSets.{SetValue, least_place, greatest_place};
ghost use Rattle.spot_terms.specs.Courses.{slots_met};
ghost use Rattle.spot_terms.specs.Grid.{slot};
ghost use Rattle.spot_terms.specs.Lists.{Includes};
ghost use Rattle.spot_terms.specs.declared.plain.Pt.{Pt as Point};
ghost use Rattle.base_sets.specs.Values.{IsBox, value_of};
ghost use Rattle.propagate.specs.Children.{IsChildIn};
ghost use Rattle.area_laws.specs.Groups.{HasGroup};
ghost use Rattle.area_laws.specs.Reaching.{IsStepSet};
ghost use Rattle.area_run.specs.Plans.{IsPlan};
ghost use Rattle.area_run.specs.Strips.{AreAlike, AreAlongY, AreKept, FillsWith, FitsBox, IsEmptyStrip, IsStripOf};

use crate::children::Children;
use crate::plan::Plan;
use crate::strip::Strip;
use base_sets::{BaseSet, OuterBox};
use convex_poly::Poly;
use merge_sets::{CellTable, slot_numbers, slots_of};
use propagate::plane_child;

/// The children of sets that have one polygon along x come into the table: those along y together, by the rows of the strip,
/// which is empty before and after.
pub(crate) fn fill_group(
    plan: &Plan,
    b: &OuterBox,
    sets: &[BaseSet],
    table: &mut CellTable,
    children: &mut Children,
    strip: &mut Strip,
)
    requires plan { IsPlan plan.now }
    requires reach { IsBox b.now }
    requires sets { (set : SetValue) → Includes (map value_of sets.now) set → IsStepSet set }
    requires alike { AreAlike sets.now }
    requires begun { table.old.step ≡ Some (b.now, plan.now.grid, plan.now.k) }
    requires kept { AreKept plan.now b.now children.old.kept.items }
    requires empty { IsEmptyStrip plan.now b.now strip.old.rows.items strip.old.from strip.old.to }
    ensures filled { FillsWith plan.now b.now (map value_of sets.now) table.old table.new }
    ensures step { table.new.step ≡ table.old.step }
    ensures most { table.new.most ≡ table.old.most }
    ensures kept { AreKept plan.now b.now children.new.kept.items }
    ensures empty { IsEmptyStrip plan.now b.now strip.new.rows.items strip.new.from strip.new.to }
    ensures room { length strip.new.rows.items ≡ length strip.old.rows.items }
{
    if sets.is_empty() {
        return;
    }
    if let Some(x) = plane_child(&sets[0].x, &plan.e, plan.k, b.xlo, b.xhi) {
        join_children(plan, b, sets, children, strip);
        join_strip(plan, b, &x, strip, table);
        strip.clear(plan, b);
    }
}

/// The children along y of all sets come to the strip.
fn join_children(
    plan: &Plan,
    b: &OuterBox,
    sets: &[BaseSet],
    children: &mut Children,
    strip: &mut Strip,
)
    requires plan { IsPlan plan.now }
    requires reach { IsBox b.now }
    requires sets { (set : SetValue) → Includes (map value_of sets.now) set → IsStepSet set }
    requires kept { AreKept plan.now b.now children.old.kept.items }
    requires empty { IsEmptyStrip plan.now b.now strip.old.rows.items strip.old.from strip.old.to }
    ensures strip { (ys : List (List Point)) × AreAlongY plan.now b.now (map value_of sets.now) ys × IsStripOf plan.now b.now ys strip.new.rows.items }
    ensures kept { AreKept plan.now b.now children.new.kept.items }
    ensures fits { FitsBox plan.now b.now strip.new.rows.items strip.new.from strip.new.to }
    ensures room { length strip.new.rows.items ≡ length strip.old.rows.items }
{
    for set in sets {
        children.join(plan, b, set, strip);
    }
}

/// The strip comes into each column that a child along x meets, with the child's part there.
fn join_strip(plan: &Plan, b: &OuterBox, x: &Poly, strip: &Strip, table: &mut CellTable)
    requires plan { IsPlan plan.now }
    requires reach { IsBox b.now }
    requires child { IsChildIn b.now.xlo b.now.xhi plan.now.e.v x.now }
    requires fits { FitsBox plan.now b.now strip.now.rows.items strip.now.from strip.now.to }
    requires begun { table.old.step ≡ Some (b.now, plan.now.grid, plan.now.k) }
    ensures group { (ys : List (List Point)) → IsStripOf plan.now b.now ys strip.now.rows.items
        → HasGroup plan.now.grid.w plan.now.grid.g plan.now.k x.now ys (slot plan.now.grid.w (least_place x.now)) (slots_met plan.now.grid.w (least_place x.now) (greatest_place x.now)) table.old table.new }
    ensures step { table.new.step ≡ table.old.step }
    ensures most { table.new.most ≡ table.old.most }
{
    let rows = &strip.rows[strip.from..strip.to];
    let low = plan.grid.row(b.ylo) + strip.from as i64;
    let (first, count) = slots_of(x, plan.grid.w);
    for i in 0..count {
        let col = first + i64::from(i);
        if let Some(numbers) = slot_numbers(x, plan.grid.w, col, plan.k) {
            table.join_rows(col, low, &numbers, rows);
        }
    }
}
