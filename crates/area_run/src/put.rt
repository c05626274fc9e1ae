//! The sets of the cells of a step.

ghost use Rattle.std.specs.Prelude.{◌≡◌, ℕ, ◌<◌, ◌≤◌, [], length, pos, ◌+ℤ◌};
ghost use Rattle.spot_terms.specs.Grid.{slot};
ghost use Rattle.spot_terms.specs.Whole.{Within};
ghost use Rattle.area_laws.specs.Reaching.{IsCellIn};
ghost use Rattle.merge_sets.specs.Planes.{HasTicks};
ghost use Rattle.area_run.specs.Plans.{course_of};
ghost use Rattle.area_run.specs.Rows.{AreRunsOf};
ghost use Rattle.area_run.specs.Stages.{Advances, HasCellRoom, HasRoom, HasSetsBefore, IsStage};

use crate::rows::StepRuns;
use crate::search::column_runs;
use base_sets::slots_met;
use carve::{Occupied, SetList, SetParts, cut_parts};
use merge_sets::{CellTable, Planes};

/// Adds the sets of all cells of the step, by column, row and run.
pub(crate) fn put_all<O: Occupied>(
    at: &StepRuns<'_, O>,
    table: &CellTable,
    planes: &mut Planes,
    out: &mut SetList,
)
    requires stage { IsStage at.now.plan at.now.step (O.count at.now.o.now at.now.step) (O.hits at.now.o.now at.now.step) (O.range at.now.o.now at.now.step) at.now.b at.now.free.items at.now.ends.items }
    requires begun { HasSetsBefore at.now.plan at.now.step (O.count at.now.o.now at.now.step) (O.hits at.now.o.now at.now.step) (O.range at.now.o.now at.now.step) table.now (slot at.now.plan.grid.w at.now.b.xlo) (slot at.now.plan.grid.g at.now.b.ylo) out.old.sets }
    requires ticks { planes.old.k ≡ at.now.plan.k }
    requires planes { length at.now.ends.items ≤ planes.old.rows }
    requires room { HasRoom at.now.plan at.now.step (O.count at.now.o.now at.now.step) (O.hits at.now.o.now at.now.step) (O.range at.now.o.now at.now.step) out.old.room }
    ensures advances { Advances at.now.plan at.now.step (O.count at.now.o.now at.now.step) (O.hits at.now.o.now at.now.step) (O.range at.now.o.now at.now.step) table.now
        (slot at.now.plan.grid.w at.now.b.xlo) (slot at.now.plan.grid.g at.now.b.ylo) out.old.sets
        (slot at.now.plan.grid.w at.now.b.xhi +ℤ pos 1) (slot at.now.plan.grid.g at.now.b.ylo) out.new.sets }
    ensures ticks { planes.new.k ≡ planes.old.k }
    ensures planes { planes.new.rows ≡ planes.old.rows }
    ensures room { out.new.room ≡ out.old.room }
{
    let first = at.plan.grid.col(at.b.xlo);
    let count = slots_met(at.plan.grid.w, at.b.xlo, at.b.xhi);
    for i in 0..count {
        put_column(at, table, planes, first + i as i64, out);
    }
}

/// Adds the sets of the cells of a column.
fn put_column<O: Occupied>(
    at: &StepRuns<'_, O>,
    table: &CellTable,
    planes: &mut Planes,
    col: i64,
    out: &mut SetList,
)
    requires stage { IsStage at.now.plan at.now.step (O.count at.now.o.now at.now.step) (O.hits at.now.o.now at.now.step) (O.range at.now.o.now at.now.step) at.now.b at.now.free.items at.now.ends.items }
    requires col { Within (slot at.now.plan.grid.w at.now.b.xlo) (slot at.now.plan.grid.w at.now.b.xhi) col }
    requires begun { HasSetsBefore at.now.plan at.now.step (O.count at.now.o.now at.now.step) (O.hits at.now.o.now at.now.step) (O.range at.now.o.now at.now.step) table.now col (slot at.now.plan.grid.g at.now.b.ylo) out.old.sets }
    requires ticks { planes.old.k ≡ at.now.plan.k }
    requires planes { length at.now.ends.items ≤ planes.old.rows }
    requires room { HasRoom at.now.plan at.now.step (O.count at.now.o.now at.now.step) (O.hits at.now.o.now at.now.step) (O.range at.now.o.now at.now.step) out.old.room }
    ensures advances { Advances at.now.plan at.now.step (O.count at.now.o.now at.now.step) (O.hits at.now.o.now at.now.step) (O.range at.now.o.now at.now.step) table.now
        col (slot at.now.plan.grid.g at.now.b.ylo) out.old.sets (col +ℤ pos 1) (slot at.now.plan.grid.g at.now.b.ylo) out.new.sets }
    ensures ticks { planes.new.k ≡ planes.old.k }
    ensures planes { planes.new.rows ≡ planes.old.rows }
    ensures room { out.new.room ≡ out.old.room }
{
    let first = at.plan.grid.row(at.b.ylo);
    for j in 0..at.ends.len() {
        put_cell(at, table, planes, col, first + j as i64, at.row(j), j, out);
    }
}

/// Adds the sets of a cell, which is in the `j`-th row; the row has these free runs.
fn put_cell<O: Occupied>(
    at: &StepRuns<'_, O>,
    table: &CellTable,
    planes: &mut Planes,
    col: i64,
    row: i64,
    runs: &[(i64, i64)],
    j: usize,
    out: &mut SetList,
)
    requires stage { IsStage at.now.plan at.now.step (O.count at.now.o.now at.now.step) (O.hits at.now.o.now at.now.step) (O.range at.now.o.now at.now.step) at.now.b at.now.free.items at.now.ends.items }
    requires cell { IsCellIn (course_of at.now.plan) at.now.step col row }
    requires runs { AreRunsOf (course_of at.now.plan) at.now.step (O.count at.now.o.now at.now.step) (O.hits at.now.o.now at.now.step) (O.range at.now.o.now at.now.step) row runs.now }
    requires ticks { HasTicks table.now planes.old.k }
    requires planes { j < planes.old.rows }
    requires room { HasCellRoom at.now.plan at.now.step (O.count at.now.o.now at.now.step) (O.hits at.now.o.now at.now.step) (O.range at.now.o.now at.now.step) col row out.old.sets out.old.room }
    ensures advances { Advances at.now.plan at.now.step (O.count at.now.o.now at.now.step) (O.hits at.now.o.now at.now.step) (O.range at.now.o.now at.now.step) table.now
        col row out.old.sets col (row +ℤ pos 1) out.new.sets }
    ensures ticks { planes.new.k ≡ planes.old.k }
    ensures planes { planes.new.rows ≡ planes.old.rows }
    ensures room { out.new.room ≡ out.old.room }
{
    if planes.go_to(table, col, row, j) {
        let b = SetParts {
            col,
            row,
            x: planes.x(),
            y: planes.y(j),
        };
        cut_parts(&b, column_runs(runs, col, at.plan.grid.w), out);
    }
}
