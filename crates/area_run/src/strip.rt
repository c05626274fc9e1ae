//! The strip of sets that have one polygon along x: what their children along y leave in the rows of the box.

ghost use Rattle.std.specs.Prelude.{◌≡◌, ◌≤◌, ◌∷◌, IfOk, List, Some, length};
ghost use Rattle.spot_terms.specs.declared.plain.Pt.{Pt as Point};
ghost use Rattle.base_sets.specs.Values.{IsBox};
ghost use Rattle.propagate.specs.Children.{IsChildIn};
ghost use Rattle.merge_sets.specs.Cells.{AreRows};
ghost use Rattle.area_run.specs.Plans.{IsPlan};
ghost use Rattle.area_run.specs.Strips.{ArePartsIn, FitsBox, IsEmptyStrip, IsStripOf, row_count};
ghost use Rattle.area_run.specs.Windows.{IsWidened};

use crate::children::ChildParts;
use crate::plan::Plan;
use base_sets::OuterBox;
use merge_sets::{forget, join_parts};
use round_out::FrameNumbers;
use std::alloc::{AllocError, Global};

/// Of each row of a box the greatest numbers of the parts there; none of them from row `to` on, or before row `from`, counted
/// from the box's first one.
#[derive(Drop)]
pub(crate) struct Strip {
    pub(crate) rows: Vec<Option<FrameNumbers>>,
    pub(crate) from: usize,
    pub(crate) to: usize,
}

impl Strip {
    /// Room for so many rows, without a part in any of them.
    pub(crate) fn open(alloc: Global, rows: u64) -> Result<Strip, AllocError>
        ensures { IfOk result (λ s. length s.rows.items ≡ rows) }
    {
        let room = rows as usize;
        let mut items = Vec::with_capacity(alloc, room)?;
        for _ in 0..room {
            items.push(None)?;
        }
        Ok(Strip {
            rows: items,
            from: 0,
            to: 0,
        })
    }

    /// Takes out all parts, whatever the box was.
    pub(crate) fn start(&mut self, plan: &Plan, b: &OuterBox)
        requires room { row_count plan.now b.now ≤ length self.old.rows.items }
        ensures empty { IsEmptyStrip plan.now b.now self.new.rows.items self.new.from self.new.to }
        ensures room { length self.new.rows.items ≡ length self.old.rows.items }
    {
        let count = self.rows.len();
        forget(&mut self.rows, 0, count);
        self.from = 0;
        self.to = 0;
    }

    /// Takes out the parts of a strip of this box.
    pub(crate) fn clear(&mut self, plan: &Plan, b: &OuterBox)
        requires fits { FitsBox plan.now b.now self.old.rows.items self.old.from self.old.to }
        ensures empty { IsEmptyStrip plan.now b.now self.new.rows.items self.new.from self.new.to }
        ensures room { length self.new.rows.items ≡ length self.old.rows.items }
    {
        forget(&mut self.rows, self.from, self.to);
        self.from = 0;
        self.to = 0;
    }

    /// Joins the numbers of the parts of a child along y.
    pub(crate) fn join(&mut self, plan: &Plan, b: &OuterBox, child: &ChildParts)
        requires plan { IsPlan plan.now }
        requires reach { IsBox b.now }
        requires fits { FitsBox plan.now b.now self.old.rows.items self.old.from self.old.to }
        requires parts { ArePartsIn plan.now b.now child.now }
        ensures fits { FitsBox plan.now b.now self.new.rows.items self.new.from self.new.to }
        ensures joined { (ys : List (List Point)) → IsStripOf plan.now b.now ys self.old.rows.items → IsStripOf plan.now b.now (child.now.y ∷ ys) self.new.rows.items }
        ensures room { length self.new.rows.items ≡ length self.old.rows.items }
    {
        let at = (child.first - plan.grid.row(b.ylo)) as usize;
        join_parts(
            &mut self.rows,
            at,
            &child.y,
            &child.known[..child.few as usize],
            plan.grid.g,
            child.first,
            child.count,
            plan.k,
        );
        self.widen(at, at + child.count as usize);
    }

    /// Rows from `at` to below `end` have parts too.
    fn widen(&mut self, at: usize, end: usize)
        requires order { self.old.from ≤ self.old.to }
        requires some { at ≤ end }
        ensures rows { self.new.rows ≡ self.old.rows }
        ensures widened { IsWidened self.old.from self.old.to at end self.new.from self.new.to }
    {
        if self.from == self.to {
            self.from = at;
            self.to = end;
        } else {
            self.from = self.from.min(at);
            self.to = self.to.max(end);
        }
    }
}
