//! Labels: the least lengths of routes.

ghost use Rattle.std.specs.Prelude.{◌≡◌, ◌<◌, ◌≤◌, ℕ, List, Option, Some, length, slice_get, take, IfOk};
ghost use Rattle.spot_terms.specs.Lists.{Lists};
ghost use Rattle.spot_terms.specs.Routes.{IsStartCell};
ghost use Rattle.convex_poly.specs.Polygons.{IsPosition};
ghost use Rattle.lane_paths.specs.Labels.{AreLabels, label_at};
ghost use Rattle.lane_paths.specs.Reached.{AreListed, RiseByCell};
ghost use Rattle.lane_paths.specs.declared.lengths.CellLabel.{CellLabel as LabelledCell};

use crate::closed::Closed;
use crate::lengths::{CellLabel, Lengths};
use crate::links::{relax_all, relax_start};
use crate::shortest_lengths::ShortestLengths;
use lanelets::Network;
use spot_terms::Pt;
use std::alloc::{AllocError, Global};
use std::marker::Model;
use std::snapshot::Snapshot;

/// The labels of all cells from a start, up to a limit. Only those cells are kept that have one.
#[derive(Drop)]
pub struct LabelTable {
    all: Snapshot<Lengths>,
    count: Snapshot<u32>,
    list: Vec<CellLabel>,
}

impl Model for LabelTable {
    ghost Value = { List (Option ℕ) };

    ghost view = { λ t. take t.count.value t.all.value };

    ghost invariant = { λ t. AreListed (take t.count.value t.all.value) t.list.items };
}

impl LabelTable {
    // The labels of the cells below `count`, which are their lengths.
    pub(crate) fn of(alloc: Global, lengths: &Lengths, count: u32) -> Result<LabelTable, AllocError>
        requires { count ≤ length lengths.now }
        ensures { IfOk result (λ table. table ≡ take count lengths.now) }
    {
        Ok(LabelTable {
            all: Snapshot::of(lengths),
            count: Snapshot::of(&count),
            list: lengths.labels_below(alloc, count)?,
        })
    }

    /// The cells that have a label, in order, each with its label.
    pub fn list(&self) -> &[CellLabel]
        ensures { AreListed self.now result.now }
    {
        &self.list
    }

    /// The label of the cell with this number, in µm. `None` exactly where each route to it is longer than the limit, as for
    /// a number that is no cell.
    pub fn get(&self, c: u32) -> Option<u64>
        ensures { result ≡ label_at self.now c }
    {
        let found = self.list.get(place_in(&self.list, c))?;
        if found.cell == c {
            Some(found.label)
        } else {
            None
        }
    }
}

// How many of the cells are below this one: the first ones.
fn place_in(list: &[CellLabel], c: u32) -> usize
    requires { RiseByCell list.now }
    ensures below { (i : ℕ) (x : LabelledCell) → i < result → slice_get list.now i ≡ Some x → x.cell < c }
    ensures above { (i : ℕ) (x : LabelledCell) → result ≤ i → slice_get list.now i ≡ Some x → c ≤ x.cell }
{
    list.partition_point(|x| x.cell < c)
}

/// A search for labels. What it needs beside the labels is kept from one start to the next, so that a search costs what it
/// reaches, and not the whole network.
#[derive(Drop)]
pub struct LabelSearch {
    lengths: ShortestLengths,
}

impl LabelSearch {
    /// A search that has found nothing yet.
    pub fn new(alloc: Global) -> LabelSearch {
        LabelSearch {
            lengths: ShortestLengths::new(alloc),
        }
    }

    /// The labels of all cells from `start`, up to `limit` in µm, whatever was searched before. `starts` are the cells that hold
    /// the start. The only error is want of memory.
    pub fn labels(
        &mut self,
        alloc: Global,
        net: &Network,
        start: Pt,
        starts: &[u32],
        limit: u64,
    ) -> Result<LabelTable, AllocError>
        requires starts { Lists (IsStartCell net.now start) starts.now }
        requires near { (c : ℕ) → IsStartCell net.now start c → IsPosition start }
        ensures { IfOk result (λ table. AreLabels net.now start limit table) }
    {
        let mut closed = Closed::new(alloc);
        self.lengths.begin(alloc, net.len(), limit)?;
        relax_start(&mut self.lengths, &mut closed, net, start, starts)?;
        relax_all(&mut self.lengths, &mut closed, net)?;
        self.lengths.label_table(alloc)
    }
}

/// The labels of all cells from `start`, up to `limit` in µm. The only error is want of memory.
pub fn labels(alloc: Global, net: &Network, start: Pt, limit: u64) -> Result<LabelTable, AllocError>
    ensures { IfOk result (λ table. AreLabels net.now start limit table) }
{
    let starts = net.cells_at(alloc, start)?;
    let mut search = LabelSearch::new(alloc);
    search.labels(alloc, net, start, starts.list(), limit)
}
