//! Networks of cells.

ghost use Rattle.spot_terms.specs.Cells.{cells};

use crate::boxes::CellBoxes;
use crate::cell::Cell;
use crate::classes::Classes;
use crate::kept::{KeptLane, are_side_cells};
use crate::numbers::{Numbers, has_number, list_at};
use crate::placed::PlacedCells;
use crate::search::{CellList, cells_holding};
use indexmap::IndexMap;
use spot_terms::{Pt, RawLane};
use std::alloc::{AllocError, Global};
use std::marker::Model;
use std::snapshot::Snapshot;

/// The network of the cells of lanelets. A contract sees it as the lanelets that it was built from, in their order.
#[derive(Drop)]
pub struct Network {
    built_from: Snapshot<IndexMap<u32, RawLane>>,
    cells: PlacedCells,
    boxes: CellBoxes,
    lanes: Vec<KeptLane>,
    ahead: Vec<Numbers>,
    classes: Classes,
}

impl Model for Network {
    ghost use Rattle.std.specs.Prelude.{List};
    ghost use Rattle.spot_terms.specs.Cells.{Lane};
    ghost use Rattle.lanelets.specs.Built.{IsBuilt};

    ghost Value = { List Lane };

    ghost view = { λ n. n.built_from.value.entries };

    ghost invariant = { λ n. IsBuilt n.built_from.value.entries n.cells n.boxes n.lanes.items n.ahead.items n.classes };
}

impl Network {
    ghost use Rattle.std.specs.Prelude.{◌≡◌, ◌↔◌, ◌<◌, ◌≤◌, ℕ, length, IsTrue, IfOk};
    ghost use Rattle.spot_terms.specs.Network.{IsAhead, IsSide};
    ghost use Rattle.convex_poly.specs.Polygons.{IsPosition};
    ghost use Rattle.lanelets.specs.Beside.{IsBeside};
    ghost use Rattle.lanelets.specs.Built.{IsBuilt, IsCellAt};
    ghost use Rattle.spot_terms.specs.Routes.{IsStartCell};
    ghost use Rattle.spot_terms.specs.Lists.{Lists};

    // The network of lanelets with these cells and the boxes round them, with what is kept of the lanelets, the cells ahead of
    // each, and their classes.
    pub(crate) fn of(
        lanes: &IndexMap<u32, RawLane>,
        cells: PlacedCells,
        boxes: CellBoxes,
        kept: Vec<KeptLane>,
        ahead: Vec<Numbers>,
        classes: Classes,
    ) -> Network
        requires { IsBuilt lanes.now.entries cells boxes kept.items ahead.items classes }
        ensures { result ≡ lanes.now.entries }
    {
        Network {
            built_from: Snapshot::of(lanes),
            cells,
            boxes,
            lanes: kept,
            ahead,
            classes,
        }
    }

    /// The number of cells. They are numbered from 0: those of the lanelets, each from its start, then the bridges.
    pub fn len(&self) -> u32
        ensures { result ≡ length (cells self.now) }
    {
        self.cells.len()
    }

    /// The cell with a number.
    pub fn cell(&self, c: u32) -> &Cell
        requires { c < length (cells self.now) }
        ensures { IsCellAt self.now c result.now }
    {
        &self.cells.list()[c as usize].cell
    }

    /// Whether one goes ahead from cell `c` to cell `d`.
    pub fn is_ahead(&self, c: u32, d: u32) -> bool
        requires from { c < length (cells self.now) }
        requires to { d < length (cells self.now) }
        ensures { IsTrue result ↔ IsAhead self.now (cells self.now) c d }
    {
        has_number(list_at(&self.ahead, c), d)
    }

    /// The numbers of the cells to which one goes ahead from cell `c`, in order.
    pub fn ahead(&self, c: u32) -> &[u32]
        requires { c < length (cells self.now) }
        ensures { Lists (IsAhead self.now (cells self.now) c) result.now }
    {
        list_at(&self.ahead, c)
    }

    /// Whether cells `c` and `d` lie side by side.
    pub fn is_side(&self, c: u32, d: u32) -> bool
        requires first { c < length (cells self.now) }
        requires second { d < length (cells self.now) }
        ensures { IsTrue result ↔ IsSide self.now (cells self.now) c d }
    {
        are_side_cells(&self.cells, &self.lanes, c, d)
    }

    /// The numbers of the cells to which side moves alone lead from cell `c`, with `c` itself, in order.
    pub fn beside(&self, c: u32) -> &[u32]
        requires { c < length (cells self.now) }
        ensures { Lists (λ d. IsBeside self.now (cells self.now) d c) result.now }
    {
        list_at(&self.classes.cells, self.classes.numbers[c as usize])
    }

    /// The numbers of the cells whose hull holds the point, in order. Where there is one, the coordinates of the point are at
    /// most 4·10^13 in size.
    pub fn cells_at(&self, alloc: Global, p: Pt) -> Result<CellList, AllocError>
        ensures list { IfOk result (λ list. Lists (IsStartCell self.now p) list) }
        ensures near { (c : ℕ) → IsStartCell self.now p c → IsPosition p }
    {
        let list = cells_holding(alloc, &self.cells, &self.boxes, p)?;
        Ok(list)
    }
}
