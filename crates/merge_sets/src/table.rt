//! The table of cells.

ghost use Rattle.std.specs.Prelude.{◌≡◌, ◌≤◌, ℤ, IfOk, None, Some, option_map};
ghost use Rattle.spot_terms.specs.Courses.{cells_of};
ghost use Rattle.base_sets.specs.Values.{AreTicks, IsBox, IsGrid, rect_of_box, value_of};
ghost use Rattle.merge_sets.specs.Cells.{pair_of};
ghost use Rattle.merge_sets.specs.Tables.{Adds, AreSoundIn, CanAdd, CanJoin, JoinsRows, Holds, IsMergedIn};

use crate::adding::add_to;
use crate::cells::{Cell, clear, empty_cell, numbers_in};
use crate::columns::join_column;
use crate::places::BoxSlots;
use base_sets::{BaseSet, Grid, OuterBox};
use convex_poly::Poly;
use round_out::{FrameNumbers, frame_poly};
use std::alloc::{AllocError, Global};
use std::marker::Model;

/// A table of cells, seen as the step that was begun and the greatest numbers of each cell.
#[derive(Drop)]
pub struct CellTable {
    step: Option<(OuterBox, Grid, u32)>,
    slots: BoxSlots,
    used: usize,
    cells: Vec<Cell>,
    rows: Vec<Option<FrameNumbers>>,
}

impl Model for CellTable {
    ghost use Rattle.std.specs.Prelude.{length, map};
    ghost use Rattle.merge_sets.specs.Tables.{Table};
    ghost use Rattle.merge_sets.specs.Cells.{IsTable, numbers_of};

    ghost Value = { Table };

    ghost view = { λ t. record { most = length t.cells.items; step = t.step; cells = map numbers_of t.cells.items } };

    ghost invariant = { λ t. IsTable t.step t.slots t.used t.cells.items t.rows.items };
}

impl CellTable {
    /// A table with room for so many cells, and no step.
    pub fn open(alloc: Global, most: u64) -> Result<CellTable, AllocError>
        ensures { IfOk result (λ t. (t.most ≡ most) × (t.step ≡ None)) }
    {
        let room = most as usize;
        let mut cells = Vec::with_capacity(alloc, room)?;
        let mut rows = Vec::with_capacity(alloc, room)?;
        for _ in 0..room {
            cells.push(empty_cell())?;
            rows.push(None)?;
        }
        Ok(CellTable {
            step: None,
            slots: BoxSlots::none(),
            used: 0,
            cells,
            rows,
        })
    }

    /// Begins a step with this box, in which nothing has come in.
    pub fn start(&mut self, o: &OuterBox, grid: &Grid, k: u32)
        requires reach { IsBox o.now }
        requires grid { IsGrid grid.now }
        requires ticks { AreTicks k }
        requires room { cells_of grid.now.w grid.now.g (rect_of_box o.now) ≤ self.old.most }
        ensures most { self.new.most ≡ self.old.most }
        ensures step { self.new.step ≡ Some (o.now, grid.now, k) }
        ensures empty { (col row : ℤ) → Holds self.new col row None }
    {
        clear(&mut self.cells, self.used);
        self.slots = BoxSlots::of_box(o, grid);
        self.used = o.cells(grid) as usize;
        self.step = Some((*o, *grid, k));
    }

    /// Adds a pair of polygons to the cells that it meets.
    pub fn add(&mut self, x: &Poly, y: &Poly)
        requires { CanAdd self.old x.now y.now }
        ensures { Adds self.old self.new x.now y.now }
    {
        if let Some((o, grid, k)) = self.step {
            let slots = self.slots;
            add_to(&mut self.cells, &mut self.rows, &o, &grid, k, &slots, x, y);
        }
    }

    /// Joins numbers of parts that are known already: `x` to the cells of a column from the row `low` on, and to each of them
    /// the item of `rows` in its place, where there is one.
    pub fn join_rows(&mut self, col: i64, low: i64, x: &FrameNumbers, rows: &[Option<FrameNumbers>])
        requires { CanJoin self.old col low x.now.n rows.now }
        ensures { JoinsRows self.old self.new col low x.now.n rows.now }
    {
        if let Some(at) = self.slots.place_in(col, low) {
            join_column(&mut self.cells, at, rows.len(), x, rows);
        }
    }

    /// The greatest numbers of a cell, along x and along y. `None` exactly where nothing came in.
    pub fn numbers(&self, col: i64, row: i64) -> Option<(FrameNumbers, FrameNumbers)>
        ensures exact { Holds self.now col row (option_map pair_of result) }
        ensures sound { AreSoundIn self.now result }
    {
        match self.slots.place_in(col, row) {
            Some(place) => numbers_in(&self.cells[place]),
            None => None,
        }
    }

    /// The set of a cell: in each plane the frame of the greatest numbers of what came in there. `None` exactly where
    /// nothing came in.
    pub fn merged(&self, col: i64, row: i64) -> Option<BaseSet>
        ensures { IsMergedIn self.now col row (option_map value_of result) }
    {
        match self.step {
            Some((_, _, k)) => match self.numbers(col, row) {
                Some((x, y)) => Some(BaseSet {
                    col,
                    row,
                    x: frame_poly(&x, i64::from(k)),
                    y: frame_poly(&y, i64::from(k)),
                }),
                None => None,
            },
            None => None,
        }
    }
}
