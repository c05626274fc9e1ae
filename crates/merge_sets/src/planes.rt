//! The polygons of cells, plane by plane. Neighbours in a column mostly have the same numbers of x, and neighbours in a row the
//! same of y: a polygon is made anew only where the numbers are other ones.

ghost use Rattle.std.specs.Prelude.{◌≡◌, ◌<◌, ◌≤◌, ℕ, length, Some, slice_get};
ghost use Rattle.base_sets.specs.Values.{AreTicks};
ghost use Rattle.merge_sets.specs.Cells.{AreSound};
ghost use Rattle.merge_sets.specs.Planes.{IsPlane, IsPlaneOf};

use crate::table::CellTable;
use base_sets::BaseSet;
use convex_poly::Poly;
use round_out::{FrameNumbers, frame_poly};
use std::alloc::{AllocError, Global};
use std::marker::Model;

/// Eight numbers of a plane, and their polygon.
#[derive(Drop)]
pub(crate) struct Plane {
    pub(crate) numbers: FrameNumbers,
    pub(crate) poly: Poly,
}

/// For steps of so many ticks the polygon of x of the last cell, and for each row that of y of its last cell.
#[derive(Drop)]
pub struct Planes {
    k: u32,
    rows: u64,
    x: Plane,
    ys: Vec<Plane>,
}

impl Model for Planes {
    ghost use Rattle.std.specs.Prelude.{◌≡◌, length, map};
    ghost use Rattle.base_sets.specs.Values.{AreTicks};
    ghost use Rattle.merge_sets.specs.Planes.{ArePlanes, IsPlane, PlaneValue, corners_of};

    ghost Value = { PlaneValue };

    ghost view = { λ p. record { k = p.k; rows = p.rows; x = p.x.poly; ys = map corners_of p.ys.items } };

    ghost invariant = { λ p. AreTicks p.k × (length p.ys.items ≡ p.rows) × IsPlane p.k p.x × ArePlanes p.k p.ys.items };
}

impl Planes {
    ghost use Rattle.std.specs.Prelude.{IfOk, List, option_map};
    ghost use Rattle.base_sets.specs.Values.{value_of};
    ghost use Rattle.merge_sets.specs.Tables.{IsMergedIn};
    ghost use Rattle.spot_terms.specs.declared.plain.Pt.{Pt};
    ghost use Rattle.merge_sets.specs.Planes.{AreMergedIn, HasTicks};

    /// Room for so many rows, for steps of `k` ticks.
    pub fn open(alloc: Global, rows: u64, k: u32) -> Result<Planes, AllocError>
        requires { AreTicks k }
        ensures ticks { IfOk result (λ p. p.k ≡ k) }
        ensures rows { IfOk result (λ p. p.rows ≡ rows) }
    {
        let mut ys = Vec::with_capacity(alloc, rows as usize)?;
        for _ in 0..rows {
            ys.push(zero_plane(k))?;
        }
        Ok(Planes {
            k,
            rows,
            x: zero_plane(k),
            ys,
        })
    }

    /// The set of a cell of a table, in the `j`-th row, as `CellTable::merged` has it. The table's step is one of as many ticks.
    pub fn merged(&mut self, table: &CellTable, col: i64, row: i64, j: usize) -> Option<BaseSet>
        requires ticks { HasTicks table.now self.old.k }
        requires row { j < self.old.rows }
        ensures merged { IsMergedIn table.now col row (option_map value_of result) }
        ensures ticks { self.new.k ≡ self.old.k }
        ensures rows { self.new.rows ≡ self.old.rows }
    {
        if self.go_to(table, col, row, j) {
            Some(BaseSet {
                col,
                row,
                x: self.x().copy(),
                y: self.y(j).copy(),
            })
        } else {
            None
        }
    }

    /// Goes to a cell: the polygon of x, and that of y of the row, become those of its set. Whether something came in there.
    /// The table's step is one of as many ticks.
    pub fn go_to(&mut self, table: &CellTable, col: i64, row: i64, j: usize) -> bool
        requires ticks { HasTicks table.now self.old.k }
        requires row { j < self.old.rows }
        ensures merged { AreMergedIn table.now col row j result self.new }
        ensures ticks { self.new.k ≡ self.old.k }
        ensures rows { self.new.rows ≡ self.old.rows }
    {
        match table.numbers(col, row) {
            Some((x, y)) => {
                set_plane(&mut self.x, &x, self.k);
                set_plane(&mut self.ys[j], &y, self.k);
                true
            }
            None => false,
        }
    }

    /// The polygon of x.
    pub fn x(&self) -> &Poly
        ensures { result.now ≡ self.now.x }
    {
        &self.x.poly
    }

    /// The polygon of y of a row.
    pub fn y(&self, j: usize) -> &Poly
        requires { j < self.now.rows }
        ensures { (y : List Pt) → slice_get self.now.ys j ≡ Some y → result.now ≡ y }
    {
        &self.ys[j].poly
    }
}

// The plane of eight zeros.
fn zero_plane(k: u32) -> Plane
    requires { AreTicks k }
    ensures { IsPlane k result }
{
    let numbers = FrameNumbers { n: [0; 8] };
    Plane {
        numbers,
        poly: polygon_of(&numbers, k),
    }
}

// Goes to these numbers. The polygon is made anew unless they are those of the plane.
fn set_plane(plane: &mut Plane, numbers: &FrameNumbers, k: u32)
    requires ticks { AreTicks k }
    requires sound { AreSound k numbers.now.n }
    requires plane { IsPlane k plane.old }
    ensures plane { IsPlane k plane.new }
    ensures numbers { plane.new.numbers.n ≡ numbers.now.n }
{
    if plane.numbers != *numbers {
        *plane = Plane {
            numbers: *numbers,
            poly: polygon_of(numbers, k),
        };
    }
}

// The polygon of numbers in order, for a step of `k` ticks.
fn polygon_of(numbers: &FrameNumbers, k: u32) -> Poly
    requires sound { AreSound k numbers.now.n }
    requires ticks { AreTicks k }
    ensures { IsPlaneOf k numbers.now.n result }
{
    frame_poly(numbers, i64::from(k))
}
