//! Which cells hold a point.

ghost use Rattle.std.specs.Prelude.{◌≡◌, ◌↔◌, ◌+◌, ◌*◌, ◌<◌, ◌≤◌, length, IsTrue, IfOk};
ghost use Rattle.spot_terms.specs.Hull.{InHull};
ghost use Rattle.spot_terms.specs.Lists.{Lists};
ghost use Rattle.lanelets.specs.Holding.{HoldsAt, HoldsBelow};
ghost use Rattle.convex_poly.specs.Boxes.{IsBoxOf};
ghost use Rattle.lanelets.specs.Boxes.{AreBoxes, AreCellBoxes};
ghost use Rattle.lanelets.specs.declared.boxes.TheConstants.{BLOCK};

use crate::boxes::{BLOCK, CellBoxes};
use crate::placed::PlacedCells;
use convex_poly::{BoundingBox, Poly};
use spot_terms::{Items, Pt};
use std::alloc::{AllocError, Global};

/// A list of numbers of cells.
pub type CellList = Items<u32>;

// Whether a polygon holds a point, by the box round it first.
fn holds(poly: &Poly, around: &BoundingBox, p: Pt) -> bool
    requires { IsBoxOf poly.now around.now }
    ensures { IsTrue result ↔ InHull poly.now p }
{
    around.covers(p) && poly.contains(p)
}

// Appends the numbers of the cells of a block that hold a point.
fn add_holding(
    list: &mut Vec<u32>,
    cells: &PlacedCells,
    boxes: &[BoundingBox],
    block: usize,
    p: Pt,
) -> Result<(), AllocError>
    requires boxes { AreBoxes cells.now boxes.now }
    requires block { block * BLOCK < length boxes.now }
    ensures { IfOk result (λ _. Lists (HoldsBelow cells.now p (block * BLOCK)) list.old.items → Lists (HoldsBelow cells.now p ((block + 1) * BLOCK)) list.new.items) }
{
    let first = block * BLOCK;
    let end = (first + BLOCK).min(boxes.len());
    for c in first..end {
        if holds(&cells.list()[c].cell.poly, &boxes[c], p) {
            list.push(c as u32)?;
        }
    }
    Ok(())
}

/// The numbers of the cells that hold a point.
pub(crate) fn cells_holding(
    alloc: Global,
    cells: &PlacedCells,
    boxes: &CellBoxes,
    p: Pt,
) -> Result<CellList, AllocError>
    requires { AreCellBoxes cells.now boxes.now }
    ensures { IfOk result (λ list. Lists (HoldsAt cells.now p) list) }
{
    let mut list = Vec::new(alloc);
    for (block, around) in boxes.blocks.iter().enumerate() {
        if around.covers(p) {
            add_holding(&mut list, cells, &boxes.each, block, p)?;
        }
    }
    Ok(CellList::from_vec(list))
}
