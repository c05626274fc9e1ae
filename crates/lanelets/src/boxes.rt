//! The boxes round cells, by which most of those that don't hold a point are passed over.

ghost use Rattle.std.specs.Prelude.{IfOk};
ghost use Rattle.lanelets.specs.Boxes.{AreBlocks, AreBoxes, AreCellBoxes, IsBoxIn};

use crate::cell::Placed;
use convex_poly::BoundingBox;
use spot_terms::Pt;
use std::alloc::{AllocError, Global};

/// How many cells are a block. Those along a lanelet are numbered in a row, so that they lie close together.
pub(crate) const BLOCK: usize = 64;

/// The boxes round cells, and round blocks of cells, so that a point isn't looked for in a block whose box doesn't cover it.
#[derive(Drop)]
pub(crate) struct CellBoxes {
    pub(crate) each: Vec<BoundingBox>,
    pub(crate) blocks: Vec<BoundingBox>,
}

// The box round each cell, in order.
fn boxes_of(alloc: Global, cells: &[Placed]) -> Result<Vec<BoundingBox>, AllocError>
    ensures { IfOk result (λ boxes. AreBoxes cells.now boxes.items) }
{
    let mut boxes = Vec::new(alloc);
    for placed in cells {
        boxes.push(placed.cell.poly.bounding_box())?;
    }
    Ok(boxes)
}

// A box round two boxes.
fn around_both(a: &BoundingBox, b: &BoundingBox) -> BoundingBox
    ensures first { IsBoxIn a.now result }
    ensures second { IsBoxIn b.now result }
{
    BoundingBox {
        low: Pt {
            x: a.low.x.min(b.low.x),
            y: a.low.y.min(b.low.y),
        },
        high: Pt {
            x: a.high.x.max(b.high.x),
            y: a.high.y.max(b.high.y),
        },
    }
}

// The boxes round blocks of boxes, in order.
fn blocks_of(alloc: Global, boxes: &[BoundingBox]) -> Result<Vec<BoundingBox>, AllocError>
    ensures { IfOk result (λ blocks. AreBlocks boxes.now blocks.items) }
{
    let mut blocks = Vec::new(alloc);
    for (c, next) in boxes.iter().enumerate() {
        if c % BLOCK == 0 {
            blocks.push(*next)?;
        } else {
            blocks[c / BLOCK] = around_both(&blocks[c / BLOCK], next);
        }
    }
    Ok(blocks)
}

/// The boxes round cells and round blocks of them.
pub(crate) fn cell_boxes(alloc: Global, cells: &[Placed]) -> Result<CellBoxes, AllocError>
    ensures { IfOk result (λ boxes. AreCellBoxes cells.now boxes) }
{
    let each = boxes_of(alloc, cells)?;
    let blocks = blocks_of(alloc, &each)?;
    Ok(CellBoxes { each, blocks })
}
