//! What occupied pieces take away from the rows of a grid, and what is left of base sets.
#![tactic(auto)]

ghost use Rattle.carve.specs.RowSums.{RowsAreBoxes};

mod among;
mod boxes;
mod linked;
mod occupied;
mod rows;
mod runs;
mod sets;

pub use among::common_span;
pub use boxes::{row_boxes, rows_shared};
pub use linked::RowSpans;
pub use occupied::Occupied;
pub use rows::{Runs, row_ends, row_runs};
pub use sets::{SetList, SetParts, cut, cut_parts};

/// The runs that the rows of a box can have are, all together, as many as its row boxes.
pub fn rows_are_boxes()
    ensures { RowsAreBoxes }
{}

#[cfg(test)]
mod tests;
