//! What comes into the cells of a step, and what is merged of it.
#![tactic(auto)]

ghost use Rattle.merge_sets.specs.Merging.{MergedSetsExceed, MergedSetsHold, TablesCollect};

mod adding;
mod cells;
mod columns;
mod places;
mod planes;
mod slots;
mod strips;
mod table;

pub use adding::slots_of;
pub use planes::Planes;
pub use slots::{put_rows, slot_numbers};
pub use strips::{forget, join_parts};
pub use table::CellTable;

/// A table has of each cell the greatest numbers of all parts that came in since the step began.
pub fn tables_collect()
    ensures { TablesCollect }
{}

/// The set of a cell holds each state there of each pair that came in.
pub fn merged_sets_hold()
    ensures { MergedSetsHold }
{}

/// And along each frame normal it exceeds some part that came in by less than the factor of a speed.
pub fn merged_sets_exceed()
    ensures { MergedSetsExceed }
{}

#[cfg(test)]
mod cell_rows;
#[cfg(test)]
mod tests;
