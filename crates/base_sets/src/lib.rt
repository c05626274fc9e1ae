//! The sets that the drivable area is made of, the grid of their cells, and the boxes that the ego's motions stay in.
#![tactic(auto)]

mod ego;
mod grid;
mod sets;

pub use ego::{EgoBounds, EgoStart};
pub use grid::{Grid, OuterBox, outer_box, slots_met};
pub use sets::BaseSet;

#[cfg(test)]
mod tests;
