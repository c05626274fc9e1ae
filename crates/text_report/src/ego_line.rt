//! What the line of the ego shows.

use base_sets::{EgoBounds, EgoStart, Grid};

/// The ego of a planning problem: the problem's id, the ego's bounds, the grid of its base sets, and where it starts.
#[derive(Clone, Copy, Debug, PartialEq, Eq)]
pub struct EgoLine {
    pub problem: u32,
    pub e: EgoBounds,
    pub grid: Grid,
    pub s: EgoStart,
}
