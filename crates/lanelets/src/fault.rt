//! Why there is no network.

use thiserror::Error;

/// Why lanelets have no network.
#[derive(Clone, Copy, Debug, PartialEq, Eq, Error)]
pub enum NetFault {
    /// So many cells, which is more than 100,000.
    #[error("{0} cells are too many")]
    TooManyCells(u64),
    /// The lanelet with this id, the first such, has a left and a right point that differ by more than 100 m in a
    /// coordinate.
    #[error("lanelet {0} is too wide")]
    LaneTooWide(u32),
    #[error("out of memory")]
    Memory,
}
