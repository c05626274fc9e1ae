//! Cells.

use convex_poly::Poly;
use spot_terms::{Origin, Pt};

/// A cell of the network: the hull of its entry and its exit, each a left and a right point, in µm.
#[derive(Drop)]
pub struct Cell {
    /// The id of the lanelet that it is a part of; of a bridge, of the lanelet that it leads from.
    pub lane: u32,
    pub poly: Poly,
    /// What is crossed by going ahead into the cell.
    pub entry: (Pt, Pt),
    pub exit: (Pt, Pt),
}

/// A cell, and where it comes from.
#[derive(Drop)]
pub(crate) struct Placed {
    pub(crate) origin: Origin,
    pub(crate) cell: Cell,
}
