//! The list of the cells of a network.

ghost use Rattle.std.specs.Prelude.{◌≡◌, ◌≤◌, length};

use crate::cell::Placed;
use spot_terms::MOST_CELLS;
use std::marker::Model;

/// The cells of a network in order, each with where it comes from. There are at most 100,000.
#[derive(Drop)]
pub(crate) struct PlacedCells {
    items: Vec<Placed>,
}

impl Model for PlacedCells {
    ghost use Rattle.std.specs.Prelude.{◌≤◌, List, length};
    ghost use Rattle.spot_terms.specs.declared.limits.TheConstants.{MOST_CELLS};
    ghost use Rattle.lanelets.specs.declared.cell.Placed.{Placed};

    ghost Value = { List Placed };

    ghost view = { λ l. l.items.items };

    ghost invariant = { λ l. length l.items.items ≤ MOST_CELLS };
}

impl PlacedCells {
    /// The list of these cells.
    pub(crate) fn from_vec(items: Vec<Placed>) -> PlacedCells
        requires { length items.items ≤ MOST_CELLS }
        ensures { result ≡ items.items }
    {
        PlacedCells { items }
    }

    /// The cells, in order.
    pub(crate) fn list(&self) -> &[Placed]
        ensures is { result.now ≡ self.now }
        ensures few { length self.now ≤ MOST_CELLS }
    {
        &self.items
    }

    /// How many cells there are.
    pub(crate) fn len(&self) -> u32
        ensures is { result ≡ length self.now }
        ensures few { length self.now ≤ MOST_CELLS }
    {
        self.items.len() as u32
    }
}
