//! The network of cells that lanelets make.
#![tactic(auto)]

ghost use Rattle.spot_terms.specs.PartCounts.{PartCountsAre};

mod ahead;
mod boxes;
mod bridges;
mod building;
mod cell;
mod classes;
mod columns;
mod counts;
mod fault;
mod kept;
mod lanes;
mod levels;
mod links;
mod making;
mod nearby;
mod network;
mod numbers;
mod pairs;
mod piece;
mod placed;
mod portals;
mod search;
mod steps;
mod widths;

pub use building::build;
pub use cell::Cell;
pub use convex_poly::Poly;
pub use fault::NetFault;
pub use network::Network;
pub use search::CellList;
pub use spot_terms::Pt;

/// The parts into which a piece of a lanelet is cut are the fewest of 2 m each that are at least as long as both of its
/// sides.
pub fn part_counts_are()
    ensures { PartCountsAre }
{}

#[cfg(test)]
mod tests;
