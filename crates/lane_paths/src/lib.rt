//! Gaps of convex polygons, and labels: the least lengths of routes through a network. All lengths are whole µm.
#![tactic(auto)]

mod clearances;
mod closed;
mod frontier;
mod gaps;
mod label_table;
mod lengths;
mod links;
mod shortest_lengths;

pub use gaps::gap;
pub use label_table::{LabelSearch, LabelTable, labels};
pub use lanelets::Network;
pub use lengths::CellLabel;
pub use spot_terms::Pt;

#[cfg(test)]
mod label_rows;
#[cfg(test)]
mod label_tests;
#[cfg(test)]
mod tests;
