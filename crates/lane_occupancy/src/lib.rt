//! Where a participant that follows lanes can be: reach lengths, and lane polygons, each with the first interval that it
//! is reached in. All lengths are whole µm.
#![tactic(auto)]

mod intervals;
mod polygons;
mod reach;

ghost use Rattle.lane_occupancy.specs.Laws.{LaneLaws};

pub use lane_paths::{LabelTable, Network};
pub use polygons::{LanePoly, LanePolys, lane_polys, reached_cells};
pub use reach::reach_length;
pub use spot_terms::AccStart;

/// Lane motions keep the laws of pieces, portals and lane polygons.
pub fn lane_motions_keep_their_laws()
    ensures { LaneLaws }
{}

#[cfg(test)]
mod tests;
