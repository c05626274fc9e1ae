//! The ego of a command's planning problem, and the report of a run of its drivable area, line by line: each step as soon
//! as it is computed.
#![tactic(auto)]

mod area;
mod last;
mod problem;
mod recording;
mod total;

pub use area::write_area;
pub use last::go_to_last;
pub use problem::ego_of;
pub use recording::{Recording, Unrecorded};
pub use total::{Total, total_of};

#[cfg(test)]
mod tests;
