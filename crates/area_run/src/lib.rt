//! The drivable area of the ego, step by step.
#![tactic(auto)]

mod children;
mod fault;
mod fill;
mod first;
mod group;
mod limits;
mod plan;
mod put;
mod rooms;
mod rows;
mod run;
mod search;
mod strip;

pub use fault::AreaFault;
pub use limits::limit_passed;
pub use plan::Plan;
pub use run::{AreaRun, Verdict};

#[cfg(test)]
mod tests;
