//! Recorded traffic: discs at the steps at which it was recorded.
#![tactic(auto)]

mod gathering;
mod recorded;
mod runs;

pub use recorded::{Discs, Recorded};
pub use spot_terms::Disc;

#[cfg(test)]
mod tests;
