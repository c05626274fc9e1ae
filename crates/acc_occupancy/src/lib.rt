//! Octagons that hold every motion of a participant, with its body.
#![tactic(auto)]

mod line;
mod reach;
mod run;

pub use reach::{interval_numbers, reach_number};
pub use run::AccRun;
pub use spot_terms::AccStart;

#[cfg(test)]
mod tests;
