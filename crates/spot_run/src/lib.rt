//! The top call: from the words and the bytes of a scenario to the bytes of a report.
#![tactic(auto)]

mod area;
mod draw;
mod load;
mod replay;
mod report;
mod run;
mod sample;
mod traffic;

pub use run::run_spot;
pub use spot_terms::{Code, Status, Which};

#[cfg(test)]
mod tests;
