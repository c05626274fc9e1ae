//! What a step makes of a base set: polygons that hold every state that the ego can be in next.
#![tactic(auto)]

mod children;
mod numbers;
mod ways;

pub use children::{child, plane_child};
pub use numbers::{child_numbers, growths_bound_steps};

#[cfg(test)]
mod child_rows;
#[cfg(test)]
mod tests;
