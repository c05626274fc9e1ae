//! Drawings of a step of the drivable area, as SVG: the box that the ego's motions stay in, what is occupied, and the base
//! sets. Numbers are whole µm, and y is drawn as its negative, so that it grows upwards. No call takes memory.
#![tactic(auto)]

mod drawing;
mod lines;
mod shape;

pub use drawing::draw;
pub use shape::Shape;

#[cfg(test)]
mod tests;
