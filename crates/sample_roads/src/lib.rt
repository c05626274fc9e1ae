//! Sample scenarios: a large valid input that is made of a few numbers, so that anyone can try and time the program without
//! data.
#![tactic(auto)]

mod elements;
mod generator;
mod lanes;
mod sample;
mod things;

pub use sample::make;

#[cfg(test)]
mod tests;
