//! The words of a command line, and the command that they stand for.
#![tactic(auto)]

mod line;
mod numbers;
mod words;

ghost use Rattle.spot_words.specs.Words.{WordsAreOne};

pub use spot_terms::{Command, Task};
pub use words::read_words;

/// The words of a command line stand for one command at most.
pub fn words_stand_for_one_command()
    ensures { WordsAreOne }
{}

#[cfg(test)]
mod tests;
