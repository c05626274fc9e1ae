//! What the words stand for.

ghost use Rattle.std.specs.Prelude.{◌≡◌, ℕ, List, map, IfOk, IfSome, IfNone, string_bytes};
ghost use Rattle.clap.specs.Words.{found_of, rows_of, first_of};
ghost use Rattle.spot_words.specs.Words.{number_or, optional_number as optional_number_of, mode_named, StandsFor};
ghost use Rattle.spot_words.specs.Parts.{ReadsEgo, ReadsGrid, ReadsSample, ReadsRows};
ghost use Rattle.spot_terms.specs.declared.command.Command.{Command};
ghost use Rattle.spot_terms.specs.Ranges.{IsCommandInRange};

use crate::line::{option_text, parse};
use crate::numbers::number_in;
use clap::ArgMatches;
use spot_terms::{Command, Task};
use std::alloc::{AllocError, Global};

// The ego's bounds and size.
#[derive(Clone, Copy, Debug, PartialEq, Eq)]
struct Ego {
    acc: u32,
    speed: u32,
    length: u32,
    width: u32,
}

// The sides of a cell of the grid.
#[derive(Clone, Copy, Debug, PartialEq, Eq)]
struct Cell {
    x: u32,
    y: u32,
}

// What a sample is made from.
#[derive(Clone, Copy, Debug, PartialEq, Eq)]
struct Sample {
    seed: u32,
    lanes: u32,
    movers: u32,
}

// The number of an option, or its default.
fn number(matches: &ArgMatches<'_>, name: &str, low: u32, high: u32, default: u32) -> Option<u32>
    ensures { result ≡ number_or low high default (first_of name.now (rows_of (found_of matches.now))) }
{
    match option_text(matches, name) {
        None => Some(default),
        Some(text) => number_in(text, low, high),
    }
}

// The number of an option that has no default.
fn optional_number(matches: &ArgMatches<'_>, name: &str) -> Option<Option<u32>>
    ensures { result ≡ optional_number_of 0 4294967295 (first_of name.now (rows_of (found_of matches.now))) }
{
    match option_text(matches, name) {
        None => Some(None),
        Some(text) => match number_in(text, 0, u32::MAX) {
            None => None,
            Some(number) => Some(Some(number)),
        },
    }
}

fn task_named(text: &str) -> Option<Task>
    ensures { result ≡ mode_named text.now }
{
    match text {
        "predict" => Some(Task::Predict),
        "area" => Some(Task::Area),
        "replay" => Some(Task::Replay),
        "draw" => Some(Task::Draw),
        "sample" => Some(Task::Sample),
        _ => None,
    }
}

fn ego_in(matches: &ArgMatches<'_>) -> Option<Ego>
    ensures some { IfSome result (λ e. ReadsEgo (rows_of (found_of matches.now)) e.acc e.speed e.length e.width) }
    ensures none { IfNone result ((a s l w : ℕ) → ReadsEgo (rows_of (found_of matches.now)) a s l w → ⊥) }
{
    Some(Ego {
        acc: number(matches, "ego-acc", 1, 20, 8)?,
        speed: number(matches, "ego-speed", 1, 100, 50)?,
        length: number(matches, "ego-length", 100, 20_000, 4500)?,
        width: number(matches, "ego-width", 100, 20_000, 1800)?,
    })
}

fn cell_in(matches: &ArgMatches<'_>) -> Option<Cell>
    ensures some { IfSome result (λ c. ReadsGrid (rows_of (found_of matches.now)) c.x c.y) }
    ensures none { IfNone result ((x y : ℕ) → ReadsGrid (rows_of (found_of matches.now)) x y → ⊥) }
{
    Some(Cell {
        x: number(matches, "cell-x", 100, 100_000, 2000)?,
        y: number(matches, "cell-y", 100, 100_000, 1000)?,
    })
}

fn sample_in(matches: &ArgMatches<'_>) -> Option<Sample>
    ensures some { IfSome result (λ s. ReadsSample (rows_of (found_of matches.now)) s.seed s.lanes s.movers) }
    ensures none { IfNone result ((s l m : ℕ) → ReadsSample (rows_of (found_of matches.now)) s l m → ⊥) }
{
    Some(Sample {
        seed: number(matches, "seed", 0, u32::MAX, 1)?,
        lanes: number(matches, "lanes", 1, 8, 3)?,
        movers: number(matches, "movers", 0, 1000, 20)?,
    })
}

fn command_in(matches: &ArgMatches<'_>) -> Option<Command>
    ensures some { IfSome result (λ c. ReadsRows (rows_of (found_of matches.now)) c) }
    ensures none { IfNone result ((c : Command) → ReadsRows (rows_of (found_of matches.now)) c → ⊥) }
{
    let task = task_named(option_text(matches, "mode")?)?;
    let steps = number(matches, "steps", 1, 100, 30)?;
    let problem = optional_number(matches, "problem")?;
    let ego = ego_in(matches)?;
    let cell = cell_in(matches)?;
    let sample = sample_in(matches)?;
    Some(Command {
        task,
        steps,
        problem,
        ego_acc: ego.acc,
        ego_speed: ego.speed,
        ego_length: ego.length,
        ego_width: ego.width,
        cell_x: cell.x,
        cell_y: cell.y,
        seed: sample.seed,
        lanes: sample.lanes,
        movers: sample.movers,
    })
}

/// The command that the words of a command line stand for, the program's own name first; or none where they stand for
/// no command. The mode is one positional; each option takes one text of one to ten ASCII digits, within its range.
pub fn read_words(alloc: Global, words: &Vec<String>) -> Result<Option<Command>, AllocError>
    ensures some { IfOk result (λ read. IfSome read (λ c. StandsFor words.now.items c)) }
    ensures ranges { IfOk result (λ read. IfSome read IsCommandInRange) }
    ensures only { IfOk result (λ read. IfSome read (λ c. (d : Command) → StandsFor words.now.items d → d ≡ c)) }
    ensures none { IfOk result (λ read. IfNone read ((c : Command) → StandsFor words.now.items c → ⊥)) }
{
    match parse(alloc, words)? {
        Some(matches) => Ok(command_in(&matches)),
        None => Ok(None),
    }
}
