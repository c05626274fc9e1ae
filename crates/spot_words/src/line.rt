//! The command line that `clap` is asked to match.

ghost use Rattle.std.specs.Prelude.{◌≡◌, ◌≢◌, List, [], ◌∷◌, map, codes, IfOk, IfSome, IfNone, string_bytes, option_map};
ghost use Rattle.clap.specs.Words.{app_of, found_of, rows_of, matches_of, fault_of, first_of, with_rule, rule_of, new_rule};
ghost use Rattle.spot_words.specs.Line.{spot_app, option_rule, mode_rule, with_options as app_with_options};

use clap::error::ErrorKind;
use clap::{Arg, ArgMatches, Command};
use std::alloc::{AllocError, Global};

fn with_option<'a>(
    alloc: Global,
    command: Command<'a>,
    name: &'a str,
) -> Result<Command<'a>, AllocError>
    ensures { IfOk result (λ c. app_of c ≡ with_rule (app_of command.entry) (option_rule name.entry.now)) }
{
    command.arg(Arg::new(alloc, name).long(name))
}

// The command with an option for each name.
fn with_options<'a>(
    alloc: Global,
    mut command: Command<'a>,
    names: &[&'a str],
) -> Result<Command<'a>, AllocError>
    ensures { IfOk result (λ c. app_of c ≡ app_with_options (app_of command.entry) (map (λ name. name.now) names.now)) }
{
    for name in names {
        command = with_option(alloc, command, name)?;
    }
    Ok(command)
}

fn command<'a>(alloc: Global) -> Result<Command<'a>, AllocError>
    ensures { IfOk result (λ c. app_of c ≡ spot_app) }
{
    let mode = Arg::new(alloc, "mode").required(true);
    let command = Command::new(alloc, "spot").arg(mode)?;
    let names = [
        "steps",
        "problem",
        "ego-acc",
        "ego-speed",
        "ego-length",
        "ego-width",
        "cell-x",
        "cell-y",
        "seed",
        "lanes",
        "movers",
    ];
    with_options(alloc, command, &names)
}

/// The matches of the words, or none where they have none.
pub fn parse<'a>(
    alloc: Global,
    words: &'a Vec<String>,
) -> Result<Option<ArgMatches<'a>>, AllocError>
    ensures none { IfOk result (λ m. IfNone m (fault_of spot_app (map string_bytes words.entry.now.items) ≢ [])) }
    ensures some { IfOk result (λ m. IfSome m (λ m. fault_of spot_app (map string_bytes words.entry.now.items) ≡ [])) }
    ensures rows { IfOk result (λ m. IfSome m (λ m. rows_of (found_of m) ≡ matches_of spot_app (map string_bytes words.entry.now.items))) }
{
    let command = command(alloc)?;
    match command.try_get_matches_from(words.as_slice()) {
        Ok(matches) => Ok(Some(matches)),
        Err(error) => {
            if error.kind() == ErrorKind::OutOfMemory {
                Err(AllocError)
            } else {
                Ok(None)
            }
        }
    }
}

/// The text of an option or of the mode, where it is given.
pub fn option_text<'a>(matches: &ArgMatches<'a>, name: &str) -> Option<&'a str>
    ensures { option_map (λ text. text.now) result ≡ first_of name.now (rows_of (found_of matches.now)) }
{
    matches.get_str(name)
}
