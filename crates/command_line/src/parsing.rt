//! The words of a command line, read by the program's grammar.
ghost use Rattle.std.specs.Prelude.{◌≡◌, IfErr, IfOk};
ghost use Rattle.clap.specs.Words.{app_of, subcommand_of};
ghost use Rattle.clap.specs.Walk.{texts};
ghost use Rattle.command_words.specs.Asked.{IsAskedBy};
ghost use Rattle.command_words.specs.Range.{IsInRange};
ghost use Rattle.command_line.specs.Grammar.{onuctl};
ghost use Rattle.command_line.specs.Refused.{IsRightlyRefused};

use crate::grammar::{named, onuctl};
use clap::error::ErrorKind;
use clap::{ArgMatches, Command, Error};
use command_words::{Words, complaint, read_matches};
use std::alloc::{AllocError, Global};

/// The name by which the program was called, without its folder.
fn called<'w>(words: &'w [&'w str]) -> &'w str {
    let word = words.first().map_or("onuctl", |word| *word);
    match word.rsplit_once('/') {
        Some((_, name)) if !name.is_empty() => name,
        _ => word,
    }
}

/// Why words that clap takes are refused, with the usage of their command.
fn refusal(alloc: Global, words: &[&str], matches: &ArgMatches<'_>) -> Result<Error, AllocError> {
    let name = matches.subcommand_name().unwrap_or("");
    let mut usage = String::new(alloc);
    let program = called(words);
    write!(usage, "{program} {name}")?;
    let mut command = named(alloc, name)?.bin_name(usage.as_str())?;
    command.error(ErrorKind::ValueValidation, complaint(matches))
}

/// What these words ask for, as a command takes them apart that has the program's grammar.
fn read_by<'a>(
    alloc: Global,
    command: &mut Command<'a>,
    words: &'a [&'a str],
) -> Result<Words<'a>, Error>
    requires { app_of command.old ≡ onuctl }
    ensures asked { IfOk result (IsAskedBy (subcommand_of onuctl (texts words.entry.now))) }
    ensures range { IfOk result IsInRange }
    ensures refused { IfErr result (IsRightlyRefused (texts words.entry.now)) }
{
    let matches = command.try_get_matches_from_mut(words)?;
    match read_matches(alloc, &matches)? {
        Some(asked) => Ok(asked),
        None => Err(refusal(alloc, words, &matches)?),
    }
}

/// What the words of a command line ask for, the program's name first: a command with its options. Err where they ask
/// for the help or the version, which is the error's text then; where they make no sense; and where there is no memory to read
/// them.
pub fn read_words<'a>(alloc: Global, words: &'a [&'a str]) -> Result<Words<'a>, Error>
    ensures asked { IfOk result (IsAskedBy (subcommand_of onuctl (texts words.entry.now))) }
    ensures range { IfOk result IsInRange }
    ensures refused { IfErr result (IsRightlyRefused (texts words.entry.now)) }
{
    let mut command = onuctl(alloc)?;
    read_by(alloc, &mut command, words)
}
