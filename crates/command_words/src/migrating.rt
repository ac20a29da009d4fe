//! What the words of `migrate` ask for.
ghost use Rattle.std.specs.Prelude.{◌≡◌, false, true, IfNone, IfSome};
ghost use Rattle.clap.specs.Words.{found_of, rows_of};
ghost use Rattle.command_words.specs.Asked.{AreSides, IsMigrate};
ghost use Rattle.command_words.specs.declared.migrating.MigrateWords.{MigrateWords};
ghost use Rattle.command_words.specs.Range.{IsLine, IsShort};

use crate::reading::{are_sides, read_optional, read_short, read_trace};
use crate::words::TraceWords;
use clap::ArgMatches;

/// Between which configurations `migrate` is to look for a way, and for which.
#[derive(Clone, Copy)]
pub struct MigrateWords<'a> {
    /// The messages that lead to the configuration before; and to the one after, where no other trace does. The last line that is read is
    /// that of the configuration after.
    pub trace: TraceWords<'a>,
    /// The last line that is read for the configuration before, from 1; 0 for none, or None for all.
    pub from: Option<u32>,
    /// The file with the messages that lead to the configuration after, a script, or None where it is the same.
    pub to: Option<&'a str>,
    /// Whether instances may stay that the configuration after doesn't have.
    pub leave: bool,
    /// The transaction correlation identifier of the first message, or None for the one behind the last of the trace.
    pub identifier: Option<u16>,
    /// Whether no two mappers, or tables, may name one port on the way.
    pub no_ties: bool,
    /// Whether it is shown as JSON.
    pub json: bool,
}

/// What the words behind `migrate` ask for; None where the trace is missing, or no number in its range, or they don't name two configurations.
pub(crate) fn read_migrate<'a>(given: &ArgMatches<'a>) -> Option<MigrateWords<'a>>
    ensures asked { IfSome result (IsMigrate (rows_of (found_of given.now))) }
    ensures range { IfSome result (λ words. IsLine words.from
        × IsShort words.identifier × IsLine words.trace.until) }
    ensures none { IfNone result ((words : MigrateWords)
        → IsMigrate (rows_of (found_of given.now)) words
        → IsLine words.from → IsShort words.identifier → IsLine words.trace.until → ⊥) }
{
    let trace = read_trace(given)?;
    let from = read_optional(given, "from")?;
    let to = given.get_str("to");
    if !are_sides(to, from, trace.until) {
        return None;
    }
    Some(MigrateWords {
        trace,
        from,
        to,
        leave: given.get_flag("leave"),
        identifier: read_short(given, "id")?,
        no_ties: given.get_flag("no-ties"),
        json: given.get_flag("json"),
    })
}
