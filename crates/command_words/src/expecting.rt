//! What the words of `expect` ask for.
ghost use Rattle.std.specs.Prelude.{◌≡◌, false, true, IfNone, IfSome};
ghost use Rattle.clap.specs.Words.{found_of, rows_of};
ghost use Rattle.command_words.specs.Asked.{AreInOrder, IsExpect};
ghost use Rattle.command_words.specs.declared.expecting.ExpectWords.{ExpectWords};
ghost use Rattle.command_words.specs.Range.{IsLine, IsShort};

use crate::reading::{is_not_behind, read_optional, read_short, read_trace};
use crate::words::TraceWords;
use clap::ArgMatches;

/// What `expect` is to check, and where.
#[derive(Clone, Copy)]
pub struct ExpectWords<'a> {
    /// The messages that are applied. The last line that is read is that of the last version.
    pub trace: TraceWords<'a>,
    /// The line, from 1, behind which each expectation has to hold, and by each version from there on; 0 for the opening state, or None for the
    /// last version alone.
    pub from: Option<u32>,
    /// The file with the expectations, or None for standard input.
    pub file: Option<&'a str>,
    /// How many bytes a frame has at least, or None for any number.
    pub least: Option<u16>,
    /// Whether it is shown as JSON.
    pub json: bool,
}

/// Whether a line that may be left out isn't behind another, which is the last one where there is none.
fn are_in_order(until: Option<u32>, from: Option<u32>) -> bool
    ensures yes { result ≡ true → AreInOrder until from }
    ensures no { result ≡ false → AreInOrder until from → ⊥ }
{
    match from {
        None => true,
        Some(from) => is_not_behind(until, from),
    }
}

/// What the words behind `expect` ask for; None where the trace is missing, or no number in its range, or the first line that is looked at stands
/// behind the last.
pub(crate) fn read_expect<'a>(given: &ArgMatches<'a>) -> Option<ExpectWords<'a>>
    ensures asked { IfSome result (IsExpect (rows_of (found_of given.now))) }
    ensures range { IfSome result (λ words. IsLine words.from × IsShort words.least
        × IsLine words.trace.until) }
    ensures none { IfNone result ((words : ExpectWords)
        → IsExpect (rows_of (found_of given.now)) words
        → IsLine words.from → IsShort words.least → IsLine words.trace.until → ⊥) }
{
    let trace = read_trace(given)?;
    let from = read_optional(given, "from")?;
    if !are_in_order(trace.until, from) {
        return None;
    }
    Some(ExpectWords {
        trace,
        from,
        file: given.get_str("expectations"),
        least: read_short(given, "least")?,
        json: given.get_flag("json"),
    })
}
