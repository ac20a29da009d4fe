//! The words of `decode`.
ghost use Rattle.std.specs.Prelude.{◌≡◌, false};
ghost use Rattle.clap.specs.Words.{rule_of};
ghost use Rattle.command_line.specs.Grammar.{IsCommand, decode, source};

use crate::grammar::common::{json, scripts, with_arg};
use clap::{Arg, ArgAction, Command};
use std::alloc::{AllocError, Global};

/// Whether lines are said in the words that `encode` reads.
fn source<'a>(alloc: Global) -> Arg<'a>
    ensures rule { rule_of result ≡ source }
    ensures local { result.global ≡ false }
{
    Arg::new(alloc, "source")
        .long("source")
        .action(ArgAction::SetTrue)
        .help(
            "Write the lines of a script in the words that encode reads; has no value [example: --source]",
        )
}

pub(super) fn decode<'a>(alloc: Global) -> Result<Command<'a>, AllocError>
    ensures { IsCommand result decode }
{
    let alone = Command::new(alloc, "decode")
        .about("Say what each line of a script or of its answers means")
        .after_help(
            "The lines of several files have the file's name in front; --source writes it as a remark.\nStatus: 0, 1 or 2; onuctl help statuses says when\nExample: onuctl decode examples/replay/one_frame.script",
        );
    let of_words = with_arg(Ok(alone), source(alloc));
    let shown = with_arg(of_words, json(alloc));
    with_arg(shown, scripts(alloc))
}
