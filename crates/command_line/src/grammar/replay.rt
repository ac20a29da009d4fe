//! The words of `replay`.
ghost use Rattle.command_line.specs.Grammar.{IsCommand, replay};

use crate::grammar::common::{json, script, with_arg};
use clap::Command;
use std::alloc::{AllocError, Global};

pub(super) fn replay<'a>(alloc: Global) -> Result<Command<'a>, AllocError>
    ensures { IsCommand result replay }
{
    let alone = Command::new(alloc, "replay")
        .about("Answer a script, line by line, on standard output")
        .after_help(
            "Status: 0, 1 or 2; onuctl help statuses says when\nExample: onuctl replay examples/replay/one_frame.script",
        );
    let shown = with_arg(Ok(alone), json(alloc));
    with_arg(shown, script(alloc))
}
