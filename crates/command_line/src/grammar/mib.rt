//! The words of `mib`.
ghost use Rattle.command_line.specs.Grammar.{IsCommand, mib};

use crate::grammar::common::over_traces;
use clap::Command;
use std::alloc::{AllocError, Global};

pub(super) fn mib<'a>(alloc: Global) -> Result<Command<'a>, AllocError>
    ensures { IsCommand result mib }
{
    let alone = Command::new(alloc, "mib")
        .about("Show the managed entities after a trace")
        .after_help(
            "The lines of several traces have the file's name in front.\nStatus: 0, 1 or 2; onuctl help statuses says when\nExample: onuctl mib up.script",
        );
    over_traces(alloc, alone)
}
