//! The words of `rules`.
ghost use Rattle.command_line.specs.Grammar.{IsCommand, rules};

use crate::grammar::common::{over_traces, port, with_arg};
use clap::Command;
use std::alloc::{AllocError, Global};

pub(super) fn rules<'a>(alloc: Global) -> Result<Command<'a>, AllocError>
    ensures { IsCommand result rules }
{
    let alone = Command::new(alloc, "rules")
        .about("Show the VLAN tagging table in force at a port after a trace")
        .after_help(
            "The lines of several traces have the file's name in front.\nStatus: 0, 1 or 2; onuctl help statuses says when\nExample: onuctl rules up.script --port 257",
        );
    with_arg(over_traces(alloc, alone), port(alloc))
}
