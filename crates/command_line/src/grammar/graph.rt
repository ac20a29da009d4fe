//! The words of `graph`.
ghost use Rattle.command_line.specs.Grammar.{IsCommand, graph};

use crate::grammar::common::{any_port, over_trace, with_arg};
use clap::Command;
use std::alloc::{AllocError, Global};

pub(super) fn graph<'a>(alloc: Global) -> Result<Command<'a>, AllocError>
    ensures { IsCommand result graph }
{
    let alone = Command::new(alloc, "graph")
        .about("Draw how the managed entities after a trace point to each other, for Graphviz")
        .after_help(
            "Status: 0, 1 or 2; onuctl help statuses says when\nExample: onuctl graph up.script | dot -Tsvg",
        );
    let port = any_port(
        alloc,
        "Port whose entities are shown, 0 to 65535; all without it [example: 257]",
    );
    with_arg(over_trace(alloc, alone), port)
}
