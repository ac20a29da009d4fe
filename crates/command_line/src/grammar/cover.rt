//! The words of `cover`.
ghost use Rattle.std.specs.Prelude.{◌≡◌, false};
ghost use Rattle.clap.specs.Words.{rule_of};
ghost use Rattle.command_line.specs.Grammar.{IsCommand, cover, out};

use crate::grammar::common::{any_port, flag, json, least, optional, over_trace, with_arg};
use clap::builder::ValueParser;
use clap::{Arg, Command};
use std::alloc::{AllocError, Global};

/// The capture of the frames.
fn out<'a>(alloc: Global) -> Arg<'a>
    ensures rule { rule_of result ≡ out }
    ensures local { result.global ≡ false }
{
    optional(
        alloc,
        "out",
        "FILE",
        "Write the frames of one port to this file too, as pcapng, in the same order; it gets its name once it is whole; - is standard output [example: sent.pcapng]",
        ValueParser::NonEmptyString,
    )
}

pub(super) fn cover<'a>(alloc: Global) -> Result<Command<'a>, AllocError>
    ensures { IsCommand result cover }
{
    let alone = Command::new(alloc, "cover")
        .about(
            "List which frames a test must send after a trace: one for each entry that is used, with each way to end",
        )
        .after_help(
            "Whatever frame comes in has a class of the list: what the port's table uses for it, and how it ends.\nStatus: 0, 1 or 2; onuctl help statuses says when\nExample: onuctl cover up.script --least 60 --out sent.pcapng",
        );
    let script = flag(
        alloc,
        "script",
        "Write a script, which replay answers behind the trace; has no value [example: --script]",
    );
    let port = any_port(
        alloc,
        "Port whose frames are listed, 0 to 65535; without it each port that a mapper or a table points to [example: 257]",
    );
    let bytes = least(
        alloc,
        "List what frames of at least so many bytes can have, 0 to 9989; of any length without it [example: 60]",
    );
    let at_port = with_arg(over_trace(alloc, alone), port);
    let long = with_arg(at_port, bytes);
    let scripted = with_arg(long, script);
    let to_capture = with_arg(scripted, out(alloc));
    with_arg(to_capture, json(alloc))
}
