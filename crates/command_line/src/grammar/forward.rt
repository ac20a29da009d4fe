//! The words of `forward`.
ghost use Rattle.std.specs.Prelude.{◌≡◌, false};
ghost use Rattle.clap.specs.Words.{rule_of};
ghost use Rattle.command_line.specs.Grammar.{IsCommand, dropped, forward, out, verdicts};

use crate::grammar::common::{json, optional, over_files, strict, until, with_arg};
use clap::builder::ValueParser;
use clap::{Arg, Command};
use std::alloc::{AllocError, Global};

/// The capture of what leaves.
fn out<'a>(alloc: Global) -> Arg<'a>
    ensures rule { rule_of result ≡ out }
    ensures local { result.global ≡ false }
{
    optional(
        alloc,
        "out",
        "FILE",
        "Write the frames that leave to this file, as pcapng; - is standard output [example: left.pcapng]",
        ValueParser::NonEmptyString,
    )
}

/// The capture of what is dropped.
fn dropped<'a>(alloc: Global) -> Arg<'a>
    ensures rule { rule_of result ≡ dropped }
    ensures local { result.global ≡ false }
{
    optional(
        alloc,
        "dropped",
        "FILE",
        "Write the frames that are dropped to this file, as pcapng; - is standard output [example: dropped.pcapng]",
        ValueParser::NonEmptyString,
    )
}

/// The lines of verdicts.
fn verdicts<'a>(alloc: Global) -> Arg<'a>
    ensures rule { rule_of result ≡ verdicts }
    ensures local { result.global ≡ false }
{
    optional(
        alloc,
        "verdicts",
        "FILE",
        "Write a line for each frame to this file: its GEM port and tags, or why it is dropped; - is standard output [example: up.verdicts]",
        ValueParser::NonEmptyString,
    )
}

pub(super) fn forward<'a>(alloc: Global) -> Result<Command<'a>, AllocError>
    ensures { IsCommand result forward }
{
    let alone = Command::new(alloc, "forward")
        .about("Forward the frames of a capture after a trace, and say what becomes of each")
        .after_help(
            "Status: 0, 1 or 2; onuctl help statuses says when\nExample: onuctl forward up.script --frames up.pcap --port 257 --out left.pcapng",
        );
    let to_capture = with_arg(over_files(alloc, alone), out(alloc));
    let to_captures = with_arg(to_capture, dropped(alloc));
    let to_files = with_arg(to_captures, verdicts(alloc));
    let up_to = with_arg(to_files, until(alloc));
    let strictly = with_arg(up_to, strict(alloc));
    with_arg(strictly, json(alloc))
}
