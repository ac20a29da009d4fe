//! The words of `explain`.
ghost use Rattle.std.specs.Prelude.{◌≡◌, false};
ghost use Rattle.clap.specs.Words.{rule_of};
ghost use Rattle.command_line.specs.Grammar.{IsCommand, all, bytes, explain, of_bytes};

use crate::grammar::common::{json, numbered, optional, over_trace, port, with_arg};
use clap::builder::ValueParser;
use clap::{Arg, ArgAction, Command};
use std::alloc::{AllocError, Global};

/// Whether each entry is shown that fails.
fn all<'a>(alloc: Global) -> Arg<'a>
    ensures rule { rule_of result ≡ all }
    ensures local { result.global ≡ false }
{
    Arg::new(alloc, "all")
        .long("all")
        .action(ArgAction::SetTrue)
        .help("Show each entry that fails, not only how many; has no value [example: --all]")
}

/// The bytes of a frame.
fn bytes<'a>(alloc: Global) -> Arg<'a>
    ensures rule { rule_of result ≡ bytes }
    ensures local { result.global ≡ false }
{
    Arg::new(alloc, "bytes")
        .value_name("HEX")
        .action(ArgAction::Set)
        .value_parser(ValueParser::String)
        .help("Bytes of the frame, from the destination address on, in hexadecimal digits")
}

/// The command that names a frame by its bytes.
fn of_bytes<'a>(alloc: Global) -> Result<Command<'a>, AllocError>
    ensures { IsCommand result of_bytes }
{
    let alone = Command::new(alloc, "explain")
        .about("Say step by step what becomes of one frame after a trace")
        .after_help(
            "The frame is given by its bytes, or by a capture and its number there.\nStatus: 0, 1 or 2; onuctl help statuses says when\nExample: onuctl explain up.script --port 257 0200000000010200000000028100a0640800\nExample: onuctl explain up.script --port 257 --frames up.pcap --frame 7",
        );
    let shown = with_arg(over_trace(alloc, alone), json(alloc));
    let at_port = with_arg(shown, port(alloc));
    let each = with_arg(at_port, all(alloc));
    with_arg(each, bytes(alloc))
}

pub(super) fn explain<'a>(alloc: Global) -> Result<Command<'a>, AllocError>
    ensures { IsCommand result explain }
{
    let frames = optional(
        alloc,
        "frames",
        "FILE",
        "Capture with the frame, a file in libpcap's classic format or in pcapng [example: up.pcap]",
        ValueParser::NonEmptyString,
    );
    let frame = numbered(
        alloc,
        "frame",
        "NUMBER",
        "Number of the frame in the capture, from 1 [example: 7]",
    );
    let of_capture = with_arg(of_bytes(alloc), frames);
    with_arg(of_capture, frame)
}
