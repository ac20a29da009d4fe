//! The words of `hitless`.
ghost use Rattle.std.specs.Prelude.{◌≡◌, codes, false};
ghost use Rattle.clap.specs.Words.{rule_of};
ghost use Rattle.command_line.specs.Grammar.{IsCommand, beginning, hitless, of_change, valued};

use crate::grammar::common::{any_port, json, least, over_trace, valued, with_arg};
use clap::{Arg, Command, value_parser};
use std::alloc::{AllocError, Global};

/// The line behind which the change begins.
fn from<'a>(alloc: Global) -> Arg<'a>
    ensures rule { rule_of result ≡ valued (codes "from") beginning }
    ensures local { result.global ≡ false }
{
    let parser = value_parser!(u32).range(0..=i64::from(u32::MAX));
    valued(
        alloc,
        "from",
        "LINE",
        "The change begins behind this line of the trace, 0 for the opening state [example: 5]",
        parser,
    )
}

/// The command that names a change.
fn of_change<'a>(alloc: Global) -> Result<Command<'a>, AllocError>
    ensures { IsCommand result of_change }
{
    let alone = Command::new(alloc, "hitless")
        .about(
            "Say which frames a change treats on its way as neither its beginning nor its end does",
        )
        .after_help(
            "A moment between is torn for a frame that leaves there with a GEM port or bytes of neither, or is dropped there and by neither.\nStatus: 3 where a moment is torn; onuctl help statuses has the others\nExample: onuctl hitless up.script --from 5",
        );
    with_arg(over_trace(alloc, alone), from(alloc))
}

pub(super) fn hitless<'a>(alloc: Global) -> Result<Command<'a>, AllocError>
    ensures { IsCommand result hitless }
{
    let port = any_port(
        alloc,
        "Port whose frames are looked at, 0 to 65535; without it each port that a mapper or a table points to on the way [example: 257]",
    );
    let bytes = least(
        alloc,
        "Look at frames of at least so many bytes, 0 to 9989; of any length without it [example: 60]",
    );
    let at_port = with_arg(of_change(alloc), port);
    let long = with_arg(at_port, bytes);
    with_arg(long, json(alloc))
}
