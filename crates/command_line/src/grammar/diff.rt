//! The words of `diff`.
ghost use Rattle.std.specs.Prelude.{◌≡◌, codes, false};
ghost use Rattle.clap.specs.Words.{rule_of};
ghost use Rattle.clap.specs.declared.builder.value_parser.ValueParser.TheVariants.{NonEmptyString};
ghost use Rattle.command_line.specs.Grammar.{IsCommand, beginning, diff, of_sides, optional};

use crate::grammar::common::{any_port, json, least, optional, over_trace, with_arg};
use clap::builder::ValueParser;
use clap::{Arg, Command, value_parser};
use std::alloc::{AllocError, Global};

/// The line behind which the configuration before stands.
pub(super) fn from<'a>(alloc: Global) -> Arg<'a>
    ensures rule { rule_of result ≡ optional (codes "from") beginning }
    ensures local { result.global ≡ false }
{
    let parser = value_parser!(u32).range(0..=i64::from(u32::MAX));
    optional(
        alloc,
        "from",
        "LINE",
        "Before: behind this line of the trace, 0 for the opening state; at its end without it [example: 40]",
        parser,
    )
}

/// The trace of the configuration after.
pub(super) fn to<'a>(alloc: Global) -> Arg<'a>
    ensures rule { rule_of result ≡ optional (codes "to") NonEmptyString }
    ensures local { result.global ≡ false }
{
    optional(
        alloc,
        "to",
        "FILE",
        "After: what this trace leads to, a file; without it the same trace, which then wants --from [example: new.script]",
        ValueParser::NonEmptyString,
    )
}

/// The command that names two configurations.
fn of_sides<'a>(alloc: Global) -> Result<Command<'a>, AllocError>
    ensures { IsCommand result of_sides }
{
    let alone = Command::new(alloc, "diff")
        .about("Say which frames two configurations treat differently, with a frame of each kind")
        .after_help(
            "Where none is shown, every frame leaves with the same bytes by the same GEM port, or is dropped for the same reason.\nThe line of --until, and its end, is that of the configuration after.\nStatus: 3 where they differ; onuctl help statuses has the others\nExample: onuctl diff up.script --from 4\nExample: onuctl diff up.script --to new.script",
        );
    let from_line = with_arg(over_trace(alloc, alone), from(alloc));
    with_arg(from_line, to(alloc))
}

pub(super) fn diff<'a>(alloc: Global) -> Result<Command<'a>, AllocError>
    ensures { IsCommand result diff }
{
    let port = any_port(
        alloc,
        "Port whose frames are compared, 0 to 65535; without it each port that a mapper or a table of either points to [example: 257]",
    );
    let bytes = least(
        alloc,
        "Compare frames of at least so many bytes, 0 to 9989; of any length without it [example: 60]",
    );
    let at_port = with_arg(of_sides(alloc), port);
    let long = with_arg(at_port, bytes);
    with_arg(long, json(alloc))
}
