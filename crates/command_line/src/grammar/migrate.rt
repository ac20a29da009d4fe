//! The words of `migrate`.
ghost use Rattle.std.specs.Prelude.{◌≡◌, codes, false};
ghost use Rattle.clap.specs.Words.{rule_of};
ghost use Rattle.command_line.specs.Grammar.{IsCommand, between_sides, by_wants, identifier, migrate};

use crate::grammar::common::{flag, json, optional, over_trace, with_arg};
use crate::grammar::diff::{from, to};
use clap::{Arg, Command, value_parser};
use std::alloc::{AllocError, Global};

/// The identifier of the first message.
fn identifier<'a>(alloc: Global) -> Arg<'a>
    ensures rule { rule_of result ≡ identifier }
    ensures local { result.global ≡ false }
{
    let parser = value_parser!(u16).range(0..=i64::from(u16::MAX));
    optional(
        alloc,
        "id",
        "NUMBER",
        "Transaction correlation identifier of the first message, 0 to 65535; without it the one behind the last of the trace [example: 100]",
        parser,
    )
}

/// The command that names two configurations.
fn between_sides<'a>(alloc: Global) -> Result<Command<'a>, AllocError>
    ensures { IsCommand result between_sides }
{
    let alone = Command::new(alloc, "migrate")
        .about("Look for messages that change one configuration into another without a hit")
        .after_help(
            "The messages are a script, each below a remark; hitless confirms them.\nNo frame, whenever it comes, is treated otherwise than by the configuration before or the one after.\nWhere none are found, the frames for which the best that was tried is torn are shown on standard error; there may be a way all the same.\nThe line of --until, and its end, is that of the configuration after.\nStatus: 3 where no way is found; onuctl help statuses has the others\nExample: onuctl migrate up.script --from 4\nExample: onuctl migrate up.script --to new.script > way.script",
        );
    let from_line = with_arg(over_trace(alloc, alone), from(alloc));
    with_arg(from_line, to(alloc))
}

/// The command with what says which way is wanted.
fn by_wants<'a>(alloc: Global) -> Result<Command<'a>, AllocError>
    ensures { IsCommand result by_wants }
{
    let leave = flag(
        alloc,
        "leave",
        "Be done where every frame is treated as after, whatever instances are left",
    );
    let no_ties = flag(
        alloc,
        "no-ties",
        "Let no two mappers, and no two tables, name one port on the way",
    );
    let leaving = with_arg(between_sides(alloc), leave);
    let numbered = with_arg(leaving, identifier(alloc));
    with_arg(numbered, no_ties)
}

pub(super) fn migrate<'a>(alloc: Global) -> Result<Command<'a>, AllocError>
    ensures { IsCommand result migrate }
{
    with_arg(by_wants(alloc), json(alloc))
}
