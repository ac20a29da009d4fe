//! The words of `lint`.
ghost use Rattle.command_line.specs.Grammar.{IsCommand, lint};

use crate::grammar::common::{optional, over_traces, several, with_arg};
use clap::Command;
use clap::builder::ValueParser;
use std::alloc::{AllocError, Global};

pub(super) fn lint<'a>(alloc: Global) -> Result<Command<'a>, AllocError>
    ensures { IsCommand result lint }
{
    let alone = Command::new(alloc, "lint")
        .about("Say what is suspect in a trace and in the entities after it")
        .after_help(
            "The lines of several traces have the file's name in front.\nKinds and their severities: onuctl help findings\nStatus: 3 where a finding is of the severity of --fail-on, or worse\nExample: onuctl lint up.script\nExample: onuctl lint up.script up.onu --ignore not-reached --fail-on warning",
        );
    let ignore = several(
        alloc,
        "ignore",
        "KIND",
        "Leave findings of this kind out; may be given several times [example: not-reached]",
    );
    let fail_on = optional(
        alloc,
        "fail-on",
        "SEVERITY",
        "Severity from which on findings give status 3: error, warning or note; error without it [example: warning]",
        ValueParser::NonEmptyString,
    );
    let with_ignore = with_arg(over_traces(alloc, alone), ignore);
    with_arg(with_ignore, fail_on)
}
