//! The words of `expect`.
ghost use Rattle.std.specs.Prelude.{◌≡◌, codes, false};
ghost use Rattle.clap.specs.Words.{rule_of};
ghost use Rattle.command_line.specs.Grammar.{IsCommand, beginning, by_versions, expect, expectations, optional};

use crate::grammar::common::{json, least, optional, over_trace, with_arg};
use clap::builder::ValueParser;
use clap::{Arg, ArgAction, Command, value_parser};
use std::alloc::{AllocError, Global};

/// The line of the first version that is looked at.
fn from<'a>(alloc: Global) -> Arg<'a>
    ensures rule { rule_of result ≡ optional (codes "from") beginning }
    ensures local { result.global ≡ false }
{
    let parser = value_parser!(u32).range(0..=i64::from(u32::MAX));
    optional(
        alloc,
        "from",
        "LINE",
        "Check behind this line of the trace, 0 for the opening state, and by each version from there on; at the end alone without it [example: 5]",
        parser,
    )
}

/// The file with expectations.
fn expectations<'a>(alloc: Global) -> Arg<'a>
    ensures rule { rule_of result ≡ expectations }
    ensures local { result.global ≡ false }
{
    Arg::new(alloc, "expectations")
        .value_name("FILE")
        .action(ArgAction::Set)
        .value_parser(ValueParser::NonEmptyString)
        .help("Expectations in words, a file; standard input without it [example: up.expected]")
}

/// What the words of an expectation are, in short.
const LANGUAGE: &str =
    "An expectation is a line: PORT FILTER -> ENDING TREATMENT; `#` begins a remark. Numbers are decimal or begin with 0x.
FILTER: any, or tags=0|1|2, pcp=, vid=, tpid=, dei=, outer(..), inner(..), type=, dscp=
ENDING: any, leave, drop, drop REASON or gem GEM
TREATMENT: unchanged, or remove=N outer(pcp= vid= tpid= dei=) inner(..)
It holds where some frame passes the filter, and each that does ends and leaves so.
All mistakes in the words are reported, by line and column, and then nothing is checked.
Status: 3 where one doesn't hold; onuctl help statuses has the others
Example: onuctl expect up.script up.expected";

/// The command that names a trace and versions.
fn by_versions<'a>(alloc: Global) -> Result<Command<'a>, AllocError>
    ensures { IsCommand result by_versions }
{
    let alone = Command::new(alloc, "expect")
        .about(
            "Say of each expectation whether all frames after a trace do as it says, or show one that doesn't",
        )
        .after_help(LANGUAGE);
    with_arg(over_trace(alloc, alone), from(alloc))
}

pub(super) fn expect<'a>(alloc: Global) -> Result<Command<'a>, AllocError>
    ensures { IsCommand result expect }
{
    let bytes = least(
        alloc,
        "Check frames of at least so many bytes, 0 to 9989; of any length without it [example: 60]",
    );
    let long = with_arg(by_versions(alloc), bytes);
    let shown = with_arg(long, json(alloc));
    with_arg(shown, expectations(alloc))
}
