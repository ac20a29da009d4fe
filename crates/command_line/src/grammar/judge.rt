//! The words of `judge`.
ghost use Rattle.std.specs.Prelude.{◌≡◌, false};
ghost use Rattle.clap.specs.Words.{rule_of};
ghost use Rattle.command_line.specs.Grammar.{IsCommand, all, allow_strays, allow_unfinished, by_settings, coverage, history, judge, least, modelled, most, padded, repeats, start, unordered};

use crate::grammar::common::{flag, json, least, numbered, optional, with_arg};
use clap::builder::ValueParser;
use clap::{Arg, ArgAction, Command};
use std::alloc::{AllocError, Global};

/// Whether the contents of replies are looked at only where the model has the class.
fn modelled<'a>(alloc: Global) -> Arg<'a>
    ensures rule { rule_of result ≡ modelled }
    ensures local { result.global ≡ false }
{
    Arg::new(alloc, "modelled")
        .long("modelled")
        .action(ArgAction::SetTrue)
        .help(
            "Compare contents of replies only for a MIB reset and on classes 130, 171, 266 and 268, without read-only values and what the table holds; has no value [example: --modelled]",
        )
}

/// Whether each frame is judged by itself.
fn unordered<'a>(alloc: Global) -> Arg<'a>
    ensures rule { rule_of result ≡ unordered }
    ensures local { result.global ≡ false }
{
    Arg::new(alloc, "unordered")
        .long("unordered")
        .action(ArgAction::SetTrue)
        .help(
            "Judge each frame by itself, for ports that several lanes serve; has no value [example: --unordered]",
        )
}

/// Whether a frame that was never sent, or has left before, may leave.
fn allow_strays<'a>(alloc: Global) -> Arg<'a>
    ensures rule { rule_of result ≡ allow_strays }
    ensures local { result.global ≡ false }
{
    Arg::new(alloc, "allow-strays")
        .long("allow-strays")
        .action(ArgAction::SetTrue)
        .help(
            "Take strays, frames that leave and that no open frame can be; one that the unit makes up or sends twice isn't found then; has no value [example: --allow-strays]",
        )
}

/// Whether a short frame may be seen with zeros behind it.
fn padded<'a>(alloc: Global) -> Arg<'a>
    ensures rule { rule_of result ≡ padded }
    ensures local { result.global ≡ false }
{
    Arg::new(alloc, "padded")
        .long("padded")
        .action(ArgAction::SetTrue)
        .help(
            "Take zeros behind a frame that leaves with fewer than 68 bytes, up to 68, as a wire pads it; zeros that the unit adds aren't found then; has no value [example: --padded]",
        )
}

/// Whether a history without its end is explained too.
fn allow_unfinished<'a>(alloc: Global) -> Arg<'a>
    ensures rule { rule_of result ≡ allow_unfinished }
    ensures local { result.global ≡ false }
{
    Arg::new(alloc, "allow-unfinished")
        .long("allow-unfinished")
        .action(ArgAction::SetTrue)
        .help(
            "Take a history without an end line, e; one that was cut isn't found then; has no value [example: --allow-unfinished]",
        )
}

/// Whether a message that is sent twice is carried out once.
fn repeats<'a>(alloc: Global) -> Arg<'a>
    ensures rule { rule_of result ≡ repeats }
    ensures local { result.global ≡ false }
{
    Arg::new(alloc, "repeats")
        .long("repeats")
        .action(ArgAction::SetTrue)
        .help(
            "Take a message with the bytes of the one before it as not carried out, and answered from memory or not at all; a unit that passes over it, or carries it out where no reply shows that, isn't found then; has no value [example: --repeats]",
        )
}

/// Whether every deviation is listed.
fn all<'a>(alloc: Global) -> Arg<'a>
    ensures rule { rule_of result ≡ all }
    ensures local { result.global ≡ false }
{
    Arg::new(alloc, "all")
        .long("all")
        .action(ArgAction::SetTrue)
        .help(
            "List every deviation; behind each the judge goes on as if the unit had been right there; has no value [example: --all]",
        )
}

/// How many deviations are listed at most.
fn most<'a>(alloc: Global) -> Arg<'a>
    ensures rule { rule_of result ≡ most }
    ensures local { result.global ≡ false }
{
    numbered(
        alloc,
        "most",
        "N",
        "How many deviations --all lists at most, from 1; 100 without it [example: 20]",
    )
}

/// Whether the coverage of an explained history is listed.
fn coverage<'a>(alloc: Global) -> Arg<'a>
    ensures rule { rule_of result ≡ coverage }
    ensures local { result.global ≡ false }
{
    flag(
        alloc,
        "coverage",
        "Behind an explained history list which classes of frames were tried and which not, with a frame to send for each; has no value [example: --coverage]",
    )
}

/// How many bytes a frame has at least whose class is listed.
fn least_covered<'a>(alloc: Global) -> Arg<'a>
    ensures rule { rule_of result ≡ least }
    ensures local { result.global ≡ false }
{
    least(
        alloc,
        "List with --coverage what frames of at least so many bytes can have, 0 to 9989; of any length without it [example: 60]",
    )
}

/// The script that is carried out before the history.
fn start<'a>(alloc: Global) -> Arg<'a>
    ensures rule { rule_of result ≡ start }
    ensures local { result.global ≡ false }
{
    optional(
        alloc,
        "start",
        "FILE",
        "Script, or words for one, whose messages the unit had carried out before the first line, a file; its frames are passed over [example: up.script]",
        ValueParser::NonEmptyString,
    )
}

/// The file with a history.
fn history<'a>(alloc: Global) -> Arg<'a>
    ensures rule { rule_of result ≡ history }
    ensures local { result.global ≡ false }
{
    Arg::new(alloc, "history")
        .value_name("FILE")
        .action(ArgAction::Set)
        .value_parser(ValueParser::NonEmptyString)
        .help("History, a file; standard input without it [example: bench.history]")
}

/// The command with what says how a history is judged.
fn by_settings<'a>(alloc: Global) -> Result<Command<'a>, AllocError>
    ensures { IsCommand result by_settings }
{
    let alone = Command::new(alloc, "judge")
        .about("Say whether a right unit may have done what a history says")
        .after_help(
            "Status: 0 if it may, 3 if not, 4 if it may so far, 1 or 2; onuctl help statuses says when\nExample: onuctl judge bench.history",
        );
    let of_model = with_arg(Ok(alone), modelled(alloc));
    let of_order = with_arg(of_model, unordered(alloc));
    let of_strays = with_arg(of_order, allow_strays(alloc));
    let of_padding = with_arg(of_strays, padded(alloc));
    with_arg(of_padding, allow_unfinished(alloc))
}

pub(super) fn judge<'a>(alloc: Global) -> Result<Command<'a>, AllocError>
    ensures { IsCommand result judge }
{
    let of_repeats = with_arg(by_settings(alloc), repeats(alloc));
    let of_start = with_arg(of_repeats, start(alloc));
    let of_all = with_arg(of_start, all(alloc));
    let of_most = with_arg(of_all, most(alloc));
    let of_coverage = with_arg(of_most, coverage(alloc));
    let of_bytes = with_arg(of_coverage, least_covered(alloc));
    let shown = with_arg(of_bytes, json(alloc));
    with_arg(shown, history(alloc))
}
