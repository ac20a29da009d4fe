//! What several commands have in common: how an option is made, and the options that stand in several.
ghost use Rattle.std.specs.Prelude.{◌≡◌, Ok, false};
ghost use Rattle.clap.specs.Words.{App, Rule, Text, new_app, rule_of, with_rule};
ghost use Rattle.clap.specs.declared.builder.value_parser.ValueParser.TheVariants.{NonEmptyString};
ghost use Rattle.command_line.specs.Grammar.{IsCommand, any_port, flag, json, least, numbered, optional, over_files, over_trace, over_traces, port, script, scripts, several, strict, trace, traces, until, valued};

use clap::builder::ValueParser;
use clap::{Arg, ArgAction, Command, value_parser};
use std::alloc::{AllocError, Global};

/// The command with this argument too. Err where what came before had no memory, or this has none.
pub(super) fn with_arg<'a>(
    command: Result<Command<'a>, AllocError>,
    arg: Arg<'a>,
) -> Result<Command<'a>, AllocError>
    ensures { (app : App) (rule : Rule) → IsCommand command.entry app → rule_of arg.entry ≡ rule
        → arg.entry.global ≡ false → IsCommand result (with_rule app rule) }
{
    command?.arg(arg)
}

/// A required option with a value, by its name, which is its id too.
pub(super) fn valued<'a>(
    alloc: Global,
    name: &'a str,
    value: &'a str,
    help: &'a str,
    parser: ValueParser<'a>,
) -> Arg<'a>
    ensures rule { rule_of result ≡ valued name.entry.now parser.entry }
    ensures local { result.global ≡ false }
{
    Arg::new(alloc, name)
        .long(name)
        .value_name(value)
        .required(true)
        .action(ArgAction::Set)
        .value_parser(parser)
        .help(help)
}

/// An option with the name of a file, which isn't empty.
pub(super) fn file<'a>(alloc: Global, name: &'a str, help: &'a str) -> Arg<'a>
    ensures rule { rule_of result ≡ valued name.entry.now NonEmptyString }
    ensures local { result.global ≡ false }
{
    valued(alloc, name, "FILE", help, ValueParser::NonEmptyString)
}

/// An option with a value, by its name, which is its id too. It may be left out.
pub(super) fn optional<'a>(
    alloc: Global,
    name: &'a str,
    value: &'a str,
    help: &'a str,
    parser: ValueParser<'a>,
) -> Arg<'a>
    ensures rule { rule_of result ≡ optional name.entry.now parser.entry }
    ensures local { result.global ≡ false }
{
    Arg::new(alloc, name)
        .long(name)
        .value_name(value)
        .action(ArgAction::Set)
        .value_parser(parser)
        .help(help)
}

/// An option that may be given several times, with a text that isn't empty.
pub(super) fn several<'a>(alloc: Global, name: &'a str, value: &'a str, help: &'a str) -> Arg<'a>
    ensures rule { rule_of result ≡ several name.entry.now }
    ensures local { result.global ≡ false }
{
    Arg::new(alloc, name)
        .long(name)
        .value_name(value)
        .action(ArgAction::Append)
        .value_parser(ValueParser::NonEmptyString)
        .help(help)
}

/// An option without a value.
pub(super) fn flag<'a>(alloc: Global, name: &'a str, help: &'a str) -> Arg<'a>
    ensures rule { rule_of result ≡ flag name.entry.now }
    ensures local { result.global ≡ false }
{
    Arg::new(alloc, name)
        .long(name)
        .action(ArgAction::SetTrue)
        .help(help)
}

/// An option with the number of a line or of a frame, from 1. It may be left out.
pub(super) fn numbered<'a>(alloc: Global, name: &'a str, value: &'a str, help: &'a str) -> Arg<'a>
    ensures rule { rule_of result ≡ numbered name.entry.now }
    ensures local { result.global ≡ false }
{
    let parser = value_parser!(u32).range(1..=i64::from(u32::MAX));
    optional(alloc, name, value, help, parser)
}

/// The help of an option with this limit says it in words: a frame of so many bytes stands whole in a line of a script and of a history.
const MOST_BYTES: i64 = 9989;

/// A port that may be left out.
pub(super) fn any_port<'a>(alloc: Global, help: &'a str) -> Arg<'a>
    ensures rule { rule_of result ≡ any_port }
    ensures local { result.global ≡ false }
{
    let parser = value_parser!(u16).range(0..=i64::from(u16::MAX));
    optional(alloc, "port", "PORT", help, parser)
}

/// How many bytes a frame has at least.
pub(super) fn least<'a>(alloc: Global, help: &'a str) -> Arg<'a>
    ensures rule { rule_of result ≡ least }
    ensures local { result.global ≡ false }
{
    let parser = value_parser!(u16).range(0..=MOST_BYTES);
    optional(alloc, "least", "BYTES", help, parser)
}

/// The script whose messages are applied.
pub(super) fn trace<'a>(alloc: Global) -> Arg<'a>
    ensures rule { rule_of result ≡ trace }
    ensures local { result.global ≡ false }
{
    Arg::new(alloc, "trace")
        .value_name("TRACE")
        .required(true)
        .action(ArgAction::Set)
        .value_parser(ValueParser::NonEmptyString)
        .help(
            "Script, or words for one, whose messages are applied, a file; also behind --trace [example: up.script]",
        )
}

/// The scripts whose messages are applied, those of each by themselves.
pub(super) fn traces<'a>(alloc: Global) -> Arg<'a>
    ensures rule { rule_of result ≡ traces }
    ensures local { result.global ≡ false }
{
    Arg::new(alloc, "trace")
        .value_name("TRACE")
        .required(true)
        .action(ArgAction::Append)
        .value_parser(ValueParser::NonEmptyString)
        .help(
            "Scripts, or words for them, whose messages are applied, a file each; also behind --trace [example: up.script]",
        )
}

/// The file with a script, for a command that reads standard input without it.
pub(super) fn script<'a>(alloc: Global) -> Arg<'a>
    ensures rule { rule_of result ≡ script }
    ensures local { result.global ≡ false }
{
    Arg::new(alloc, "script")
        .value_name("FILE")
        .action(ArgAction::Set)
        .value_parser(ValueParser::NonEmptyString)
        .help("Script, or words for one, a file; standard input without it [example: up.script]")
}

/// The files with scripts, for a command that reads standard input without one.
pub(super) fn scripts<'a>(alloc: Global) -> Arg<'a>
    ensures rule { rule_of result ≡ scripts }
    ensures local { result.global ≡ false }
{
    Arg::new(alloc, "script")
        .value_name("FILE")
        .action(ArgAction::Append)
        .value_parser(ValueParser::NonEmptyString)
        .help(
            "Scripts, or words for them, a file each; standard input without one [example: up.script]",
        )
}

pub(super) fn port<'a>(alloc: Global) -> Arg<'a>
    ensures rule { rule_of result ≡ port }
    ensures local { result.global ≡ false }
{
    valued(
        alloc,
        "port",
        "PORT",
        "Port at which frames come in, 0 to 65535 [example: 257]",
        value_parser!(u16),
    )
}

/// The last line of the trace.
pub(super) fn until<'a>(alloc: Global) -> Arg<'a>
    ensures rule { rule_of result ≡ until }
    ensures local { result.global ≡ false }
{
    numbered(
        alloc,
        "until",
        "LINE",
        "Stop behind this line of the trace, from 1 [example: 20]",
    )
}

/// Whether each message of the trace has to be carried out.
pub(super) fn strict<'a>(alloc: Global) -> Arg<'a>
    ensures rule { rule_of result ≡ strict }
    ensures local { result.global ≡ false }
{
    Arg::new(alloc, "strict")
        .long("strict")
        .action(ArgAction::SetTrue)
        .help(
            "Stop where a message of the trace has a fault or is refused; has no value [example: --strict]",
        )
}

/// Whether objects are shown in place of lines.
pub(super) fn json<'a>(alloc: Global) -> Arg<'a>
    ensures rule { rule_of result ≡ json }
    ensures local { result.global ≡ false }
{
    Arg::new(alloc, "json")
        .long("json")
        .action(ArgAction::SetTrue)
        .help("Show it as JSON, for other programs; has no value [example: --json]")
}

/// The command that names a trace, a capture and a port.
pub(super) fn over_files<'a>(alloc: Global, command: Command<'a>) -> Result<Command<'a>, AllocError>
    ensures { (name : Text) → IsCommand (Ok command.entry) (new_app name)
        → IsCommand result (over_files name) }
{
    let frames = file(
        alloc,
        "frames",
        "Capture of the frames, a file in libpcap's classic format or in pcapng [example: up.pcap]",
    );
    let over_trace = with_arg(Ok(command), trace(alloc));
    let over_files = with_arg(over_trace, frames);
    with_arg(over_files, port(alloc))
}

/// The command that names a trace, how far it is read, and whether each message has to be carried out.
pub(super) fn over_trace<'a>(alloc: Global, command: Command<'a>) -> Result<Command<'a>, AllocError>
    ensures { (name : Text) → IsCommand (Ok command.entry) (new_app name)
        → IsCommand result (over_trace name) }
{
    let of_trace = with_arg(Ok(command), trace(alloc));
    let up_to = with_arg(of_trace, until(alloc));
    with_arg(up_to, strict(alloc))
}

/// The command that names traces, how far each is read, whether each message has to be carried out, and whether objects are shown.
pub(super) fn over_traces<'a>(
    alloc: Global,
    command: Command<'a>,
) -> Result<Command<'a>, AllocError>
    ensures { (name : Text) → IsCommand (Ok command.entry) (new_app name)
        → IsCommand result (over_traces name) }
{
    let of_traces = with_arg(Ok(command), traces(alloc));
    let up_to = with_arg(of_traces, until(alloc));
    let strictly = with_arg(up_to, strict(alloc));
    with_arg(strictly, json(alloc))
}
