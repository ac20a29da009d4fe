//! The words of `encode`.
ghost use Rattle.std.specs.Prelude.{◌≡◌, false};
ghost use Rattle.clap.specs.Words.{rule_of};
ghost use Rattle.command_line.specs.Grammar.{IsCommand, encode, identifier, text};

use crate::grammar::common::{optional, with_arg};
use clap::builder::ValueParser;
use clap::{Arg, ArgAction, Command, value_parser};
use std::alloc::{AllocError, Global};

/// The identifier of the first message.
fn identifier<'a>(alloc: Global) -> Arg<'a>
    ensures rule { rule_of result ≡ identifier }
    ensures local { result.global ≡ false }
{
    let parser = value_parser!(u16).range(0..=i64::from(u16::MAX));
    optional(
        alloc,
        "id",
        "NUMBER",
        "Transaction correlation identifier of the first message, 0 to 65535; 1 without it [example: 100]",
        parser,
    )
}

/// The file with a text in words.
fn text<'a>(alloc: Global) -> Arg<'a>
    ensures rule { rule_of result ≡ text }
    ensures local { result.global ≡ false }
{
    Arg::new(alloc, "text")
        .value_name("FILE")
        .action(ArgAction::Set)
        .value_parser(ValueParser::NonEmptyString)
        .help("Text in words, a file; standard input without it [example: up.onu]")
}

/// What the words of a text are, in short.
const LANGUAGE: &str =
    "A line in words is a line of the script; `#` begins a remark. Numbers are decimal or begin with 0x.
  create CLASS INSTANCE ATTRIBUTE=VALUE ..      set CLASS INSTANCE ATTRIBUTE=VALUE ..
  delete CLASS INSTANCE                         get CLASS INSTANCE ATTRIBUTE ..
  get-next CLASS INSTANCE N                     upload | upload-next N | reset
  entry vlan INSTANCE FILTER -> TREATMENT       remove-entry vlan INSTANCE FILTER
  frame PORT dst=MAC src=MAC tag=TPID:PRIORITY:DEI:VID type=TYPE dscp=N length=N payload=HEX
  o HEX | f PORT HEX | raw HEX
Classes are gem-port, interwork, mapper, vlan, onu-data. A message takes id=N and quiet.
FILTER: tags=0|1|2, default, predefined, pcp=, vid=, tpid=, dei=, outer(..), inner(..), type=
TREATMENT: drop, or remove=N outer(pcp= vid= tpid= dei=) inner(..)
A text with mistakes, each said with line and column, makes no script.
Status: 0, 1 or 2; onuctl help statuses says when
Example: onuctl encode up.onu | onuctl replay";

pub(super) fn encode<'a>(alloc: Global) -> Result<Command<'a>, AllocError>
    ensures { IsCommand result encode }
{
    let alone = Command::new(alloc, "encode")
        .about("Make a script of a text in words")
        .after_help(LANGUAGE);
    let numbered_from = with_arg(Ok(alone), identifier(alloc));
    with_arg(numbered_from, text(alloc))
}
