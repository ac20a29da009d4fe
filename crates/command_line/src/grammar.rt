//! The words that the program knows, with the texts of its help: a file a command.
ghost use Rattle.std.specs.Prelude.{◌≡◌, IfOk};
ghost use Rattle.clap.specs.Words.{App, app_of, with_subcommand};
ghost use Rattle.command_line.specs.Grammar.{IsCommand, onuctl};

mod common;
mod cover;
mod decode;
mod diff;
mod encode;
mod expect;
mod explain;
mod forward;
mod graph;
mod hitless;
mod judge;
mod lint;
mod mib;
mod migrate;
mod record;
mod replay;
mod rules;
mod run;

use crate::version::VERSION;
use clap::Command;
use std::alloc::{AllocError, Global};

/// The command with this subcommand too. Err where one of the two had no memory, or both together have none.
fn with_sub<'a>(
    command: Result<Command<'a>, AllocError>,
    sub: Result<Command<'a>, AllocError>,
) -> Result<Command<'a>, AllocError>
    ensures { (app inner : App) → IfOk command.entry (λ command. app_of command ≡ app)
        → IsCommand sub.entry inner → IfOk result (λ command.
        app_of command ≡ with_subcommand app inner.top) }
{
    command?.subcommand(sub?)
}

/// The program with all that it can be asked for.
pub fn onuctl<'a>(alloc: Global) -> Result<Command<'a>, AllocError>
    ensures { IfOk result (λ command. app_of command ≡ onuctl) }
{
    let alone = Command::new(alloc, "onuctl")
        .version(VERSION)
        .about("Answer OMCI messages and forward Ethernet frames, as an optical network unit does")
        .after_help(
            "Numbers in words: onuctl help reasons, onuctl help results, onuctl help faults, onuctl help statuses\nKinds of findings: onuctl help findings",
        )
        .subcommand_required(true)
        .arg_required_else_help(true);
    let answering = with_sub(Ok(alone), replay::replay(alloc));
    let forwarding = with_sub(answering, run::run(alloc));
    let decoding = with_sub(forwarding, decode::decode(alloc));
    let showing = with_sub(decoding, mib::mib(alloc));
    let listing = with_sub(showing, rules::rules(alloc));
    let explaining = with_sub(listing, explain::explain(alloc));
    let judging = with_sub(explaining, judge::judge(alloc));
    let capturing = with_sub(judging, forward::forward(alloc));
    let recorded = with_sub(capturing, record::recording(alloc));
    let encoding = with_sub(recorded, encode::encode(alloc));
    let linting = with_sub(encoding, lint::lint(alloc));
    let drawing = with_sub(linting, graph::graph(alloc));
    let covering = with_sub(drawing, cover::cover(alloc));
    let comparing = with_sub(covering, diff::diff(alloc));
    let watching = with_sub(comparing, hitless::hitless(alloc));
    let expecting = with_sub(watching, expect::expect(alloc));
    with_sub(expecting, migrate::migrate(alloc))
}

/// The command of this name alone, or the program where there is none.
pub fn named<'a>(alloc: Global, name: &str) -> Result<Command<'a>, AllocError> {
    match name {
        "replay" => replay::replay(alloc),
        "run" => run::run(alloc),
        "decode" => decode::decode(alloc),
        "mib" => mib::mib(alloc),
        "rules" => rules::rules(alloc),
        "explain" => explain::explain(alloc),
        "judge" => judge::judge(alloc),
        "forward" => forward::forward(alloc),
        "record" => record::recording(alloc),
        "encode" => encode::encode(alloc),
        "lint" => lint::lint(alloc),
        "graph" => graph::graph(alloc),
        "cover" => cover::cover(alloc),
        "diff" => diff::diff(alloc),
        "hitless" => hitless::hitless(alloc),
        "expect" => expect::expect(alloc),
        "migrate" => migrate::migrate(alloc),
        _ => onuctl(alloc),
    }
}
