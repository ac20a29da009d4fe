//! The words of `run`.
ghost use Rattle.std.specs.Prelude.{◌≡◌, false};
ghost use Rattle.clap.specs.Words.{rule_of};
ghost use Rattle.command_line.specs.Grammar.{IsCommand, after, batch, lanes, run};

use crate::grammar::common::{json, optional, over_files, until, with_arg};
use clap::{Arg, ArgAction, Command, value_parser};
use run_settings::{BATCH_LIMIT, DEFAULT_BATCH, DEFAULT_LANES, LANE_LIMIT};
use std::alloc::{AllocError, Global};

/// The help says these limits in words.
const _: () = prove!(LANE_LIMIT == 16 && BATCH_LIMIT == 65_536);

/// And what counts where they aren't said.
const _: () = prove!(DEFAULT_LANES == 4 && DEFAULT_BATCH == 1024);

fn lanes<'a>(alloc: Global) -> Arg<'a>
    ensures rule { rule_of result ≡ lanes }
    ensures local { result.global ≡ false }
{
    optional(
        alloc,
        "lanes",
        "COUNT",
        "Lanes that forward side by side, 1 to 16; 4 without it [example: 8]",
        value_parser!(u16).range(1..=i64::from(LANE_LIMIT)),
    )
}

fn batch<'a>(alloc: Global) -> Arg<'a>
    ensures rule { rule_of result ≡ batch }
    ensures local { result.global ≡ false }
{
    optional(
        alloc,
        "batch",
        "FRAMES",
        "Frames of each batch but the last, 1 to 65536; 1024 without it [example: 4096]",
        value_parser!(u32).range(1..=i64::from(BATCH_LIMIT)),
    )
}

fn after<'a>(alloc: Global) -> Arg<'a>
    ensures rule { rule_of result ≡ after }
    ensures local { result.global ≡ false }
{
    Arg::new(alloc, "after")
        .long("after")
        .action(ArgAction::SetTrue)
        .help("Forward only after the whole trace is applied; has no value [example: --after]")
}

pub(super) fn run<'a>(alloc: Global) -> Result<Command<'a>, AllocError>
    ensures { IsCommand result run }
{
    let alone = Command::new(alloc, "run")
        .about("Forward the frames of a capture on several lanes while a trace is applied")
        .after_help(
            "Status: 0, 1 or 2; onuctl help statuses says when\nExample: onuctl run up.script --frames up.pcap --port 257",
        );
    let on_lanes = with_arg(over_files(alloc, alone), lanes(alloc));
    let in_batches = with_arg(on_lanes, batch(alloc));
    let in_order = with_arg(in_batches, after(alloc));
    let up_to = with_arg(in_order, until(alloc));
    with_arg(up_to, json(alloc))
}
