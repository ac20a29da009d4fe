//! The words of `record`.
ghost use Rattle.std.specs.Prelude.{◌≡◌, false};
ghost use Rattle.clap.specs.Words.{rule_of};
ghost use Rattle.command_line.specs.Grammar.{IsCommand, by_captures, by_times, milliseconds, of_captures, out, recording};

use crate::grammar::common::{flag, optional, several, with_arg};
use clap::builder::ValueParser;
use clap::{Arg, Command, value_parser};
use std::alloc::{AllocError, Global};

/// An option with a number of milliseconds, which may be left out.
fn milliseconds<'a>(alloc: Global, name: &'a str, help: &'a str) -> Arg<'a>
    ensures rule { rule_of result ≡ milliseconds name.entry.now }
    ensures local { result.global ≡ false }
{
    let parser = value_parser!(u32).range(0..=i64::from(u32::MAX));
    optional(alloc, name, "MS", help, parser)
}

/// The file for the history.
fn out<'a>(alloc: Global) -> Arg<'a>
    ensures rule { rule_of result ≡ out }
    ensures local { result.global ≡ false }
{
    optional(
        alloc,
        "out",
        "FILE",
        "Write the history to this file, with the remarks of --sources; it gets its name once it is whole; - is standard output [example: bench.history]",
        ValueParser::NonEmptyString,
    )
}

/// The command that names captures.
fn of_captures<'a>(alloc: Global) -> Result<Command<'a>, AllocError>
    ensures { IsCommand result of_captures }
{
    let alone = Command::new(alloc, "record")
        .about("Write the history that captures of one clock show, for judge")
        .after_help(
            "Captures are files in libpcap's classic format or in pcapng. Each of --omci, --into, --out-of, --tpid and --skew may be given several times.\nStatus: 0, 1 or 2; onuctl help statuses says when\nExample: onuctl record --omci omci.pcap --into 257=up.pcap --out-of 1024=gem.pcap --wait 5 --lost 10 | onuctl judge",
        );
    let omci = several(
        alloc,
        "omci",
        "FILE",
        "Capture of OMCI frames, in one direction or both [example: omci.pcap]",
    );
    let into = several(
        alloc,
        "into",
        "PORT=FILE",
        "Capture of the frames sent into a port [example: 257=up.pcap]",
    );
    let out_of = several(
        alloc,
        "out-of",
        "GEM=FILE",
        "Capture of the frames that left by a GEM port, or by any=FILE where it doesn't show which; FILE alone is a pcapng file with an interface named 'gem G' for each GEM port G, as forward --out writes it [example: 1024=gem.pcap]",
    );
    let with_omci = with_arg(Ok(alone), omci);
    let with_into = with_arg(with_omci, into);
    with_arg(with_into, out_of)
}

/// The command that says how captures are read and how long is waited, too.
fn by_times<'a>(alloc: Global) -> Result<Command<'a>, AllocError>
    ensures { IsCommand result by_times }
{
    let tpid = several(
        alloc,
        "tpid",
        "TPID",
        "Type of tags beside 8100 and 88a8, in hexadecimal digits [example: 9100]",
    );
    let wait = milliseconds(
        alloc,
        "wait",
        "A reply is in force for frames this long after it, in milliseconds; without it that isn't judged [example: 100]",
    );
    let lost = milliseconds(
        alloc,
        "lost",
        "A frame that isn't seen to leave in this time is lost, in milliseconds; a time under the unit's longest delay makes of one late frame an l and an s; without it that isn't judged [example: 1000]",
    );
    let late = flag(
        alloc,
        "late",
        "Frames were on their way as the captures of --into began; what left until --lost after the first record of each is passed over; wants --lost; has no value [example: --late]",
    );
    let early = flag(
        alloc,
        "early",
        "Frames were sent behind the ends of the captures of --into; what left from the last record of each on is passed over; has no value [example: --early]",
    );
    let with_tpid = with_arg(of_captures(alloc), tpid);
    let with_wait = with_arg(with_tpid, wait);
    let with_lost = with_arg(with_wait, lost);
    let with_late = with_arg(with_lost, late);
    with_arg(with_late, early)
}

/// The command that says what captures have of frames, too.
fn by_captures<'a>(alloc: Global) -> Result<Command<'a>, AllocError>
    ensures { IsCommand result by_captures }
{
    let skew = several(
        alloc,
        "skew",
        "FILE=MS",
        "Add milliseconds to the times of a capture, a decimal number of either sign, where its clock is another [example: gem.pcap=-0.25]",
    );
    let fcs = flag(
        alloc,
        "fcs",
        "Take the check sequence off each frame but those of --omci; has no value [example: --fcs]",
    );
    let padded = flag(
        alloc,
        "padded",
        "Compare frames without the zeros that end them, as a wire pads them; has no value [example: --padded]",
    );
    let with_skew = with_arg(by_times(alloc), skew);
    let with_fcs = with_arg(with_skew, fcs);
    with_arg(with_fcs, padded)
}

pub(super) fn recording<'a>(alloc: Global) -> Result<Command<'a>, AllocError>
    ensures { IsCommand result recording }
{
    let sources = flag(
        alloc,
        "sources",
        "Say above each line in which record of which file it was seen; has no value [example: --sources]",
    );
    let strict = flag(
        alloc,
        "strict",
        "Write nothing where a frame left in doubt, is a stray, left before it was sent, is still open, or may lack its tags; has no value [example: --strict]",
    );
    let with_sources = with_arg(by_captures(alloc), sources);
    let with_out = with_arg(with_sources, out(alloc));
    with_arg(with_out, strict)
}
