//! Words and what they ask for. What the program does for other words, and says of each word that is refused, `tests/hostile` compares.

use clap::Error;
use command_line::{ReplayWords, RunWords, Words, read_words, report_words};
use run_settings::RunSettings;
use std::alloc::AllocError;
use std::test::Fail;
use test_fixtures::{holds, same};
use text_writing::Status;

/// A run's words, the trace first, with three values that a case gives.
fn run_words<'w>(port: &'w str, lanes: &'w str, batch: &'w str) -> [&'w str; 11] {
    [
        "onuctl", "run", "t", "--frames", "f", "--port", port, "--lanes", lanes, "--batch", batch,
    ]
}

/// The files and the settings of a run whose lines are asked for as text.
fn run_of<'w>(words: Words<'w>) -> Option<(&'w str, &'w str, RunSettings)> {
    match words {
        Words::Run(
            RunWords {
                trace,
                until: None,
                frames,
                settings,
                json: false,
            },
        ) => Some((trace, frames, settings)),
        _ => None,
    }
}

#[test]
fn words_ask_for_a_replay_or_a_run(rt: HostRuntime) -> Result<(), Fail> {
    let replay = read_words(rt.alloc(), &["onuctl", "replay"])?;
    holds!(rt; matches!(replay, Words::Replay(ReplayWords { file: None, json: false })));
    for (words, port, lanes, batch, after) in [
        (&run_words("257", "2", "4")[..], 257, 2, 4, false),
        (&run_words("0", "1", "1")[..], 0, 1, 1, false),
        (
            &run_words("65535", "16", "65536")[..],
            65_535,
            16,
            65_536,
            false,
        ),
        (
            &[
                "onuctl",
                "run",
                "--after",
                "--batch=4",
                "--lanes=2",
                "--port=257",
                "--frames=f",
                "t",
            ][..],
            257,
            2,
            4,
            true,
        ),
        (
            &["onuctl", "run", "t", "--frames", "f", "--port", "257"][..],
            257,
            4,
            1024,
            false,
        ),
    ] {
        let settings = RunSettings {
            port,
            lanes,
            batch,
            after,
        };
        let asked = run_of(read_words(rt.alloc(), words)?);
        same!(rt; asked, Some(("t", "f", settings)), "{words:?}");
    }
    Ok(())
}

/// What is said of 17 lanes.
const TOO_MANY: &str = "\
error: invalid value '17' for '--lanes <COUNT>': 17 is not in 1..=16

For more information, try '--help'.
";

#[test]
fn a_value_out_of_its_range_is_refused_and_a_want_of_memory_told_apart(rt: HostRuntime) {
    for (error, words) in [
        (
            read_words(rt.alloc(), &run_words("257", "17", "4")).err(),
            TOO_MANY,
        ),
        (Some(Error::from(AllocError)), "no memory\n"),
    ] {
        let (mut out, mut err) = (Vec::new(rt.alloc()), Vec::new(rt.alloc()));
        let error = error.expect(&rt, "an error");
        same!(rt; report_words(&error, &mut out, &mut err), Status::Failed);
        holds!(rt; out.is_empty());
        same!(rt; err.as_slice(), words.as_bytes());
    }
}
