//! What is said of one expectation.
use expectation_check::Outcome;
use frame_classes::ClassExample;
use json::Writer;
use mib_state::Mib;
use std::alloc::{AllocError, Global};
use std::fmt;
use text_differences::{Fate, put_fate};
use text_entities::{HexWords, put_number, put_text, put_words};
use text_expectations::ExpectedLine;

/// A version of a trace, where it is named: how many requests were accepted before, and the line of the last of them, or 0 where there is none.
#[derive(Clone, Copy)]
pub(crate) struct Version {
    pub(crate) number: u64,
    pub(crate) line: u64,
}

/// What an expectation is checked by.
#[derive(Clone, Copy)]
pub(crate) struct Moment<'m> {
    pub(crate) mib: &'m Mib,
    /// The version, where it is named.
    pub(crate) version: Option<Version>,
}

/// What is said of an expectation.
#[derive(Drop)]
pub(crate) enum Said {
    /// These lines.
    Lines(String),
    /// The members of this object of JSON.
    Object(Writer),
}

/// The version behind what is said of an expectation.
#[derive(Clone, Copy)]
struct VersionWords(Option<Version>);

impl fmt::Display for VersionWords {
    fn fmt<W: fmt::Write>(&self, f: &mut fmt::Formatter<W>) -> fmt::Result {
        match self.0 {
            Some(Version { number, line }) => write!(f, " at version {number} trace line {line}"),
            None => Ok(()),
        }
    }
}

/// What becomes of a frame that fails an expectation.
fn fate_of<'f>(moment: &Moment<'_>, port: u16, example: &'f ClassExample) -> Fate<'f> {
    Fate::of(moment.mib, port, &example.class, &example.frame)
}

/// What is said of an expectation, as lines.
pub(crate) fn lines_of(
    alloc: Global,
    expected: &ExpectedLine,
    outcome: &Outcome,
    moment: &Moment<'_>,
) -> Result<String, AllocError> {
    let (line, at) = (expected.line, VersionWords(moment.version));
    match outcome {
        Outcome::Holds => format!(in alloc; "line {line} holds\n"),
        Outcome::Void => format!(in alloc; "line {line} admits no frame{at}\n"),
        Outcome::Fails(example) => {
            let digits = HexWords(&example.frame);
            let fate = fate_of(moment, expected.expectation.port, example);
            format!(in alloc; "line {line} fails{at}: frame {digits}\n  {fate}\n")
        }
    }
}

/// The outcome in a word of JSON's.
fn outcome_word(outcome: &Outcome) -> &'static str {
    match outcome {
        Outcome::Holds => "holds",
        Outcome::Void => "void",
        Outcome::Fails(_) => "fails",
    }
}

/// Puts what is said of an expectation: `line`, `port` and `outcome`; where it doesn't hold `version` and `trace_line`, if the version is named; and
/// where it fails `frame`, the bytes of a frame, and what becomes of it `here`.
pub(crate) fn put_outcome(
    alloc: Global,
    object: &mut Writer,
    expected: &ExpectedLine,
    outcome: &Outcome,
    moment: &Moment<'_>,
) -> Result<(), AllocError> {
    let port = expected.expectation.port;
    put_number(object, "line", expected.line)?;
    put_number(object, "port", u64::from(port))?;
    put_text(object, "outcome", outcome_word(outcome))?;
    if let Outcome::Holds = outcome {
        return Ok(());
    }
    if let Some(version) = moment.version {
        put_number(object, "version", version.number)?;
        put_number(object, "trace_line", version.line)?;
    }
    if let Outcome::Fails(example) = outcome {
        put_words(alloc, object, "frame", &HexWords(&example.frame))?;
        put_fate(alloc, object, "here", &fate_of(moment, port, example))?;
    }
    Ok(())
}
