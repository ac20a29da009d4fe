//! How far a judgement is, on a terminal.
use bench_judge::{Stage, Watch};
use std::io::{IsTerminal, Write};
use text_writing::ProgressLine;

/// The least number of lines of a history that takes long enough to be watched.
const LONG: usize = 50_000;

/// The least number of bytes of a text that takes long enough to read to be watched.
const LONG_TEXT: usize = 1 << 23;

/// How many bytes are a megabyte.
const MEGABYTE: usize = 1_000_000;

/// Into how many parts a stage is cut: the line is written anew with each of them.
const PARTS: usize = 100;

/// In which of the parts of a stage one of its steps is.
fn part_of(step: usize, of: usize) -> usize {
    let steps = of / PARTS;
    if steps == 0 { step } else { step / steps }
}

/// A line on a terminal that says how far a judgement is. It is written anew at each stage, and now and then while one goes on. For a short
/// history, and where it isn't a terminal, nothing is written; what can't be written is passed over.
#[derive(Drop)]
pub struct Shown<'e, E> {
    err: &'e mut E,
    // Whether the history is long, and `err` a terminal.
    shows: bool,
    // The part of the stage that is shown, if it has parts.
    part: Option<usize>,
    // Among how many lines the first is that isn't explained, once it is known that there is one.
    halved: Option<usize>,
    line: ProgressLine,
}

impl<'e, E: Write + IsTerminal> Shown<'e, E> {
    /// Nothing is shown yet.
    pub fn new(err: &'e mut E) -> Self {
        Shown {
            err,
            shows: false,
            part: None,
            halved: None,
            line: ProgressLine::new(),
        }
    }

    /// The text of the history is read from its file.
    pub fn begin(&mut self) {
        if self.err.is_terminal() {
            self.line.begin(self.err);
            let _ = self.err.write_all(b"reading the history");
            self.line.end(self.err);
        }
    }

    /// The line is gone.
    pub fn end(&mut self) {
        self.line.remove(self.err);
    }

    /// Whether a stage is to be shown: it is another one than before, or has come to another part.
    fn is_news(&mut self, stage: Stage) -> bool {
        let part = match stage {
            Stage::Reading { bytes, of } => Some(part_of(bytes, of)),
            Stage::Walking { lines, of } => Some(part_of(lines, of)),
            Stage::Sweeping { versions, of } => Some(part_of(versions, of)),
            Stage::Read { .. } | Stage::Walked { .. } | Stage::Halving { .. } => None,
        };
        let is_news = part.is_none() || part != self.part;
        self.part = part;
        is_news
    }

    /// Notes among how many lines the first is that isn't explained.
    fn note(&mut self, stage: Stage) {
        match stage {
            Stage::Read { .. } => self.halved = None,
            Stage::Halving { lines } => self.halved = Some(lines),
            Stage::Reading { .. }
            | Stage::Walking { .. }
            | Stage::Walked { .. }
            | Stage::Sweeping { .. } => {}
        }
    }

    /// Writes the line of a stage.
    fn write_stage(&mut self, stage: Stage) {
        self.line.begin(self.err);
        if let Some(lines) = self.halved {
            let _ = write!(self.err, "not explained: one of {lines} lines");
        }
        let _ = match stage {
            Stage::Reading { bytes, of } => write!(
                self.err,
                "{} of {} MB: lines",
                bytes / MEGABYTE,
                of / MEGABYTE
            ),
            Stage::Read { lines } => write!(self.err, "{lines} lines: replies"),
            Stage::Walking { lines, of } => write!(self.err, "{lines} of {of} lines: replies"),
            Stage::Walked { frames, requests } => write!(
                self.err,
                "{frames} frames by {requests} accepted requests"
            ),
            Stage::Sweeping { versions, of } => match self.halved {
                None => write!(self.err, "{versions} of {of} versions: frames"),
                Some(_) => write!(self.err, ", {versions} of {of} versions"),
            },
            Stage::Halving { .. } => Ok(()),
        };
        self.line.end(self.err);
    }
}

impl<E: Write + IsTerminal> Watch for Shown<'_, E> {
    fn reached(&mut self, stage: Stage) {
        match stage {
            Stage::Reading { of, .. } => self.shows = of >= LONG_TEXT && self.err.is_terminal(),
            Stage::Read { lines } => self.shows = lines >= LONG && self.err.is_terminal(),
            _ => {}
        }
        if self.shows {
            self.note(stage);
            if self.is_news(stage) {
                self.write_stage(stage);
            }
        }
    }
}
