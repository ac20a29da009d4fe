//! The list of what is said of expectations.
use crate::said::{Moment, Said, lines_of, put_outcome};
use expectation_check::Outcome;
use std::alloc::{AllocError, Global};
use std::io::Write;
use text_entities::{FORMAT, JsonText};
use text_expectations::ExpectedLine;
use text_writing::{TextFault, write_whole};

/// The list of what is said of expectations, which is written one by one: nothing of it is kept.
#[derive(Drop)]
pub(crate) struct OutcomeList {
    alloc: Global,
    /// Whether it is one object of JSON.
    is_json: bool,
    json: JsonText,
    /// How many are written.
    count: u64,
    /// How many of these fail or are void.
    failed: u64,
}

impl OutcomeList {
    /// A list of which nothing is written.
    pub(crate) fn new(alloc: Global, is_json: bool) -> OutcomeList {
        OutcomeList {
            alloc,
            is_json,
            json: JsonText::new(alloc),
            count: 0,
            failed: 0,
        }
    }

    /// Writes what stands in front of all: of JSON (RFC 8259) the object's beginning.
    pub(crate) fn begin<W: Write>(&self, writer: &mut W) -> Result<(), TextFault> {
        if !self.is_json {
            return Ok(());
        }
        write_whole(writer, FORMAT.as_bytes())?;
        self.json.begin(writer, "\"expectations\":")
    }

    /// What the list says of an expectation by a version.
    pub(crate) fn said(
        &self,
        expected: &ExpectedLine,
        outcome: &Outcome,
        moment: &Moment<'_>,
    ) -> Result<Said, AllocError> {
        let alloc = self.alloc;
        if !self.is_json {
            return Ok(Said::Lines(lines_of(alloc, expected, outcome, moment)?));
        }
        let mut object = self.json.object()?;
        put_outcome(alloc, &mut object, expected, outcome, moment)?;
        Ok(Said::Object(object))
    }

    /// Writes what is said of the next expectation, which holds or doesn't.
    pub(crate) fn write<W: Write>(
        &mut self,
        said: Said,
        holds: bool,
        writer: &mut W,
    ) -> Result<(), TextFault> {
        match said {
            Said::Lines(lines) => write_whole(writer, lines.as_bytes())?,
            Said::Object(object) => self.json.write(writer, object)?,
        }
        self.count = self.count.saturating_add(1);
        self.failed = self.failed.saturating_add(u64::from(!holds));
        Ok(())
    }

    /// Writes what stands behind all: of lines how many there are and how many fail; of JSON how many fail, and the object's end.
    pub(crate) fn end<W: Write>(&self, writer: &mut W) -> Result<(), TextFault> {
        let (count, failed) = (self.count, self.failed);
        if self.is_json {
            let behind = format!(in self.alloc; ",\"fail\":{failed}}}")?;
            return self.json.end(writer, &behind);
        }
        let text = format!(in self.alloc; "expectations {count} fail {failed}\n")?;
        write_whole(writer, text.as_bytes())?;
        Ok(())
    }
}
