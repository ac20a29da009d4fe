//! Which frames two configurations treat differently.
use crate::fate::{Fate, put_fate};
use crate::writing::write_text;
use frame_classes::Difference;
use std::alloc::{AllocError, Global};
use std::io::Write;
use text_entities::{FORMAT, HexWords, JsonText, put_number, put_words};
use text_explanations::Traced;
use text_writing::{TextFault, write_whole};

/// What is compared: what two traces left.
#[derive(Clone, Copy)]
pub struct Compared<'a> {
    pub before: Traced<'a>,
    pub after: Traced<'a>,
}

/// The list of what two configurations treat differently, which is written port by port: nothing of it is kept.
#[derive(Drop)]
pub struct DifferenceList {
    alloc: Global,
    /// Whether it is one object of JSON.
    is_json: bool,
    json: JsonText,
    /// How many differences are written.
    count: u64,
}

/// The lines of a difference at a port.
fn difference_lines(
    alloc: Global,
    compared: &Compared<'_>,
    port: u16,
    difference: &Difference,
) -> Result<String, AllocError> {
    let frame = difference.frame.as_slice();
    let digits = HexWords(frame);
    let before = Fate::traced(&compared.before, port, &difference.before, frame);
    let after = Fate::traced(&compared.after, port, &difference.after, frame);
    format!(in alloc; "port {port} frame {digits}\n  before {before}\n  after {after}\n")
}

impl DifferenceList {
    /// A list of which nothing is written.
    pub fn new(alloc: Global, is_json: bool) -> DifferenceList {
        DifferenceList {
            alloc,
            is_json,
            json: JsonText::new(alloc),
            count: 0,
        }
    }

    /// Whether no difference is written.
    pub fn is_empty(&self) -> bool {
        self.count == 0
    }

    /// Writes what stands in front of all differences: of JSON (RFC 8259) the object's beginning.
    pub fn begin<W: Write>(&self, writer: &mut W) -> Result<(), TextFault> {
        if !self.is_json {
            return Ok(());
        }
        write_whole(writer, FORMAT.as_bytes())?;
        self.json.begin(writer, "\"differences\":")
    }

    /// Writes the differences at a port.
    pub fn port<W: Write>(
        &mut self,
        compared: &Compared<'_>,
        port: u16,
        differences: &[Difference],
        writer: &mut W,
    ) -> Result<(), TextFault> {
        for difference in differences {
            if self.is_json {
                self.write_object(compared, port, difference, writer)?;
            } else {
                let lines = difference_lines(self.alloc, compared, port, difference)?;
                write_text(writer, &lines)?;
            }
            self.count = self.count.saturating_add(1);
        }
        Ok(())
    }

    /// Writes a difference as an object: `port`; `frame`, its bytes; and what becomes of it `before` and `after`.
    fn write_object<W: Write>(
        &mut self,
        compared: &Compared<'_>,
        port: u16,
        difference: &Difference,
        writer: &mut W,
    ) -> Result<(), TextFault> {
        let alloc = self.alloc;
        let frame = difference.frame.as_slice();
        let before = Fate::of(compared.before.mib, port, &difference.before, frame);
        let after = Fate::of(compared.after.mib, port, &difference.after, frame);
        let mut object = self.json.object()?;
        put_number(&mut object, "port", u64::from(port))?;
        put_words(alloc, &mut object, "frame", &HexWords(frame))?;
        put_fate(alloc, &mut object, "before", &before)?;
        put_fate(alloc, &mut object, "after", &after)?;
        self.json.write(writer, object)
    }

    /// Writes what stands behind all differences: of lines how many there are, or `same`; of JSON the object's end.
    pub fn end<W: Write>(&self, writer: &mut W) -> Result<(), TextFault> {
        if self.is_json {
            return self.json.end(writer, "}");
        }
        match self.count {
            0 => write_text(writer, "same\n"),
            count => write_text(writer, &format!(in self.alloc; "differences {count}\n")?),
        }
    }
}
