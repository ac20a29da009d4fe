//! A writer that names a file in front of what is written of it.
use std::io;
use std::io::Write;

/// Where the name of a file stands in what is written of it.
#[derive(Clone, Copy)]
pub enum Marked {
    /// In front of each line.
    Lines,
    /// In a remark in front of all of them.
    Remark,
    /// Under the first key of the object of each line.
    Objects,
    /// Under the first key of the only object, which gets one line.
    Object,
}

/// A writer that puts a front before what it is given, or before each line of that.
#[derive(Drop)]
pub(crate) struct Fronted<'f, W> {
    writer: &'f mut W,
    front: &'f [u8],
    marked: Marked,
    /// Whether the front stands before the next byte.
    begins: bool,
}

impl<'f, W: Write> Fronted<'f, W> {
    /// A writer to which nothing is written yet.
    pub(crate) fn new(writer: &'f mut W, front: &'f [u8], marked: Marked) -> Self {
        Fronted {
            writer,
            front,
            marked,
            begins: true,
        }
    }

    /// Ends the line that is begun, if one is.
    pub(crate) fn end_line(&mut self) -> io::Result<()> {
        match self.marked {
            Marked::Object if !self.begins => self.writer.write_all(b"\n"),
            _ => Ok(()),
        }
    }

    /// What of these bytes is written as one piece: in front of the next line, or without a line feed that isn't wanted, it ends.
    fn piece<'b>(&self, bytes: &'b [u8]) -> &'b [u8] {
        let feed = bytes.iter().position(|byte| *byte == b'\n');
        let end = match self.marked {
            Marked::Remark => bytes.len(),
            Marked::Object => feed.unwrap_or(bytes.len()),
            Marked::Lines | Marked::Objects => {
                feed.map_or(bytes.len(), |last| last.saturating_add(1))
            }
        };
        bytes.split_at(end.min(bytes.len())).0
    }

    /// Whether the front has the first byte that is written behind it, the brace of an object.
    fn has_brace(&self) -> bool {
        matches!(self.marked, Marked::Objects | Marked::Object)
    }
}

impl<W: Write> Write for Fronted<'_, W> {
    fn write(&mut self, bytes: &[u8]) -> io::Result<usize> {
        let Some(first) = bytes.first() else {
            return Ok(0);
        };
        if self.begins {
            self.writer.write_all(self.front)?;
            self.begins = false;
            if self.has_brace() {
                return Ok(1);
            }
        }
        if *first == b'\n' && matches!(self.marked, Marked::Object) {
            return Ok(1);
        }
        let piece = self.piece(bytes);
        let taken = self.writer.write(piece)?.min(piece.len());
        let ended = taken == piece.len() && piece.last() == Some(&b'\n');
        self.begins = ended && !matches!(self.marked, Marked::Remark);
        Ok(taken.min(bytes.len()))
    }

    fn flush(&mut self) -> io::Result<()> {
        self.writer.flush()
    }
}
