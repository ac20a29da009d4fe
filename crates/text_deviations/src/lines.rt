//! The lines of a history.
use script_lines::first_line;
use std::alloc::{AllocError, Global};

/// The lines of a history, without their line feeds. The first has the number 1.
#[derive(Drop)]
pub(crate) struct HistoryLines<'t> {
    lines: Vec<&'t [u8]>,
}

/// Appends the lines of a text.
fn append_lines<'t>(lines: &mut Vec<&'t [u8]>, text: &'t [u8]) -> Result<(), AllocError> {
    let mut rest = text;
    for _ in 0..text.len() {
        if rest.is_empty() {
            break;
        }
        let (line, behind) = first_line(rest);
        lines.push(line.strip_suffix(b"\r").unwrap_or(line))?;
        rest = behind;
    }
    Ok(())
}

impl<'t> HistoryLines<'t> {
    /// The lines of a text in parts, each of whole lines.
    pub(crate) fn of(alloc: Global, parts: &[&'t [u8]]) -> Result<Self, AllocError> {
        let mut lines = Vec::new(alloc);
        for part in parts {
            append_lines(&mut lines, part)?;
        }
        Ok(HistoryLines { lines })
    }

    /// The line of a number, without a carriage return that ends it.
    pub(crate) fn line(&self, number: usize) -> Option<&'t [u8]> {
        self.lines.get(number.checked_sub(1)?).copied()
    }

    /// The digits of the message that the line of a number sends, if it sends one.
    pub(crate) fn message(&self, number: usize) -> Option<&'t [u8]> {
        self.line(number)?.strip_prefix(b"o ")
    }

    /// The number behind that of the last line.
    pub(crate) fn end(&self) -> usize {
        self.lines.len().saturating_add(1)
    }
}
