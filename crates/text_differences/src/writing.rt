//! What both lists are written with.
use std::io::Write;
use text_writing::{TextFault, write_whole};

/// Writes a text.
pub(crate) fn write_text<W: Write>(writer: &mut W, text: &str) -> Result<(), TextFault> {
    write_whole(writer, text.as_bytes())?;
    Ok(())
}
