//! A class as lines.
use crate::words::ClassWords;
use frame_classes::ClassExample;
use std::alloc::{AllocError, Global};
use text_entities::HexWords;

/// The line of a class of a port.
pub(crate) fn class_line(
    alloc: Global,
    port: u16,
    example: &ClassExample,
) -> Result<String, AllocError> {
    let words = ClassWords(&example.class);
    let digits = HexWords(&example.frame);
    format!(in alloc; "port {port} {words} frame {digits}\n")
}

/// A remark with a class of a port, and the line of a script whose frame has it.
pub(crate) fn script_lines(
    alloc: Global,
    port: u16,
    example: &ClassExample,
) -> Result<String, AllocError> {
    let words = ClassWords(&example.class);
    let digits = HexWords(&example.frame);
    format!(in alloc; "# port {port} {words}\nf {port} {digits}\n")
}
