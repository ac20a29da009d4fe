//! What a line of a script asks for.

/// What a line of a script asks for. Its bytes lie in the buffer that it was read into.
#[derive(Clone, Copy)]
pub enum Line<'a> {
    /// A message, by its bytes.
    Message(&'a [u8]),
    /// A frame that comes in at a port, by the port and its bytes.
    Frame(u16, &'a [u8]),
    /// Nothing, as an empty line or a comment.
    Nothing,
}

/// The parts of a line of a script: what it asks for, and the digits of its bytes. At these nobody has looked yet.
#[derive(Clone, Copy)]
pub enum Parts<'a> {
    /// A message, by its digits.
    Message(&'a [u8]),
    /// A frame that comes in at a port, by the port and its digits.
    Frame(u16, &'a [u8]),
    /// Nothing, as an empty line or a comment.
    Nothing,
}
