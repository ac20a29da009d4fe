//! A line of a script or of a dialogue, read.
use script_lines::{LINE_LIMIT, Line, MOST_SPELLED, read_bytes, read_line, read_numbered};

/// What a line of a dialogue is: a line of a script, or an answer. Its bytes lie in the buffer that it was read into.
#[derive(Clone, Copy)]
pub enum ScriptLine<'a> {
    /// `o HEX`, a message, by its bytes.
    Message(&'a [u8]),
    /// `f PORT HEX`, a frame that comes in at a port.
    Frame(u16, &'a [u8]),
    /// An empty line or a comment.
    Nothing,
    /// `r HEX`, a reply, by its bytes.
    Reply(&'a [u8]),
    /// `g GEM HEX`, a frame that leaves by a GEM port.
    Leaving(u16, &'a [u8]),
    /// `d N`, a frame that is dropped, by the number of the reason.
    Dropped(u8),
    /// `m N`, a message with a fault, by the fault's number.
    Fault(u8),
    /// `-`, no answer wanted.
    NoAnswer,
}

/// What a line is, without its line feed, or None where it is bad: none of those that `script_lines::read_line` reads, nor one of the
/// answers that the program writes. The numbers of `d` and `m` have one digit.
pub fn read_script_line<'a>(
    line: &[u8],
    buffer: &'a mut [u8; MOST_SPELLED],
) -> Option<ScriptLine<'a>> {
    let content = line.strip_suffix(b"\r").unwrap_or(line);
    match content {
        [b'r', b' ', digits @ ..] => Some(ScriptLine::Reply(read_digits(digits, buffer)?)),
        [b'g', b' ', parts @ ..] => read_leaving(parts, buffer),
        [b'd', b' ', digit] => Some(ScriptLine::Dropped(read_digit(*digit)?)),
        [b'm', b' ', digit] => Some(ScriptLine::Fault(read_digit(*digit)?)),
        b"-" => Some(ScriptLine::NoAnswer),
        _ => read_asked(line, buffer),
    }
}

/// A line of a script.
fn read_asked<'a>(line: &[u8], buffer: &'a mut [u8; MOST_SPELLED]) -> Option<ScriptLine<'a>> {
    Some(match read_line(line, buffer)? {
        Line::Message(bytes) => ScriptLine::Message(bytes),
        Line::Frame(port, bytes) => ScriptLine::Frame(port, bytes),
        Line::Nothing => ScriptLine::Nothing,
    })
}

/// The bytes that hexadecimal digits spell, put into the buffer.
fn read_digits<'a>(digits: &[u8], buffer: &'a mut [u8; MOST_SPELLED]) -> Option<&'a [u8]> {
    if digits.len() > LINE_LIMIT {
        return None;
    }
    read_bytes(digits, buffer)
}

/// A frame that leaves: the GEM port, a space, and the digits of its bytes.
fn read_leaving<'a>(parts: &[u8], buffer: &'a mut [u8; MOST_SPELLED]) -> Option<ScriptLine<'a>> {
    if parts.len() > LINE_LIMIT {
        return None;
    }
    let frame = read_numbered(parts, buffer)?;
    Some(ScriptLine::Leaving(frame.number, frame.bytes))
}

/// The number that a decimal digit spells.
fn read_digit(digit: u8) -> Option<u8> {
    if digit.is_ascii_digit() {
        Some(digit - b'0')
    } else {
        None
    }
}
