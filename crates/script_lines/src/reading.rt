//! A line of a script, read.
ghost use Rattle.std.specs.Prelude.{◌≡◌, ◌≤◌, ◌+◌, ◌*◌, ◌==◌, IfSome, length, option_map, position};
ghost use Rattle.std.specs.Option.{option_and_then};
ghost use Rattle.script_lines.specs.Line.{asked_by, content_of, frame_asked_by, letter_asked_by, line_limit, spelled_bytes};
ghost use Rattle.script_lines.specs.Line.{Frame};
ghost use Rattle.script_lines.specs.Shown.{AreDigitsWithin, IsSpelledWithin, asked_in, frame_in, shown};

use crate::line::{Line, Parts};
use crate::number::read_port;
use script_digits::read_digits;

/// The most bytes that a line may have, without its line feed.
pub const LINE_LIMIT: usize = 20_000;

/// The most bytes that the digits of a line can spell.
pub const MOST_SPELLED: usize = LINE_LIMIT / 2;

/// A number in front of the bytes of a frame, which lie in the buffer that they were read into.
#[derive(Clone, Copy)]
pub struct Numbered<'a> {
    /// The number of a port, or of a GEM port.
    pub number: u16,
    /// The bytes of the frame.
    pub bytes: &'a [u8],
}

/// The bytes that hexadecimal digits of either case spell, put into the buffer, or None where they are no digits or an odd number of
/// them.
pub fn read_bytes<'a>(digits: &[u8], buffer: &'a mut [u8]) -> Option<&'a [u8]>
    requires { length digits.now ≤ 2 * length buffer.old }
    ensures bytes { option_map (λ (bytes : _). bytes.now) result ≡ spelled_bytes digits.now }
    ensures within { IfSome result (λ bytes. 2 * length bytes.now ≤ length digits.now) }
{
    let bytes = &mut buffer[..digits.len() / 2];
    if !read_digits(digits, bytes) {
        return None;
    }
    Some(bytes)
}

/// Where the first space stands.
fn space_in(parts: &[u8]) -> Option<usize>
    ensures { result ≡ position (λ b. b == 32) parts.now }
{
    parts.iter().position(|byte| *byte == b' ')
}

/// A number of 16 bits in one to five decimal digits, and what stands behind the first space; None where there is no such number.
fn split_numbered(parts: &[u8]) -> Option<(u16, &[u8])>
    ensures asked { option_and_then (λ (frame : _). frame_in frame.0 frame.1.now) result
        ≡ frame_asked_by parts.now }
    ensures within { IfSome result (λ frame. length frame.1.now + 2 ≤ length parts.now) }
{
    let space = space_in(parts)?;
    let number = read_port(parts.split_at(space).0)?;
    Some((number, parts.split_at(space + 1).1))
}

/// A number of 16 bits in one to five decimal digits, and behind the first space the digits of a frame; None where they are
/// anything else.
pub fn read_numbered<'a>(parts: &[u8], buffer: &'a mut [u8]) -> Option<Numbered<'a>>
    requires { length parts.now ≤ 2 * length buffer.old }
    ensures asked { option_map (λ (frame : _). Frame frame.number frame.bytes.now) result
        ≡ frame_asked_by parts.now }
    ensures within { IfSome result (λ frame. 2 * length frame.bytes.now + 2 ≤ length parts.now) }
{
    let (number, digits) = split_numbered(parts)?;
    let bytes = read_bytes(digits, buffer)?;
    Some(Numbered { number, bytes })
}

/// The parts of a line that is neither empty nor a comment.
fn split_asked(content: &[u8]) -> Option<Parts<'_>>
    ensures asked { option_and_then asked_in result ≡ letter_asked_by content.now }
    ensures within { IfSome result (AreDigitsWithin (length content.now)) }
{
    if let Some(digits) = content.strip_prefix(b"o ") {
        return Some(Parts::Message(digits));
    }
    let (port, digits) = split_numbered(content.strip_prefix(b"f ")?)?;
    Some(Parts::Frame(port, digits))
}

/// The parts of a line without the CR at its end.
fn split_content(content: &[u8]) -> Option<Parts<'_>>
    ensures asked { option_and_then asked_in result ≡ content_of content.now }
    ensures within { IfSome result (AreDigitsWithin (length content.now)) }
{
    if content.is_empty() || content.starts_with(b"#") {
        return Some(Parts::Nothing);
    }
    split_asked(content)
}

/// The parts of a line, as [`read_line`] reads it, but for its digits, at which it doesn't look: a line whose digits spell no bytes
/// is bad too. None where it is bad for another reason.
#[tactic(auto, unfolding(crate::specs::Line::asked_by))]
pub fn split_line(line: &[u8]) -> Option<Parts<'_>>
    ensures asked { option_and_then asked_in result ≡ asked_by line.now }
    ensures within { IfSome result (AreDigitsWithin (length line.now)) }
    ensures short { IfSome result (λ _. length line.now ≤ line_limit) }
{
    if line.len() > LINE_LIMIT {
        return None;
    }
    split_content(line.strip_suffix(b"\r").unwrap_or(line))
}

/// What a line of a script asks for, without its line feed, or None where it is bad. A line is
/// empty, a comment that begins with `#`, a message `o HEX` or a frame `f PORT HEX`, HEX being an
/// even number of hexadecimal digits of either case, or none, and PORT one to five decimal digits,
/// at most 65535. One CR at its end is dropped. Every other line is bad, and so is one of over
/// 20,000 bytes, the CR among them. The bytes that it spells are put into the buffer; what else
/// that holds is left open.
pub fn read_line<'a>(line: &[u8], buffer: &'a mut [u8; 10_000]) -> Option<Line<'a>>
    ensures asked { option_map shown result ≡ asked_by line.now }
    ensures within { IfSome result (IsSpelledWithin (length line.now)) }
{
    match split_line(line)? {
        Parts::Message(digits) => Some(Line::Message(read_bytes(digits, buffer)?)),
        Parts::Frame(port, digits) => Some(Line::Frame(port, read_bytes(digits, buffer)?)),
        Parts::Nothing => Some(Line::Nothing),
    }
}
