//! What one line of a history says.
ghost use Rattle.std.specs.Prelude.{◌≡◌, ◌≤◌, length};
ghost use Rattle.script_lines.specs.Line.{line_limit, without_cr};
ghost use Rattle.bench_history.specs.Line.{content_told, end_told, entered_by, event_of, frame_told, left_by, left_one_by, strayed_by, told, unsure_told, waited_by};

use crate::among::Among;
use crate::digits::Digits;
use crate::event::Event;
use crate::number::read_count;
use crate::words::{read_seen, split_gem, split_number, split_port};
use script_lines::LINE_LIMIT;

/// A frame that entered, by `PORT HEX`.
fn read_entered(parts: &[u8]) -> Option<Event<'_>>
    requires { length parts.now ≤ line_limit }
    ensures { result ≡ entered_by parts.now }
{
    let (port, digits) = split_port(parts)?;
    let (extent, frame) = read_seen(digits)?;
    Some(Event::Entered {
        port,
        extent,
        frame,
    })
}

/// A frame that left, by `N GEM HEX`.
fn read_left(parts: &[u8]) -> Option<Event<'_>>
    requires { length parts.now ≤ line_limit }
    ensures { result ≡ left_by parts.now }
{
    let (number, parts) = split_number(parts)?;
    let (gem, digits) = split_gem(parts)?;
    let (extent, frame) = read_seen(digits)?;
    Some(Event::Left {
        gem,
        extent,
        number,
        frame,
    })
}

/// A frame that left and is one of several, by `GEM HEX N N ..`.
fn read_left_one(parts: &[u8]) -> Option<Event<'_>>
    requires { length parts.now ≤ line_limit }
    ensures { result ≡ left_one_by parts.now }
{
    let (gem, text) = split_gem(parts)?;
    let (extent, among) = Among::of(text)?;
    Some(Event::LeftOneOf { gem, extent, among })
}

/// A stray, by `GEM HEX`.
fn read_strayed(parts: &[u8]) -> Option<Event<'_>>
    requires { length parts.now ≤ line_limit }
    ensures { result ≡ strayed_by parts.now }
{
    let (gem, digits) = split_gem(parts)?;
    let (extent, frame) = read_seen(digits)?;
    Some(Event::Strayed { gem, extent, frame })
}

/// What a line says of a frame that was not seen, or of the end of the observation.
fn read_end_told(content: &[u8]) -> Option<Event<'_>>
    ensures { result ≡ end_told content.now }
{
    if let Some(number) = content.strip_prefix(b"d ") {
        let number = read_count(number)?;
        return Some(Event::Dropped { number });
    }
    if let Some(number) = content.strip_prefix(b"l ") {
        let number = read_count(number)?;
        return Some(Event::Lost { number });
    }
    if content == b"e".as_slice() {
        return Some(Event::Ended);
    }
    None
}

/// What a line says of a frame that can't be told for sure.
fn read_unsure_told(content: &[u8]) -> Option<Event<'_>>
    requires { length content.now ≤ line_limit }
    ensures { result ≡ unsure_told content.now }
{
    if let Some(parts) = content.strip_prefix(b"a ") {
        return read_left_one(parts);
    }
    if let Some(parts) = content.strip_prefix(b"s ") {
        return read_strayed(parts);
    }
    read_end_told(content)
}

/// What a line says of a frame.
fn read_frame_told(content: &[u8]) -> Option<Event<'_>>
    requires { length content.now ≤ line_limit }
    ensures { result ≡ frame_told content.now }
{
    if let Some(parts) = content.strip_prefix(b"f ") {
        return read_entered(parts);
    }
    if let Some(parts) = content.strip_prefix(b"g ") {
        return read_left(parts);
    }
    read_unsure_told(content)
}

/// What a line that begins with `w` waits for, by what stands behind that.
fn read_waited(behind: &[u8]) -> Option<Event<'_>>
    ensures { result ≡ waited_by behind.now }
{
    if behind.is_empty() {
        return Some(Event::Waited { replies: None });
    }
    let replies = read_count(behind.strip_prefix(b" ")?)?;
    Some(Event::Waited {
        replies: Some(replies),
    })
}

/// What a line says that is neither empty nor a remark.
fn read_told(content: &[u8]) -> Option<Event<'_>>
    requires { length content.now ≤ line_limit }
    ensures { result ≡ told content.now }
{
    if let Some(digits) = content.strip_prefix(b"o ") {
        let message = Digits::of(digits)?;
        return Some(Event::Sent { message });
    }
    if let Some(digits) = content.strip_prefix(b"r ") {
        let reply = Digits::of(digits)?;
        return Some(Event::Replied { reply });
    }
    if let Some(behind) = content.strip_prefix(b"w") {
        return read_waited(behind);
    }
    read_frame_told(content)
}

/// What a line without the CR at its end says.
fn read_content(content: &[u8]) -> Option<Event<'_>>
    requires { length content.now ≤ line_limit }
    ensures { result ≡ content_told content.now }
{
    if content.is_empty() || content.starts_with(b"#") {
        return Some(Event::Nothing);
    }
    read_told(content)
}

/// A line without one CR at its end.
fn without_cr(line: &[u8]) -> &[u8]
    ensures content { result.now ≡ without_cr line.now }
    ensures within { length result.now ≤ length line.now }
{
    line.strip_suffix(b"\r").unwrap_or(line)
}

/// What a line says by itself, without its line feed, or None where it is bad.
#[tactic(auto, unfolding(crate::specs::Line::event_of))]
pub(crate) fn read_event(line: &[u8]) -> Option<Event<'_>>
    ensures { result ≡ event_of line.now }
{
    if line.len() > LINE_LIMIT {
        return None;
    }
    read_content(without_cr(line))
}
