//! A frame that wasn't seen to leave, and may be one that left as nobody knows which.
use crate::lines::HistoryLines;
use crate::shown_frame::{ADDRESSES, ShownFrame};
use crate::tag_difference::type_behind_tags;
use bench_history::{Digits, Extent};
use script_lines::{MOST_SPELLED, read_bytes};

/// The digits of the frame that a line saw leave, where it is a stray or one of several.
fn unsure_digits(line: &[u8]) -> Option<&[u8]> {
    let parts = match line.strip_prefix(b"s ") {
        Some(parts) => parts,
        None => line.strip_prefix(b"a ")?,
    };
    let space = parts.iter().position(|byte| *byte == b' ')?;
    let behind = parts.get(space.checked_add(1)?..)?;
    let end = match behind.iter().position(|byte| *byte == b' ') {
        Some(end) => end,
        None => behind.len(),
    };
    let digits = behind.get(..end)?;
    Some(digits.strip_suffix(b"..").unwrap_or(digits))
}

/// The bytes that digits spell, of those that stand in a line.
fn spelled<'b>(digits: &[u8], buffer: &'b mut [u8; MOST_SPELLED]) -> Option<&'b [u8]> {
    if digits.len() > 2 * MOST_SPELLED {
        return None;
    }
    read_bytes(digits, buffer)
}

/// Whether frames have the same addresses, and the same type behind their tags.
fn are_alike(one: &[u8], other: &[u8]) -> bool {
    let (Some(addresses), Some(others)) = (one.get(..ADDRESSES), other.get(..ADDRESSES)) else {
        return false;
    };
    if addresses != others {
        return false;
    }
    let one = ShownFrame::seen(one, Extent::Front);
    let other = ShownFrame::seen(other, Extent::Front);
    match (type_behind_tags(&one), type_behind_tags(&other)) {
        (Some(tpid), Some(others)) => tpid == others,
        _ => false,
    }
}

/// The first line behind that of a frame which saw one leave with its addresses and its type, and doesn't say for sure which frame it is.
pub(crate) fn seen_elsewhere(
    lines: &HistoryLines<'_>,
    sent_line: usize,
    sent: &Digits<'_>,
) -> Option<usize> {
    let (mut buffer, mut other) = ([0; MOST_SPELLED], [0; MOST_SPELLED]);
    let frame = sent.read(&mut buffer);
    for number in sent_line.saturating_add(1)..lines.end() {
        if let Some(line) = lines.line(number)
            && let Some(digits) = unsure_digits(line)
            && let Some(bytes) = spelled(digits, &mut other)
            && are_alike(frame, bytes)
        {
            return Some(number);
        }
    }
    None
}
