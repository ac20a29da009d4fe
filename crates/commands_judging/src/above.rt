//! What the lines above a bad one say.
use crate::parts::{in_next_number, in_number, place_of_numbers};
use script_lines::first_line;

/// The number of the frame that a line ends, if it says that it ends one.
pub(crate) fn frame_ended_by(content: &[u8]) -> Option<u64> {
    match content {
        [b'g' | b'd' | b'l', ..] => match in_number(content) {
            Ok((number, _)) => Some(number),
            Err(_) => None,
        },
        _ => None,
    }
}

/// A frame that a line names, and where its number stands.
#[derive(Clone, Copy)]
pub(crate) struct Named {
    pub(crate) number: u64,
    pub(crate) column: usize,
}

/// The first frames that a good line says one left of: the first that isn't under a number, by its place from 0.
fn named_from(content: &[u8], least: u64) -> Option<Named> {
    let mut place = match place_of_numbers(content) {
        Ok(place) => place,
        Err(_) => return None,
    };
    for _ in 0..content.len() {
        let (number, end) = match in_next_number(content, place, 0) {
            Ok(found) => found,
            Err(_) => return None,
        };
        if number >= least {
            let column = place.saturating_add(1);
            return Some(Named { number, column });
        }
        place = end.saturating_add(1);
    }
    None
}

/// The first frame that a line names of which one left, from a number on.
pub(crate) fn next_named(line: &[u8], least: u64) -> Option<Named> {
    match line {
        [b'a', ..] => named_from(line, least),
        _ => None,
    }
}

/// Whether a line says of a frame, among others or alone, that one left.
fn names(line: &[u8], frame: u64) -> bool {
    match next_named(line, frame) {
        Some(named) => named.number == frame,
        None => false,
    }
}

/// What the lines above one say.
#[derive(Clone, Copy)]
pub(crate) struct Above {
    /// How many frames they sent.
    pub(crate) sent: u64,
    /// The line in which the frame ended that is asked for.
    pub(crate) ended: Option<u64>,
    /// The first line since which it is doubtful.
    pub(crate) doubtful: Option<u64>,
    /// The line in which the history ended.
    pub(crate) finished: Option<u64>,
}

impl Above {
    /// Adds what a line says, by its number.
    fn add(&mut self, number: u64, line: &[u8], frame: Option<u64>) {
        match line {
            [b'e', ..] => self.finished = Some(number),
            [b'f', ..] => self.sent = self.sent.saturating_add(1),
            _ => {}
        }
        let Some(frame) = frame else {
            return;
        };
        if frame_ended_by(line) == Some(frame) {
            self.ended = Some(number);
        }
        if self.doubtful.is_none() && names(line, frame) {
            self.doubtful = Some(number);
        }
    }
}

/// Whether the history has ended in one of the lines above that of a number, each of them a good one, and what they say of the frame of this
/// number.
pub(crate) fn lines_above(text: &[u8], line: u64, frame: Option<u64>) -> Above {
    let mut above = Above {
        sent: 0,
        ended: None,
        doubtful: None,
        finished: None,
    };
    let mut rest = text;
    for number in 1..line {
        if rest.is_empty() {
            break;
        }
        let (found, behind) = first_line(rest);
        above.add(number, found.strip_suffix(b"\r").unwrap_or(found), frame);
        rest = behind;
    }
    above
}
