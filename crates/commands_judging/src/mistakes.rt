//! What is wrong in a line of a history.
use crate::above::{Named, frame_ended_by, lines_above, next_named};
use crate::parts::{
    in_bytes, in_end, in_gem, in_number, in_numbers, in_space, place_of_numbers, unexpected,
};
use commands_files::line_of;
use script_lines::{LINE_LIMIT, read_port};
use std::fmt;
use text_encode::without_mark;
use text_messages::find_mistake;
use text_writing::{Expected, Found, Mistake};

/// Why a line of a history is bad.
#[derive(Clone, Copy)]
pub(crate) enum HistoryMistake {
    /// What stands in a column isn't what may stand there.
    Unexpected {
        column: usize,
        found: Found,
        expected: &'static str,
    },
    /// What stands behind the mark of a line that scripts and dialogues have too.
    Behind(Mistake),
    /// No line above sent this frame.
    Unsent(Named),
    /// This frame has ended in this line.
    Ended(Named, u64),
    /// This frame may have left, as this line says.
    Doubtful(Named, u64),
    /// No line above says that this frame, which stands alone, may have left.
    Alone(Named),
    /// One of the frames from this on has ended, or must have left.
    UsedUp(Named),
    /// Fewer replies were seen.
    Unseen(u64),
    /// The history has ended in this line.
    Finished(u64),
}

impl fmt::Display for HistoryMistake {
    fn fmt<W: fmt::Write>(&self, f: &mut fmt::Formatter<W>) -> fmt::Result {
        match self {
            HistoryMistake::Unexpected {
                column,
                found,
                expected,
            } => write!(f, "column {column}: found {found}, expected {expected}"),
            HistoryMistake::Behind(mistake) => write!(f, "{mistake}"),
            HistoryMistake::Unsent(Named { number, column }) => {
                let (number, column) = (*number, *column);
                write!(f, "column {column}: no line above sent frame {number}")
            }
            HistoryMistake::Ended(Named { number, column }, line) => {
                let (number, column) = (*number, *column);
                write!(
                    f,
                    "column {column}: frame {number} has ended in line {line}"
                )
            }
            HistoryMistake::Doubtful(Named { number, column }, line) => {
                let (number, column) = (*number, *column);
                write!(
                    f,
                    "column {column}: frame {number} may have left in line {line}"
                )
            }
            HistoryMistake::Alone(Named { number, column }) => {
                let (number, column) = (*number, *column);
                write!(
                    f,
                    "column {column}: no line above says that frame {number} may have left, so 'g' names it"
                )
            }
            HistoryMistake::UsedUp(Named { column, .. }) => {
                let column = *column;
                write!(
                    f,
                    "column {column}: one of these frames has ended or left by the lines above"
                )
            }
            HistoryMistake::Unseen(count) => {
                write!(f, "column 3: fewer than {count} replies were seen above")
            }
            HistoryMistake::Finished(line) => {
                write!(f, "column 1: the history has ended in line {line}")
            }
        }
    }
}

/// The marks with which the lines of a history begin.
const MARKS: &str = "'o', 'r', 'f', 'g', 'd', 'l', 'a', 's', 'w', 'e' or '#'";

/// The line without a carriage return at its end.
fn content_of(line: &[u8]) -> &[u8] {
    line.strip_suffix(b"\r").unwrap_or(line)
}

/// What is wrong with a message, a reply or a remark, but for its length.
fn in_told(line: &[u8]) -> Option<HistoryMistake> {
    let mistake = find_mistake(line);
    match mistake.expected {
        Expected::Limit(_) => None,
        _ => Some(HistoryMistake::Behind(mistake)),
    }
}

/// The place of the bytes of a frame that was sent, where its port is one.
fn place_of_sent(content: &[u8]) -> Option<usize> {
    let behind = content.strip_prefix(b"f ")?;
    let space = behind.iter().position(|byte| *byte == b' ')?;
    read_port(behind.get(..space)?)?;
    Some(space.saturating_add(3))
}

/// What is wrong with a frame that was sent, but for its length.
fn in_sent(line: &[u8], content: &[u8]) -> Option<HistoryMistake> {
    match place_of_sent(content) {
        Some(place) => in_bytes(content, place),
        None => Some(HistoryMistake::Behind(find_mistake(line))),
    }
}

/// What is wrong from a place on, where a space stands ahead of a GEM port and the bytes of a frame that was seen to leave.
fn in_seen(content: &[u8], place: usize) -> Option<HistoryMistake> {
    let gem = match in_space(content, place) {
        Ok(behind) => in_gem(content, behind),
        Err(mistake) => Err(mistake),
    };
    let bytes = match gem {
        Ok(behind) => in_space(content, behind),
        Err(mistake) => Err(mistake),
    };
    match bytes {
        Ok(behind) => in_bytes(content, behind),
        Err(mistake) => Some(mistake),
    }
}

/// What is wrong with a line that has a number behind its mark.
fn in_numbered(content: &[u8]) -> Option<HistoryMistake> {
    match in_number(content) {
        Ok((_, behind)) if content.starts_with(b"g") => in_seen(content, behind),
        Ok((_, behind)) => in_end(content, behind),
        Err(mistake) => Some(mistake),
    }
}

/// What is wrong with a line that names frames of which one left.
fn in_one_of(content: &[u8]) -> Option<HistoryMistake> {
    match place_of_numbers(content) {
        Ok(place) => in_numbers(content, place),
        Err(mistake) => Some(mistake),
    }
}

/// What is wrong with a line by itself, or None where it may stand somewhere.
fn in_line(line: &[u8]) -> Option<HistoryMistake> {
    let content = content_of(line);
    let bad = match content {
        [] | b"w" => None,
        [b'o' | b'r' | b'#', ..] => in_told(line),
        [b'f', ..] => in_sent(line, content),
        [b's', ..] => in_seen(content, 1),
        [b'a', ..] => in_one_of(content),
        [b'g' | b'd' | b'l' | b'w', ..] => in_numbered(content),
        [b'e', ..] => in_end(content, 1),
        _ => Some(unexpected(content, 0, MARKS)),
    };
    if bad.is_none() && line.len() > LINE_LIMIT {
        return Some(unexpected(
            line,
            LINE_LIMIT,
            "the line's end, behind at most 20000 bytes",
        ));
    }
    bad
}

/// How many of the frames that a line names are looked for above it, each in all lines.
const LOOKED_FOR: usize = 10;

/// The first of the frames that a line names, of those that are looked for, which has ended, or is doubtful.
fn ended_above(text: &[u8], line: u64, content: &[u8]) -> (Option<HistoryMistake>, bool) {
    let mut least = 0;
    let mut doubtful = false;
    for _ in 0..LOOKED_FOR {
        let Some(named) = next_named(content, least) else {
            break;
        };
        let above = lines_above(text, line, Some(named.number));
        if let Some(end) = above.ended {
            return (Some(HistoryMistake::Ended(named, end)), doubtful);
        }
        doubtful = doubtful || above.doubtful.is_some();
        least = named.number.saturating_add(1);
    }
    (None, doubtful)
}

/// Why a line that names frames of which one left, and is good by itself, may not stand behind those above it, which sent so many frames.
fn in_named(text: &[u8], line: u64, content: &[u8], first: Named, sent: u64) -> HistoryMistake {
    if let Some(unsent) = next_named(content, sent) {
        return HistoryMistake::Unsent(unsent);
    }
    let is_alone = next_named(content, first.number.saturating_add(1)).is_none();
    match ended_above(text, line, content) {
        (Some(mistake), _) => mistake,
        (None, false) if is_alone => HistoryMistake::Alone(first),
        (None, _) => HistoryMistake::UsedUp(first),
    }
}

/// Why a line that is good by itself may not stand behind those above it.
fn in_place(text: &[u8], line: u64, content: &[u8]) -> HistoryMistake {
    let frame = frame_ended_by(content);
    let above = lines_above(text, line, frame);
    if let Some(end) = above.finished {
        return HistoryMistake::Finished(end);
    }
    if let Some(first) = next_named(content, 0) {
        return in_named(text, line, content, first, above.sent);
    }
    let Some(number) = frame else {
        return match in_number(content) {
            Ok((count, _)) => HistoryMistake::Unseen(count),
            Err(mistake) => mistake,
        };
    };
    let named = Named { number, column: 3 };
    match (above.ended, above.doubtful) {
        (Some(end), _) => HistoryMistake::Ended(named, end),
        (None, Some(line)) => HistoryMistake::Doubtful(named, line),
        (None, None) => HistoryMistake::Unsent(named),
    }
}

/// What is wrong in a line of a history that is bad, by its number from 1.
pub(crate) fn find_history_mistake(history: &[u8], line: u64) -> HistoryMistake {
    let found = line_of(history, line);
    match in_line(found) {
        Some(mistake) => mistake,
        None => in_place(without_mark(history), line, content_of(found)),
    }
}
