//! A script as it comes in: without a byte order mark, made of words where it is in words, and with the line in memory that is read.
use crate::reports::without_memory;
use crate::written::script_of;
use script_lines::{MOST_SPELLED, first_line, read_line};
use std::alloc::{AllocError, Global};
use std::io;
use std::io::{ErrorKind, Read, Write};
use text_encode::{is_in_words, without_mark};
use text_writing::{LookFault, Status, report_look};

/// The bytes in which the first word of a script is looked for.
const FRONT: usize = 65_536;

/// The room for what is held: it is taken before the first read. More is held only where a reader asks for more at once.
const HELD: usize = 1 << 18;

/// A script that is read. It gives what its reader gives, or the script that words ask for. What was read last is held, up from the
/// beginning of a line, so that a line that is bad can be shown.
#[derive(Drop)]
pub struct ScriptInput<'r, I> {
    reader: &'r mut I,
    /// What is given before the reader is asked.
    front: Vec<u8>,
    /// How many bytes of that are given.
    given: usize,
    held: Vec<u8>,
    /// Whether a part couldn't be held for want of memory.
    lost: bool,
}

/// Whether the front of a script has the whole of a line that says something.
fn says_something(front: &[u8]) -> bool {
    let mut rest = without_mark(front);
    for _ in 0..front.len() {
        if rest.is_empty() {
            break;
        }
        let (line, behind) = first_line(rest);
        if line.len() == rest.len() {
            return false;
        }
        if !matches!(line, [] | [b'#' | b'\r', ..]) {
            return true;
        }
        rest = behind;
    }
    false
}

/// Reads the front of a script, up to the first line that says something.
fn read_front<I: Read>(alloc: Global, reader: &mut I) -> io::Result<Vec<u8>> {
    let mut front = vec![in alloc; 0u8; FRONT]?;
    let mut filled = 0usize;
    for _ in 0..FRONT {
        if filled >= front.len() {
            break;
        }
        let count = reader.read(&mut front[filled..])?;
        filled = filled.saturating_add(count);
        if count == 0 || says_something(front.get(..filled).unwrap_or(&[])) {
            break;
        }
    }
    front.truncate(filled);
    Ok(front)
}

/// Says that a read failed, and gives the status.
fn report_read<E: Write>(error: &io::Error, err: &mut E) -> Status {
    match error.kind() {
        ErrorKind::OutOfMemory => without_memory(err),
        _ => report_look(&Err(LookFault::Read), err),
    }
}

/// Opens a script that is read, up to its first line that says something; where that is in words, all of it. Mistakes in these are
/// written to `err`; the status is that of the command then.
pub fn open_script<'r, I: Read, E: Write>(
    alloc: Global,
    reader: &'r mut I,
    err: &mut E,
) -> Result<ScriptInput<'r, I>, Status> {
    let mut front = match read_front(alloc, reader) {
        Ok(front) => front,
        Err(error) => return Err(report_read(&error, err)),
    };
    if is_in_words(&front) {
        if let Err(error) = reader.read_to_end(&mut front) {
            return Err(report_read(&error, err));
        }
        front = script_of(alloc, front, err)?;
    }
    let given = front.len().saturating_sub(without_mark(&front).len());
    let Ok(held) = Vec::with_capacity(alloc, HELD) else {
        return Err(without_memory(err));
    };
    Ok(ScriptInput {
        reader,
        front,
        given,
        held,
        lost: false,
    })
}

impl<I> ScriptInput<'_, I> {
    /// Holds what was read, behind the line that was begun before.
    fn hold(&mut self, piece: &[u8]) -> Result<(), AllocError> {
        let ended = self.held.iter().rposition(|byte| *byte == b'\n');
        let len = self.held.len();
        let begun = ended.map_or(0, |last| last.saturating_add(1)).min(len);
        self.held.copy_within(begun..len, 0);
        self.held.truncate(len - begun);
        self.held.extend_from_slice(piece)
    }

    /// The first line of those held that is bad, without its line feed.
    pub fn bad_line(&self) -> Option<&[u8]> {
        if self.lost {
            return None;
        }
        let mut buffer = [0; MOST_SPELLED];
        let mut rest = self.held.as_slice();
        for _ in 0..self.held.len() {
            if rest.is_empty() {
                break;
            }
            let (line, behind) = first_line(rest);
            if read_line(line, &mut buffer).is_none() {
                return Some(line);
            }
            rest = behind;
        }
        None
    }
}

impl<I: Read> Read for ScriptInput<'_, I> {
    fn read(&mut self, buffer: &mut [u8]) -> io::Result<usize> {
        let left = self.front.get(self.given..).unwrap_or(&[]);
        let count = if left.is_empty() {
            self.reader.read(buffer)?
        } else {
            let count = left.len().min(buffer.len());
            let (given, _) = left.split_at(count);
            let (room, _) = buffer.split_at_mut(count);
            room.copy_from_slice(given);
            self.given = self.given.saturating_add(count);
            count
        };
        if self.hold(buffer.get(..count).unwrap_or(&[])).is_err() {
            self.lost = true;
        }
        Ok(count)
    }
}
