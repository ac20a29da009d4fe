//! The lines of a reader, one at a time.
ghost use Rattle.std.specs.Prelude.{◌≤◌, vec_len};

use memchr::memchr;
use std::alloc::{AllocError, Global};
use std::io::{self, Read};

/// The room for a line and for what is read with it. A line of a script, or of a dialogue, has far fewer bytes.
const ROOM: usize = 65_536;

/// The lines of a reader, one at a time. A line is there as soon as its line feed is read. What is held is one line and what was
/// read behind it, never more than 65,536 bytes.
#[derive(Drop)]
pub struct LineReader {
    buffer: Vec<u8>,
    start: usize,
    end: usize,
    has_ended: bool,
    ghost ordered: { start ≤ end },
    ghost held: { end ≤ vec_len buffer },
}

impl LineReader {
    /// The lines of a reader of which nothing is read.
    pub fn new(alloc: Global) -> Result<Self, AllocError> {
        Ok(LineReader {
            buffer: vec![in alloc; 0u8; ROOM]?,
            start: 0,
            end: 0,
            has_ended: false,
        })
    }

    /// The next line, without its line feed, or None where there is none. A last line without a line feed is one where it isn't
    /// empty. Of a line over 65,536 bytes it gives the first so many. A read that fails isn't made again.
    pub fn next_line<R: Read>(&mut self, reader: &mut R) -> io::Result<Option<&[u8]>> {
        match self.find_line(reader)? {
            Some((len, behind)) => Ok(Some(self.take(len, behind))),
            None => Ok(None),
        }
    }

    /// How many bytes the next line has, and how many its end, or None where there is no line.
    fn find_line<R: Read>(&mut self, reader: &mut R) -> io::Result<Option<(usize, usize)>> {
        if let Some(len) = memchr(b'\n', &self.buffer[self.start..self.end]) {
            return Ok(Some((len, 1)));
        }
        self.move_to_front();
        match self.read_on(reader)? {
            Some(len) => Ok(Some((len, 1))),
            None if self.end == 0 => Ok(None),
            None => Ok(Some((self.end, 0))),
        }
    }

    /// Takes so many bytes from the front, and passes over what follows them.
    fn take(&mut self, len: usize, behind: usize) -> &[u8] {
        let start = self.start;
        let end = self.end.min(start.saturating_add(len));
        self.start = self.end.min(end.saturating_add(behind));
        &self.buffer[start..end]
    }

    /// Moves what is held to the front of the buffer.
    fn move_to_front(&mut self) {
        self.buffer.copy_within(self.start..self.end, 0);
        self.end -= self.start;
        self.start = 0;
    }

    /// Reads on until a line feed is read, the buffer is full or the reader ends, and says where the first line feed stands.
    fn read_on<R: Read>(&mut self, reader: &mut R) -> io::Result<Option<usize>> {
        for _ in 0..ROOM {
            if self.has_ended || self.end >= self.buffer.len() {
                return Ok(None);
            }
            let begun = self.end;
            let taken = reader.read(&mut self.buffer[begun..])?;
            if taken == 0 {
                self.has_ended = true;
                return Ok(None);
            }
            self.end = begun + taken;
            if let Some(place) = memchr(b'\n', &self.buffer[begun..self.end]) {
                return Ok(Some(begun + place));
            }
        }
        Ok(None)
    }
}
