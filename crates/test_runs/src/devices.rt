//! A reader that fails, or that gives a few bytes at a time.

use std::io;
use std::io::{ErrorKind, Read};

/// Hands over at most so many bytes a read, and fails once all are handed over, where it is to.
#[derive(Drop)]
pub(crate) struct Source<'a> {
    pub(crate) bytes: &'a [u8],
    pub(crate) most: usize,
    pub(crate) fails: bool,
}

impl Read for Source<'_> {
    fn read(&mut self, buf: &mut [u8]) -> io::Result<usize> {
        if self.bytes.is_empty() && self.fails {
            return Err(io::Error::from(ErrorKind::Interrupted));
        }
        let count = self.most.min(buf.len()).min(self.bytes.len());
        let (given, rest) = self.bytes.split_at(count);
        buf[..count].copy_from_slice(given);
        self.bytes = rest;
        Ok(count)
    }
}
