//! Readers that give little at a time, or fail.
use std::io;
use std::io::{ErrorKind, Read};

/// Gives one to seven bytes at a time, and is interrupted between any two reads.
#[derive(Debug, Drop)]
pub(crate) struct Drip<'a> {
    left: &'a [u8],
    turn: u8,
}

impl<'a> Drip<'a> {
    pub(crate) fn of(left: &'a [u8]) -> Self {
        Drip { left, turn: 0 }
    }
}

impl<'a> Read for Drip<'a> {
    fn read(&mut self, buffer: &mut [u8]) -> io::Result<usize> {
        self.turn = self.turn.wrapping_add(1);
        if self.turn % 2 == 0 {
            return Err(io::Error::from(ErrorKind::Interrupted));
        }
        let count = usize::from(self.turn / 2 % 7 + 1);
        let count = count.min(self.left.len()).min(buffer.len());
        let (given, left) = self.left.split_at(count);
        let (room, _) = buffer.split_at_mut(count);
        room.copy_from_slice(given);
        self.left = left;
        Ok(count)
    }
}

/// Gives ten bytes at a time, and fails each second time.
#[derive(Debug, Drop)]
pub(crate) struct Failing<'a> {
    left: &'a [u8],
    fails: bool,
}

impl<'a> Failing<'a> {
    pub(crate) fn of(left: &'a [u8]) -> Self {
        Failing { left, fails: false }
    }
}

impl<'a> Read for Failing<'a> {
    fn read(&mut self, buffer: &mut [u8]) -> io::Result<usize> {
        self.fails = !self.fails;
        if !self.fails {
            return Err(io::Error::from(ErrorKind::TimedOut));
        }
        let count = 10.min(self.left.len()).min(buffer.len());
        let (given, left) = self.left.split_at(count);
        let (room, _) = buffer.split_at_mut(count);
        room.copy_from_slice(given);
        self.left = left;
        Ok(count)
    }
}
