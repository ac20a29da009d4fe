//! What becomes of a command whose output nobody reads any more, as where `head` has read the lines that it wants.
use std::io;
use std::io::{Error, ErrorKind, IsTerminal, Write};
use std::sync::atomic::{AtomicBool, Ordering};
use text_writing::Status;

/// Whether a write to the output has shown that nobody reads it any more. Of a write that failed, the functions that write texts keep
/// only that it did: so the output itself notes why.
#[derive(Drop)]
pub struct Unread(AtomicBool);

impl Unread {
    /// No write has shown it yet.
    pub fn new() -> Self {
        Unread(AtomicBool::new(false))
    }

    /// The output, watched.
    pub fn watch<O>(&self, out: O) -> Watched<'_, O> {
        Watched { out, unread: self }
    }

    /// Standard error, silent as soon as nobody reads the output.
    pub fn silence<E>(&self, err: E) -> Silenced<'_, E> {
        Silenced { err, unread: self }
    }

    /// The status that the program ends with, where its command gives this one.
    pub fn status(&self, status: Status) -> Status {
        if self.is_known() {
            Status::Unread
        } else {
            status
        }
    }

    /// Whether a write has shown it.
    fn is_known(&self) -> bool {
        self.0.load(Ordering::SeqCst)
    }

    /// Notes it where a write failed for that reason.
    fn note(&self, error: &Error) {
        if matches!(error.kind(), ErrorKind::BrokenPipe) {
            self.0.store(true, Ordering::SeqCst);
        }
    }
}

/// The output: it writes as its writer does, and notes where nobody reads that any more.
#[derive(Drop)]
pub struct Watched<'a, O> {
    out: O,
    unread: &'a Unread,
}

impl<O: Write> Write for Watched<'_, O> {
    ghost contents = { λ watched. O.contents watched.out };

    fn write(&mut self, bytes: &[u8]) -> io::Result<usize> {
        match self.out.write(bytes) {
            Ok(taken) => Ok(taken),
            Err(error) => {
                self.unread.note(&error);
                Err(error)
            }
        }
    }

    fn flush(&mut self) -> io::Result<()> {
        self.out.flush()
    }
}

/// Standard error: it writes as its writer does, and nothing once nobody reads the output.
#[derive(Drop)]
pub struct Silenced<'a, E> {
    err: E,
    unread: &'a Unread,
}

impl<E: Write> Write for Silenced<'_, E> {
    ghost contents = { λ silenced. E.contents silenced.err };

    fn write(&mut self, bytes: &[u8]) -> io::Result<usize> {
        if self.unread.is_known() {
            return Err(Error::from(ErrorKind::BrokenPipe));
        }
        self.err.write(bytes)
    }

    fn flush(&mut self) -> io::Result<()> {
        self.err.flush()
    }
}

impl<E: IsTerminal> IsTerminal for Silenced<'_, E> {
    fn is_terminal(&self) -> bool {
        self.err.is_terminal()
    }
}
