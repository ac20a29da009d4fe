//! A history that is written while it happens, by several threads.
use forward_plan::Verdict;
use std::alloc::{AllocError, Global};
use std::io::Write;
use std::sync::{Mutex, Wait};

/// What was seen so far, a line for each event, and how many frames were sent.
#[derive(Drop)]
pub(crate) struct History {
    pub(crate) text: Vec<u8>,
    frames: u32,
}

impl History {
    /// Nothing was seen.
    pub(crate) fn new(alloc: Global) -> Self {
        History {
            text: Vec::new(alloc),
            frames: 0,
        }
    }

    /// Puts the digits of bytes behind the text, and ends the line.
    fn end_line(&mut self, bytes: &[u8]) {
        for byte in bytes {
            let _ = write!(self.text, "{byte:02x}");
        }
        let _ = self.text.write_all(b"\n");
    }

    /// The line of a message or of a reply.
    pub(crate) fn put(&mut self, letter: &str, bytes: &[u8]) {
        let _ = write!(self.text, "{letter} ");
        self.end_line(bytes);
    }

    /// The line of a frame that is sent into a port, and its number.
    fn send(&mut self, port: u16, frame: &[u8]) -> u32 {
        let number = self.frames;
        self.frames = self.frames.saturating_add(1);
        let _ = write!(self.text, "f {port} ");
        self.end_line(frame);
        number
    }

    /// The line of what became of a frame.
    fn end(&mut self, alloc: Global, number: u32, verdict: &Verdict<'_>) {
        match verdict {
            Verdict::Forward { gem, frame } => {
                let mut bytes = Vec::new(alloc);
                let _ = frame.append_to(&mut bytes);
                let _ = write!(self.text, "g {number} {gem} ");
                self.end_line(&bytes);
            }
            Verdict::Drop(_) => {
                let _ = writeln!(self.text, "d {number}");
            }
        }
    }

    /// The text so far, and the line that says that the observation ended there.
    pub(crate) fn ended(&self, alloc: Global) -> Result<Vec<u8>, AllocError> {
        let mut text = self.text.to_vec(alloc)?;
        text.extend_from_slice(b"e\n")?;
        Ok(text)
    }

    /// A line that says that what was replied to is in force.
    pub(crate) fn wait(&mut self) {
        let _ = self.text.write_all(b"w\n");
    }
}

/// Puts the line of a message or of a reply behind a history that threads share.
pub(crate) fn put(rt: &impl Wait, history: &Mutex<History>, letter: &str, bytes: &[u8]) {
    history.lock(rt).put(letter, bytes);
}

/// The same of a frame that is sent into a port; it gives the frame's number.
pub(crate) fn send(rt: &impl Wait, history: &Mutex<History>, port: u16, frame: &[u8]) -> u32 {
    history.lock(rt).send(port, frame)
}

/// The same of what became of a frame.
pub(crate) fn end(
    rt: &impl Wait,
    alloc: Global,
    history: &Mutex<History>,
    number: u32,
    verdict: &Verdict<'_>,
) {
    history.lock(rt).end(alloc, number, verdict);
}
