//! A line on a terminal that says how far something is.
use std::io::Write;

/// A line on a terminal that is written anew while something goes on. The cursor stands below it, at the beginning of a line: so what an
/// interrupt leaves ends with a line feed, and what is written next begins a line of its own. A write that fails is passed over.
#[derive(Drop)]
pub struct ProgressLine {
    is_shown: bool,
}

impl ProgressLine {
    /// Nothing is shown yet.
    pub fn new() -> ProgressLine {
        ProgressLine { is_shown: false }
    }

    /// Goes to where the text of the line begins. The text is to be written next, and then [`end`](ProgressLine::end) called.
    pub fn begin<E: Write>(&mut self, err: &mut E) {
        if self.is_shown {
            let _ = err.write_all(b"\x1b[A\r");
        }
        self.is_shown = true;
    }

    /// Ends the line behind its text.
    pub fn end<E: Write>(&self, err: &mut E) {
        let _ = err.write_all(b"\x1b[K\n");
    }

    /// Takes the line away, if it is shown.
    pub fn remove<E: Write>(&mut self, err: &mut E) {
        if self.is_shown {
            let _ = err.write_all(b"\x1b[A\r\x1b[K");
        }
        self.is_shown = false;
    }
}
