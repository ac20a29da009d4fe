//! Who is told how far the reading of a history is.

/// How many lines are read between two times that it is told.
const LINES_A_STEP: usize = 65_536;

/// Who is told how far the reading of a history is. What it does has no part in what is read.
pub trait ReadWatch {
    /// So many of so many bytes were read. It is told each 65,536 lines.
    fn has_read(&mut self, bytes: usize, of: usize);
}

/// Nobody is told.
#[derive(Drop)]
pub(crate) struct Nobody;

impl ReadWatch for Nobody {
    fn has_read(&mut self, _bytes: usize, _of: usize) {}
}

/// What stands behind a text in its history, and how long that is, in bytes.
#[derive(Clone, Copy)]
pub(crate) struct Ahead {
    pub(crate) behind: usize,
    pub(crate) of: usize,
}

/// Tells how far the reading is behind so many lines, where so many bytes of a text are left, if it is time to.
pub(crate) fn tell<W: ReadWatch>(watch: &mut W, lines: usize, left: usize, ahead: Ahead) {
    if lines > 0 && lines % LINES_A_STEP == 0 {
        let left = left.saturating_add(ahead.behind);
        watch.has_read(ahead.of.saturating_sub(left), ahead.of);
    }
}
