//! Why no expectations were read from a text.
use std::alloc::AllocError;
use text_words::Mistakes;

/// Why no expectations were read from a text.
#[derive(Drop)]
pub enum ExpectationsFault {
    /// The text has mistakes, one at least. These are all of them.
    Mistakes(Mistakes),
    /// There was no memory.
    NoMemory,
}

impl From<AllocError> for ExpectationsFault {
    fn from(_refused: AllocError) -> ExpectationsFault {
        ExpectationsFault::NoMemory
    }
}
