//! Of what the words of a filter and of a treatment speak.

/// Of what words speak that ask something of tags. Both have the same words, but an entry says what its codes can.
#[derive(Clone, Copy, Debug, PartialEq, Eq)]
pub enum Subject {
    /// An entry of a table.
    Entry,
    /// What is expected of frames: a TPID is any number, and a drop eligible indicator stands beside each.
    Expectation,
}
