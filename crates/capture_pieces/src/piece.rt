//! One piece of a file.

/// The most bytes that a record of a capture has: its header and the stored ones. So many of what follows a part are put behind it.
pub const OVERLAP: usize = 262_160;

/// A part of a file, and behind it the bytes that follow: as many as the longest record has, or all.
#[derive(Drop)]
pub(crate) struct Piece {
    /// The part, and what follows.
    pub(crate) bytes: Vec<u8>,
    /// How many of the bytes are the part.
    pub(crate) own: usize,
}
