//! Where a frame comes from.

/// The record of a frame that leaves.
#[derive(Clone, Copy)]
pub(crate) struct Origin {
    /// Its number in the capture that is read, from 1.
    pub(crate) number: u64,
    /// Its time, in nanoseconds.
    pub(crate) time: u64,
}
