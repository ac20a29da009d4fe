//! What is known of a frame.

use bench_history::Extent;

/// What is known of a frame: so much of it, and the digits of that.
#[derive(Drop)]
pub(crate) struct Known<'a> {
    pub(crate) extent: Extent,
    pub(crate) digits: &'a [u8],
}
