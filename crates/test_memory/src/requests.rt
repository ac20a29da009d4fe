//! Requests for memory that is given back at once.
use std::alloc::Global;

/// The most requests that are made to find one that is refused.
const MOST: u32 = 10_000;

/// How many requests there are until one is refused, which counts too; None where none is.
pub(crate) fn requests_until_refusal(alloc: Global) -> Option<u32> {
    for count in 1..=MOST {
        if Vec::<u8>::with_capacity(alloc, 1).is_err() {
            return Some(count);
        }
    }
    None
}
