//! Hexadecimal digits of many bytes, read and written without a branch for a digit.
//!
//! The definitions are those of the kit's crate `hex`, and so are the answers. That crate asks of each digit what it is and stops at
//! the first that is none, which says where that stands. Here no loop ends early, and each step is arithmetic alone, so that a
//! compiler can do it for many digits at once. Which digit is wrong isn't said.
#![tactic(auto)]

mod lower;
mod read;
mod write;

pub use lower::make_lower;
pub use read::{are_pairs, read_digits};
pub use write::write_digits;
