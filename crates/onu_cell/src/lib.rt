//! A cell that C owns: a unit stands in it, or nothing does.
//!
//! **What crosses to C** is the address of a [`Cell`]. C makes the cell, all its bytes zero, passes its address with each call, and never
//! looks into it. In a full cell is the address of a unit on the heap, which the cell owns: [`Cell::take`] makes a `Box` of it again.
//!
//! **A cell is lent to one call at a time.** A call takes the unit out, uses it, and puts it back; nothing is moved on the heap.
//!
//! **The numbers** by which the calls from C answer, beside those of a message, stand in `specs/Numbers.antt`.
#![tactic(auto)]

mod cell;
mod handle;
mod numbers;
mod opening;

pub use cell::Cell;
pub use numbers::{
    BACKWARD, BAD_AFTER, BAD_LINE, BAD_START, CLOSED, FLAGS, NO_MEMORY, OPEN, SMALL,
};
pub use opening::{close, open};
