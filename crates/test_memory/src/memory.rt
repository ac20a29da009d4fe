//! Where calls get their memory, and whether one of them found none.
use std::alloc::Global;
use std::cell::Cell;

/// The allocator that is handed to calls, and whether a call has said that there is no memory.
#[derive(Drop)]
pub(crate) struct Memory {
    alloc: Global,
    is_wanted: Cell<bool>,
}

impl Memory {
    pub(crate) fn new(alloc: Global) -> Memory {
        Memory {
            alloc,
            is_wanted: Cell::new(false),
        }
    }

    /// For a call that is made for the first time.
    pub(crate) fn first(&self) -> Global {
        self.alloc
    }

    /// For a call that has said that there is no memory, and is made again.
    pub(crate) fn again(&self) -> Global {
        self.is_wanted.set(true);
        self.alloc
    }

    /// Whether a call has said so since this was asked last.
    pub(crate) fn was_wanted(&self) -> bool {
        self.is_wanted.replace(false)
    }
}
