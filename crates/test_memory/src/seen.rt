//! What was seen of a call.
use crate::memory::Memory;

/// That a call did what it must, or what was wrong.
pub(crate) type Seen = Result<(), &'static str>;

/// Wrong of a call that says twice that there is no memory, where one request alone is refused.
pub(crate) const REFUSED_AGAIN: &str = "refused again, or for another cause";

/// All is well where it holds.
pub(crate) fn must(holds: bool, wrong: &'static str) -> Seen {
    if holds { Ok(()) } else { Err(wrong) }
}

/// Prints the line of a call, and whether it said on the way that there was no memory.
pub(crate) fn report<R: Print>(rt: &R, memory: &Memory, call: &str, seen: Seen) {
    let words = match seen {
        Ok(()) => "as expected",
        Err(wrong) => wrong,
    };
    let behind = if memory.was_wanted() {
        ", after a want of memory"
    } else {
        ""
    };
    let _ = println!(rt; "{call}: {words}{behind}");
}
