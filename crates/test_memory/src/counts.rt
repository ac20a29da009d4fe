//! Counts of verdicts, and the book of them.
use crate::memory::Memory;
use crate::seen::{REFUSED_AGAIN, Seen, must, report};
use forward_plan::{OutFrame, Reason, Verdict};
use frame_stats::{CountFault, Counts, StatBook, StatFault, count_of, counts_sum};
use test_draws::UNTAGGED;

/// Two GEM ports that have the same place in counts: the frames of one of them take memory.
const PORTS: [u16; 2] = [1024, 1295];

/// Whether these are the counts of so many batches, each with a runt and two frames of 20 bytes that leave, but for their GEM ports.
fn are_figures(counts: &Counts, batches: u64) -> bool {
    counts.frames == batches.saturating_mul(3)
        && counts.bytes == batches.saturating_mul(40)
        && counts.drops == [batches, 0, 0, 0, 0, 0, 0, 0, 0]
}

/// Whether they are, and both frames of each batch left by GEM port 1024.
pub(crate) fn are_counts(counts: &Counts, batches: u64) -> bool {
    are_figures(counts, batches)
        && counts.ports.frames(1024) == batches.saturating_mul(2)
        && counts.ports.frames(1025) == 0
}

/// Whether they are, and a frame of each batch left by either of the ports of one place.
pub(crate) fn are_of_both(counts: &Counts, batches: u64) -> bool {
    are_figures(counts, batches)
        && counts.ports.frames(PORTS[0]) == batches
        && counts.ports.frames(PORTS[1]) == batches
}

/// The untagged frame leaves by a GEM port with a tag of VLAN 100.
fn leaves(gem: u16) -> Verdict<'static> {
    let frame = OutFrame::of_words(UNTAGGED.as_slice(), 0, [0x8100_0064, 0, 0, 0], 1);
    Verdict::Forward { gem, frame }
}

/// The verdicts on a batch whose frames leave by both ports.
fn verdicts_of_both() -> [Verdict<'static>; 3] {
    [
        leaves(PORTS[0]),
        Verdict::Drop(Reason::Runt),
        leaves(PORTS[1]),
    ]
}

/// The counts of such a batch, asked for again where there was no memory.
pub(crate) fn counts_of_both(memory: &Memory) -> Result<Counts, &'static str> {
    let verdicts = verdicts_of_both();
    let counts = match count_of(memory.first(), &verdicts) {
        Err(CountFault::NoMemory) => count_of(memory.again(), &verdicts),
        counts => counts,
    };
    counts.map_err(|_| REFUSED_AGAIN)
}

/// A book of two lanes, made again where there was no memory.
pub(crate) fn book_of(memory: &Memory) -> Result<StatBook, &'static str> {
    let book = match StatBook::new(memory.first(), 2) {
        Err(StatFault::NoMemory) => StatBook::new(memory.again(), 2),
        book => book,
    };
    book.map_err(|_| REFUSED_AGAIN)
}

/// Whether a book has so many batches in its lanes.
pub(crate) fn has(book: &StatBook, lanes: [u64; 2]) -> bool {
    let [first, second] = lanes;
    let (Some(zero), Some(one)) = (book.part(0), book.part(1)) else {
        return false;
    };
    are_of_both(zero, first)
        && are_of_both(one, second)
        && are_of_both(book.total(), first.saturating_add(second))
        && book.part(2).is_none()
}

/// Adds the counts of a batch to a lane of a book, which is as it was where there was no memory.
pub(crate) fn add(
    memory: &Memory,
    book: &mut StatBook,
    lane: u16,
    counts: &Counts,
    before: [u64; 2],
) -> Seen {
    match book.add(lane, counts) {
        Ok(()) => Ok(()),
        Err(StatFault::NoMemory) => {
            must(has(book, before), "the book was changed")?;
            memory.again();
            must(book.add(lane, counts).is_ok(), REFUSED_AGAIN)
        }
        Err(_) => Err("another fault"),
    }
}

fn call_count_of(memory: &Memory) -> Seen {
    let counts = counts_of_both(memory)?;
    must(are_of_both(&counts, 1), "other counts")
}

/// Counts a batch in place of others; where there was no memory nothing is counted, and it is counted again.
fn call_recount(memory: &Memory) -> Seen {
    let verdicts = verdicts_of_both();
    let mut counts = Counts::zero(memory.first());
    match counts.recount(&verdicts) {
        Ok(()) => {}
        Err(CountFault::NoMemory) => {
            must(are_of_both(&counts, 0), "something is counted")?;
            memory.again();
            must(counts.recount(&verdicts).is_ok(), REFUSED_AGAIN)?;
        }
        Err(_) => return Err("another fault"),
    }
    must(are_of_both(&counts, 1), "other counts")
}

fn call_copy(memory: &Memory) -> Seen {
    let counts = counts_of_both(memory)?;
    let copy = match counts.copy(memory.first()) {
        Err(_) => counts.copy(memory.again()),
        copy => copy,
    };
    match copy {
        Ok(copy) => must(are_of_both(&copy, 1), "another copy"),
        Err(_) => Err(REFUSED_AGAIN),
    }
}

fn call_counts_sum(memory: &Memory) -> Seen {
    let counts = counts_of_both(memory)?;
    let sums = match counts_sum(memory.first(), &counts, &counts) {
        Err(CountFault::NoMemory) => counts_sum(memory.again(), &counts, &counts),
        sums => sums,
    };
    match sums {
        Ok(sums) => must(are_of_both(&sums, 2), "other sums"),
        Err(_) => Err(REFUSED_AGAIN),
    }
}

fn new_book(memory: &Memory) -> Seen {
    let book = book_of(memory)?;
    must(has(&book, [0, 0]), "a new book has counts")
}

fn add_to_book(memory: &Memory) -> Seen {
    let counts = counts_of_both(memory)?;
    let mut book = book_of(memory)?;
    add(memory, &mut book, 1, &counts, [0, 0])?;
    must(has(&book, [0, 1]), "other sums")?;
    add(memory, &mut book, 0, &counts, [0, 1])?;
    must(has(&book, [1, 1]), "other sums")
}

pub(crate) fn make_calls<R: Print>(rt: &R, memory: &Memory) {
    report(rt, memory, "count_of", call_count_of(memory));
    report(rt, memory, "Counts::recount", call_recount(memory));
    report(rt, memory, "Counts::copy", call_copy(memory));
    report(rt, memory, "counts_sum", call_counts_sum(memory));
    report(rt, memory, "StatBook::new", new_book(memory));
    report(rt, memory, "StatBook::add", add_to_book(memory));
}
