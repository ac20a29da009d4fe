//! Counts of verdicts, and books of them.
ghost use Rattle.std.specs.Prelude.{◌≤◌};

use frame_meaning::{OutFrame, Reason, Verdict};
use frame_stats::{CountFault, Counts, StatBook, StatFault, count_of, counts_sum};
use std::alloc::Global;
use std::process::Abort;
use std::sync::{Mutex, Wait};
use std::thread;
use std::thread::Threads;
use test_fixtures::{holds, same};

/// No tag, and the start of an IPv4 packet.
const UNTAGGED: [u8; 16] = [2, 0, 0, 0, 0, 1, 2, 0, 0, 0, 0, 2, 0x08, 0x00, 0x45, 0x00];

/// The frame leaves by a GEM port with so many tags of VLAN 100, one or none.
fn leaves(gem: u16, tags: usize) -> Verdict<'static>
    requires { tags ≤ 1 }
{
    let frame = OutFrame::of_words(UNTAGGED.as_slice(), 0, [0x8100_0064, 0, 0, 0], tags);
    Verdict::Forward { gem, frame }
}

/// Two frames that leave with a tag by GEM port 1024, and one that is cut within a tag.
fn sample(alloc: Global) -> Result<Counts, CountFault> {
    let verdicts = [
        leaves(1024, 1),
        leaves(1024, 1),
        Verdict::Drop(Reason::CutTag),
    ];
    count_of(alloc, &verdicts)
}

/// Figures of counts, and their GEM ports.
#[derive(Clone, Copy)]
struct Figures {
    frames: u64,
    bytes: u64,
    drops: [u64; 9],
    ports: &'static [(u16, u64)],
}

/// The figures of the sample.
const SAMPLE: Figures = Figures {
    frames: 3,
    bytes: 40,
    drops: [0, 1, 0, 0, 0, 0, 0, 0, 0],
    ports: &[(1024, 2)],
};

/// The figures of the sample, twice.
const TWICE: Figures = Figures {
    frames: 6,
    bytes: 80,
    drops: [0, 2, 0, 0, 0, 0, 0, 0, 0],
    ports: &[(1024, 4)],
};

/// The figures of so many frames, none of which is dropped or leaves.
const fn of_frames(frames: u64) -> Figures {
    Figures {
        frames,
        bytes: 0,
        drops: [0; 9],
        ports: &[],
    }
}

/// Whether counts show these GEM ports and no others, one by one and in order.
fn show_ports(alloc: Global, counts: &Counts, want: &[(u16, u64)]) -> bool {
    let Ok(ports) = counts.ports.in_order(alloc) else {
        return false;
    };
    let mut same = ports.len() == want.len();
    for ((port, frames), (wanted, wanted_frames)) in ports.iter().zip(want) {
        same = same && port == wanted && frames == wanted_frames;
        same = same && counts.ports.frames(*wanted) == *wanted_frames;
    }
    same
}

/// Whether counts show these figures, and these GEM ports and no others.
fn show(alloc: Global, counts: &Counts, want: &Figures) -> bool {
    show_ports(alloc, counts, want.ports)
        && counts.frames == want.frames
        && counts.bytes == want.bytes
        && counts.drops == want.drops
}

/// Stops a test whose counts don't show these figures.
fn must_show(rt: &impl Abort, alloc: Global, what: &str, counts: &Counts, want: &Figures) {
    holds!(rt; show(alloc, counts, want), "{what}");
}

/// Counts of nothing but so many frames.
fn frames_alone(alloc: Global, frames: u64) -> Counts {
    let mut counts = Counts::zero(alloc);
    counts.frames = frames;
    counts
}

#[test]
fn verdicts_are_counted_and_counts_are_taken_again(rt: HostRuntime) {
    let mut counts = sample(rt.alloc()).expect(&rt, "counts");
    must_show(&rt, rt.alloc(), "one frame is cut", &counts, &SAMPLE);
    // GEM ports 1024 and 1295 have the same place.
    let both = [leaves(1295, 0), leaves(1024, 0), leaves(1295, 1)];
    let of_both = Figures {
        frames: 3,
        bytes: 52,
        drops: [0; 9],
        ports: &[(1024, 1), (1295, 2)],
    };
    same!(rt; counts.recount(&both), Ok(()));
    must_show(&rt, rt.alloc(), "both ports", &counts, &of_both);
    let dropped = [
        Verdict::Drop(Reason::Runt),
        Verdict::Drop(Reason::NoMapper),
        Verdict::Drop(Reason::NoMapper),
    ];
    let of_dropped = Figures {
        drops: [1, 0, 0, 0, 2, 0, 0, 0, 0],
        ..of_frames(3)
    };
    same!(rt; counts.recount(&dropped), Ok(()));
    must_show(&rt, rt.alloc(), "dropped frames", &counts, &of_dropped);
    same!(rt; counts.recount(&[]), Ok(()));
    must_show(&rt, rt.alloc(), "no verdict", &counts, &of_frames(0));
}

#[test]
fn counts_are_copied_cleared_and_added_up(rt: HostRuntime) {
    let mut counts = sample(rt.alloc()).expect(&rt, "counts");
    let copy = counts.copy(rt.alloc()).ok().expect(&rt, "a copy");
    counts.clear();
    must_show(&rt, rt.alloc(), "cleared counts", &counts, &of_frames(0));
    must_show(&rt, rt.alloc(), "the copy", &copy, &SAMPLE);
    let other = count_of(rt.alloc(), &[leaves(1025, 0), leaves(1024, 1)]);
    let other = other.expect(&rt, "other counts");
    let sum = counts_sum(rt.alloc(), &copy, &other).expect(&rt, "a sum");
    let figures = Figures {
        frames: 5,
        bytes: 76,
        drops: [0, 1, 0, 0, 0, 0, 0, 0, 0],
        ports: &[(1024, 3), (1025, 1)],
    };
    must_show(&rt, rt.alloc(), "the sum", &sum, &figures);
}

/// Adds the sample to both lanes of a book, to one that it doesn't have, and counts for which it has no room.
fn add_to_lanes(rt: &impl Abort, alloc: Global, book: &mut StatBook) {
    let counts = sample(alloc).expect(rt, "counts");
    let added = [
        book.add(0, &counts),
        book.add(1, &counts),
        book.add(2, &counts),
        book.add(0, &frames_alone(alloc, u64::MAX)),
    ];
    same!(rt; added, [Ok(()), Ok(()), Err(StatFault::Lane), Err(StatFault::CountFull)]);
    must_show(rt, alloc, "total", book.total(), &TWICE);
    let parts = (book.part(0), book.part(1), book.part(2));
    let (Some(zero), Some(one), None) = parts else {
        holds!(rt; false, "two parts");
        return;
    };
    must_show(rt, alloc, "part of lane 0", zero, &SAMPLE);
    must_show(rt, alloc, "part of lane 1", one, &SAMPLE);
}

/// Fills the frames of a book, whose total is full then though a part isn't. Drops have room.
fn fill_frames(rt: &impl Abort, alloc: Global, book: &mut StatBook) {
    let mut drop = frames_alone(alloc, 0);
    drop.drops[8] = 1;
    let added = [
        book.add(0, &frames_alone(alloc, u64::MAX)),
        book.add(1, &frames_alone(alloc, 1)),
        book.add(1, &drop),
    ];
    same!(rt; added, [Ok(()), Err(StatFault::CountFull), Ok(())]);
    same!(rt; (book.total().frames, book.total().drops[8]), (u64::MAX, 1));
    same!(rt; book.part(1).map(|part| (part.frames, part.drops[8])), Some((0, 1)));
}

#[test]
fn a_book_adds_to_a_lane_and_the_total(rt: HostRuntime) {
    holds!(rt; StatBook::new(rt.alloc(), 0).is_err());
    let mut book = StatBook::new(rt.alloc(), 2).expect(&rt, "a book");
    add_to_lanes(&rt, rt.alloc(), &mut book);
    let mut full = StatBook::new(rt.alloc(), 2).expect(&rt, "a book");
    fill_frames(&rt, rt.alloc(), &mut full);
}

/// Adds counts to a lane 100 times; whether all are added.
fn add_often(rt: &impl Wait, book: &Mutex<StatBook>, lane: u16, counts: &Counts) -> bool {
    let mut all = true;
    for _ in 0..100 {
        all &= book.lock(rt).add(lane, counts).is_ok();
    }
    all
}

/// Looks at a book 1,000 times; whether its total is the sum of its parts each time.
fn look_often(rt: &impl Wait, book: &Mutex<StatBook>) -> bool {
    let mut all = true;
    for _ in 0..1_000 {
        all &= adds_up(rt, book);
    }
    all
}

/// Whether the total is the sum of eight parts, in its frames, its bytes, its drops of frames too short and the frames of GEM port 1024.
fn adds_up(rt: &impl Wait, book: &Mutex<StatBook>) -> bool {
    let book = book.lock(rt);
    let (mut frames, mut bytes, mut short, mut left) = (0u64, 0u64, 0u64, 0u64);
    for lane in 0..8 {
        let Some(part) = book.part(lane) else {
            return false;
        };
        frames = frames.wrapping_add(part.frames);
        bytes = bytes.wrapping_add(part.bytes);
        short = short.wrapping_add(part.drops[1]);
        left = left.wrapping_add(part.ports.frames(1024));
    }
    let total = book.total();
    let total_left = total.ports.frames(1024);
    (total.frames, total.bytes, total.drops[1], total_left) == (frames, bytes, short, left)
}

/// Adds counts to eight lanes of a book on a thread each, while a ninth looks at its sums; whether all is as it has to be.
fn add_beside_looks<R: Threads + Wait + Abort + Sync>(
    rt: &R,
    alloc: Global,
    book: &Mutex<StatBook>,
    counts: &Counts,
) -> bool {
    let done = thread::map_indices(
        rt,
        alloc,
        9,
        &|thread| {
            if thread < 8 {
                add_often(rt, book, thread as u16, counts)
            } else {
                look_often(rt, book)
            }
        },
    );
    done.expect(rt, "memory").iter().all(|done| *done)
}

#[test]
fn the_total_is_the_sum_of_the_parts_at_each_lock(rt: HostRuntime) {
    let counts = sample(rt.alloc()).expect(&rt, "counts");
    let book = Mutex::new(StatBook::new(rt.alloc(), 8).expect(&rt, "a book"));
    holds!(rt; add_beside_looks(&rt, rt.alloc(), &book, &counts));
    let figures = Figures {
        frames: 2_400,
        bytes: 32_000,
        drops: [0, 800, 0, 0, 0, 0, 0, 0, 0],
        ports: &[(1024, 1_600)],
    };
    must_show(
        &rt,
        rt.alloc(),
        "the total",
        book.lock(&rt).total(),
        &figures,
    );
}
