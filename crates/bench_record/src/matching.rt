//! Which of the frames that were sent one that leaves may be.
ghost use Rattle.std.specs.Prelude.{◌≡◌, ◌<◌, ◌^◌, ℕ, List, Option, IfOk, filter, map, slice_get};
ghost use Rattle.bench_history.specs.Doubts.{IsDoubted};
ghost use Rattle.bench_record.specs.Index.{core_shown, earliest_of, kept_shown};
ghost use Rattle.bench_record.specs.Matching.{Frames, has_core, is_open, later};

use crate::frame_core::FrameCore;
use bench_history::Doubts;
use std::alloc::{AllocError, Global};

/// What is kept of a frame that was sent.
#[derive(Clone, Copy)]
pub(crate) struct KeptFrame<'a> {
    /// When it was sent.
    pub(crate) time: u64,
    pub(crate) core: FrameCore<'a>,
    /// Whether it was seen to leave.
    pub(crate) has_left: bool,
    /// How many hidden frames had left before.
    pub(crate) hidden_before: usize,
}

/// So many milliseconds behind a time, or the greatest time.
pub(crate) fn later(time: u64, milliseconds: u64) -> u64
    ensures { result ≡ later time milliseconds }
{
    time.saturating_add(milliseconds.saturating_mul(1_000_000))
}

/// The first time at which a frame can have been sent that isn't lost before this time.
pub(crate) fn earliest(lost: Option<u64>, time: u64) -> u64
    ensures { result ≡ earliest_of lost time }
{
    match lost {
        Some(lost) => time.saturating_sub(lost.saturating_mul(1_000_000)),
        None => 0,
    }
}

/// Whether a frame that was sent is open: it hasn't left, was sent at a time or later, and isn't used up.
fn is_open(sent: &[KeptFrame<'_>], doubts: &Doubts, earliest: u64, number: u32) -> bool
    ensures { (lost : Option ℕ) (time : ℕ) (frames : Frames) → time < 2 ^ 64
        → earliest ≡ earliest_of lost time → map kept_shown sent.now ≡ frames.sent
        → IsDoubted frames.named doubts.now → result ≡ is_open lost time frames number }
{
    match sent.get(number as usize) {
        Some(kept) => !kept.has_left && kept.time >= earliest && !doubts.is_used_up(number),
        None => false,
    }
}

/// Lets frames go that aren't open.
pub(crate) fn keep_open(
    queue: &mut Vec<u32>,
    sent: &[KeptFrame<'_>],
    doubts: &Doubts,
    earliest: u64,
)
    ensures { (lost : Option ℕ) (time : ℕ) (frames : Frames) → time < 2 ^ 64
        → earliest ≡ earliest_of lost time → map kept_shown sent.now ≡ frames.sent
        → IsDoubted frames.named doubts.now
        → queue.new.items ≡ filter (is_open lost time frames) queue.old.items }
{
    queue.retain(|number| is_open(sent, doubts, earliest, *number));
}

/// Whether the frame of a number may be one of a core.
fn has_core(sent: &[KeptFrame<'_>], core: &FrameCore<'_>, number: u32) -> bool
    ensures { result ≡ has_core (core_shown core.now) (slice_get (map kept_shown sent.now) number) }
{
    match sent.get(number as usize) {
        Some(kept) => kept.core.agrees(core),
        None => false,
    }
}

/// Those of some frames that may be one of a core.
#[tactic(auto, using(std::proofs::lemmas::List::Elements::filter_more))]
pub(crate) fn with_core(
    alloc: Global,
    queue: &[u32],
    sent: &[KeptFrame<'_>],
    core: &FrameCore<'_>,
) -> Result<Vec<u32>, AllocError>
    ensures { IfOk result (λ found. found.items
        ≡ filter (λ n. has_core (core_shown core.now) (slice_get
        (map kept_shown sent.now) n)) queue.now) }
{
    let mut found = Vec::new(alloc);
    for number in queue {
        if has_core(sent, core, *number) {
            found.push(*number)?;
        }
    }
    Ok(found)
}
