//! What becomes of many frames.
ghost use Rattle.std.specs.Prelude.{◌≡◌, ◌<◌, ◌≤◌, ◌+◌, ◌++◌, ◌↔◌, ℕ, IfOk, IsErrOf, length, vec_len, vec_capacity};
ghost use Rattle.plan_publish.specs.Held.{held_entities};
ghost use Rattle.batch_reports.specs.Batches.{meanings, most_frames};

use crate::pieces::forward_by_pieces;
use batch_reports::{BatchFault, MOST_FRAMES};
use forward_plan::{Live, Verdict};
use plan_publish::Held;
use std::alloc::{AllocError, Global};
use std::thread::Threads;

/// How many frames a piece has: they take longer than it takes to hand a piece to a thread.
const PIECE: usize = 4_096;

/// What becomes of each frame that comes in at a port, in order, by the held version. It may use as many threads as there are
/// processors, and waits for them. The verdicts borrow the frames alone.
///
/// Up to 4,096 frames go on the caller's thread. Who has lanes on threads of their own forwards faster by [`run_batch`], one lane
/// a thread.
///
/// [`BatchFault::TooMany`] where there are more than 65,536 frames, which is looked at first; [`BatchFault::NoMemory`] where there
/// is no memory for the verdicts.
///
/// [`run_batch`]: crate::run_batch
pub fn forward_all<'a, R: Threads + Sync>(
    rt: &R,
    alloc: Global,
    held: &Held<'_>,
    port: u16,
    frames: &[&'a [u8]],
) -> Result<Vec<Verdict<'a>>, BatchFault>
    ensures verdicts { IfOk result (λ verdicts.
        verdicts.items ≡ meanings (held_entities held.now) port frames.now) }
    ensures too_many { (n : ℕ) → IsErrOf result (BatchFault.TooMany n)
        ↔ ((n ≡ length frames.now) × (most_frames < n)) }
    ensures never { ¬ (IsErrOf result BatchFault.Stalled)
        × ¬ (IsErrOf result BatchFault.CountFull) }
{
    if frames.len() > MOST_FRAMES {
        return Err(BatchFault::TooMany(frames.len()));
    }
    match forward_by_pieces(rt, alloc, held.live(), port, frames, PIECE) {
        Ok(verdicts) => Ok(verdicts),
        Err(_) => Err(BatchFault::NoMemory),
    }
}

/// The same on the caller's thread. The port is looked up once.
pub(crate) fn forward_each<'a>(
    alloc: Global,
    live: &Live,
    port: u16,
    frames: &[&'a [u8]],
) -> Result<Vec<Verdict<'a>>, AllocError>
    ensures { IfOk result (λ verdicts. verdicts.items ≡ meanings live.now port frames.now) }
{
    let mut verdicts = Vec::with_capacity(alloc, frames.len())?;
    let plan = live.port(port);
    plan.push_all(frames, &mut verdicts);
    Ok(verdicts)
}
