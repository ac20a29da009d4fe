//! Many frames, piece by piece.
ghost use Rattle.std.specs.Prelude.{◌≡◌, ◌<◌, IfOk};
ghost use Rattle.std.specs.List.{AllZip};
ghost use Rattle.rayon.specs.Lists.{chunks_of};
ghost use Rattle.batch_reports.specs.Batches.{meanings};
ghost use Rattle.frame_batch.specs.Pieces.{IsPiece, AreJoined};

use crate::forwarding::forward_each;
use forward_plan::{Live, Verdict};
use rayon::prelude::*;
use std::alloc::{AllocError, Global};
use std::thread::Threads;

/// What becomes of each frame, in order: in pieces of this size, by as many threads as there are processors. A single piece stays
/// on the caller's thread.
pub(crate) fn forward_by_pieces<'a, R: Threads + Sync>(
    rt: &R,
    alloc: Global,
    live: &Live,
    port: u16,
    frames: &[&'a [u8]],
    size: usize,
) -> Result<Vec<Verdict<'a>>, AllocError>
    requires { 0 < size }
    ensures { IfOk result (λ verdicts. verdicts.items ≡ meanings live.now port frames.now) }
{
    if frames.len() <= size {
        return forward_each(alloc, live, port, frames);
    }
    let pieces = forward_pieces(rt, alloc, live, port, frames, size)?;
    join_pieces(alloc, pieces, frames.len())
}

/// The verdicts of each piece.
fn forward_pieces<'a, R: Threads + Sync>(
    rt: &R,
    alloc: Global,
    live: &Live,
    port: u16,
    frames: &[&'a [u8]],
    size: usize,
) -> Result<Vec<Result<Vec<Verdict<'a>>, AllocError>>, AllocError>
    requires { 0 < size }
    ensures { IfOk result (λ pieces.
        AllZip (IsPiece live.now port) (chunks_of size frames.now) pieces.items) }
{
    frames
        .par_chunks(size)
        .map(
            |piece: &[&[u8]]| -> Result<Vec<Verdict<'_>>, AllocError>
                ensures { IfOk result (λ verdicts.
                    verdicts.items ≡ meanings live.entry.now port piece.now) }
            { forward_each(alloc, live, port, piece) },
        )
        .collect(rt, alloc)
}

/// The verdicts of all pieces, in order.
fn join_pieces<'a>(
    alloc: Global,
    pieces: Vec<Result<Vec<Verdict<'a>>, AllocError>>,
    len: usize,
) -> Result<Vec<Verdict<'a>>, AllocError>
    ensures { IfOk result (λ all. (given : _) × (given ≡ pieces.entry.items)
        × AreJoined given all.items) }
{
    let mut all = Vec::with_capacity(alloc, len)?;
    for piece in pieces {
        let mut part = piece?;
        all.append(&mut part)?;
    }
    Ok(all)
}
