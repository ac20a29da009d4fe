//! Pieces made of the parts of a file.
ghost use Rattle.std.specs.Prelude.{◌≡◌, ◌++◌, List, IfOk, take};
ghost use Rattle.std.specs.List.{flat_map};
ghost use Rattle.capture_pieces.specs.Joined.{AreJoined, Holds, file_of, longest, own_of};

use crate::piece::{OVERLAP, Piece};
use std::alloc::{AllocError, Global};

/// The first bytes of a piece, as many as the longest record has.
fn front_of(alloc: Global, bytes: &[u8]) -> Result<Vec<u8>, AllocError>
    ensures { IfOk result (λ front. front.items ≡ take longest bytes.now) }
{
    let (first, _) = bytes.split_at(OVERLAP.min(bytes.len()));
    let mut front = Vec::new(alloc);
    front.extend_from_slice(first)?;
    Ok(front)
}

/// A part of a file with the bytes that follow it.
fn piece_of(part: Vec<u8>, front: &[u8]) -> Result<Piece, AllocError>
    ensures own { IfOk result (λ piece. own_of piece ≡ part.items) }
    ensures holds { (behind : List _) → front.now ≡ take longest behind
        → IfOk result (λ piece. Holds piece behind) }
{
    let own = part.len();
    let mut bytes = part;
    bytes.extend_from_slice(front)?;
    Ok(Piece { bytes, own })
}

/// The pieces of a file, from the parts of it.
pub(crate) fn joined(alloc: Global, parts: Vec<Vec<u8>>) -> Result<Vec<Piece>, AllocError>
    ensures file { IfOk result (λ pieces.
        file_of pieces.items ≡ flat_map (λ part. part.items) parts.items) }
    ensures joined { IfOk result (λ pieces. AreJoined pieces.items) }
{
    let mut left = parts;
    let mut pieces = Vec::with_capacity(alloc, left.len())?;
    let mut front = Vec::new(alloc);
    while let Some(part) = left.pop() {
        let piece = piece_of(part, &front)?;
        front = front_of(alloc, &piece.bytes)?;
        pieces.push(piece)?;
    }
    pieces.reverse();
    Ok(pieces)
}
