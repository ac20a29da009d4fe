//! Pieces of whole lines, made of the parts of a text.
ghost use Rattle.std.specs.Prelude.{◌≡◌, ◌≤◌, ◌++◌, ◌⊎◌, [], IfOk, drop, length, take};
ghost use Rattle.std.specs.List.{flat_map};
ghost use Rattle.bench_history.specs.Borders.{AreWhole, IsEnded, IsWhole, own_of, text_of};

use crate::piece::Piece;
use memchr::memchr;
use std::alloc::{AllocError, Global};

/// Where the first line ends: behind its line feed, or behind all bytes where there is none.
fn end_of_line(bytes: &[u8]) -> usize
    ensures within { result ≤ length bytes.now }
    ensures ended { IsEnded bytes.now
        → IsEnded (take result bytes.now) × IsWhole (drop result bytes.now) }
    ensures alone { IsEnded (take result bytes.now) ⊎ drop result bytes.now ≡ [] }
{
    match memchr(b'\n', bytes) {
        Some(end) => end + 1,
        None => bytes.len(),
    }
}

/// A part of a text, and behind it the rest of its last line, cut where the first line of them ends: that line, and the piece behind it.
fn cut_part(alloc: Global, part: Vec<u8>, rest: &[u8]) -> Result<(Vec<u8>, Piece), AllocError>
    ensures bytes { IfOk result (λ cut. cut.0.items ++ own_of cut.1 ≡ part.items ++ rest.now) }
    ensures ended { IsEnded rest.now
        → IfOk result (λ cut. IsEnded cut.0.items × IsWhole (own_of cut.1)) }
    ensures alone { IfOk result (λ cut. IsEnded cut.0.items ⊎ own_of cut.1 ≡ []) }
{
    let mut bytes = part;
    bytes.extend_from_slice(rest)?;
    let from = end_of_line(&bytes);
    let mut line = Vec::new(alloc);
    line.extend_from_slice(&bytes[..from])?;
    Ok((line, Piece { bytes, from }))
}

/// The pieces of a text, from the parts of it.
pub(crate) fn joined(alloc: Global, parts: Vec<Vec<u8>>) -> Result<Vec<Piece>, AllocError>
    ensures text { IfOk result (λ pieces.
        text_of pieces.items ≡ flat_map (λ part. part.items) parts.items) }
    ensures whole { IfOk result (λ pieces. AreWhole pieces.items) }
{
    let mut left = parts;
    let mut pieces = Vec::new(alloc);
    // The first line of what was passed, which may begin in the part ahead.
    let mut rest = Vec::new(alloc);
    while let Some(part) = left.pop() {
        let (line, piece) = cut_part(alloc, part, &rest)?;
        rest = line;
        pieces.push(piece)?;
    }
    pieces.push(Piece {
        bytes: rest,
        from: 0,
    })?;
    pieces.reverse();
    Ok(pieces)
}
