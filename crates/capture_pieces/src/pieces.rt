//! A file in pieces.

use crate::batches::Batches;
use crate::counting::count_cut;
use crate::header::read_order;
use crate::joining::joined;
use crate::piece::Piece;
use crate::records::Records;
use capture::{HEADER_LEN, ListFault};
use std::alloc::{AllocError, Global};
use std::marker::Model;

/// A file in pieces, known by its bytes.
#[derive(Drop)]
pub struct Pieces {
    pub(crate) pieces: Vec<Piece>,
}

impl Model for Pieces {
    ghost use Rattle.std.specs.Prelude.{ℕ, List};
    ghost use Rattle.capture_pieces.specs.Joined.{AreJoined, file_of};

    ghost Value = { List ℕ };

    ghost view = { λ p. file_of p.pieces.items };

    ghost invariant = { λ p. AreJoined p.pieces.items };
}

impl Pieces {
    ghost use Rattle.std.specs.Prelude.{◌≡◌, ◌<◌, ◌^◌, Ok, IfErr, IfOk, map, vec_len};
    ghost use Rattle.std.specs.List.{flat_map};
    ghost use Rattle.capture.specs.Listed.{IsWhyNoList};
    ghost use Rattle.capture.specs.Records.{capture_of};
    ghost use Rattle.capture_pieces.specs.CutFrames.{counted, cut_frames_of};

    /// The file whose parts these are, one behind the other. A part's bytes stay where they are, if there is room for
    /// [`OVERLAP`](crate::OVERLAP) bytes more behind them.
    pub fn join(alloc: Global, parts: Vec<Vec<u8>>) -> Result<Pieces, AllocError>
        ensures { IfOk result (λ pieces. pieces ≡ flat_map (λ part. part.items) parts.items) }
    {
        Ok(Pieces {
            pieces: joined(alloc, parts)?,
        })
    }

    /// The frames of the capture file, cut in order into batches of a size. A fault of the file is told before want of memory.
    pub fn cut(&self, alloc: Global, size: u32) -> Result<Batches<'_>, ListFault>
        requires { 0 < size }
        ensures frames { IfOk result (λ cut. capture_of self.now ≡ Ok cut.frames) }
        ensures size { IfOk result (λ cut. cut.size ≡ size) }
        ensures fault { IfErr result (IsWhyNoList self.now) }
    {
        let order = match read_order(&self.pieces) {
            Ok(order) => order,
            Err(fault) => return Err(ListFault::Capture(fault)),
        };
        let records = Records::from_place(&self.pieces, HEADER_LEN);
        Batches::cut(alloc, order, records, size)
    }

    /// How many frames of the capture file were cut when they were taken, up to the file's first fault, as [`cut_frames`](crate::cut_frames)
    /// counts them.
    pub fn cut_frames(&self) -> u64
        ensures { result ≡ counted (cut_frames_of self.now) }
    {
        let Ok(order) = read_order(&self.pieces) else {
            return 0;
        };
        let mut records = Records::from_place(&self.pieces, HEADER_LEN);
        count_cut(order, &mut records)
    }

    /// The frames of the capture file, in its order, each as a slice of a piece. A fault of the file is told before want of memory.
    pub fn list_frames(&self, alloc: Global) -> Result<Vec<&[u8]>, ListFault>
        ensures frames { IfOk result (λ list.
            capture_of self.now ≡ Ok (map (λ frame. frame.now) list.items)) }
        ensures few { IfOk result (λ list. vec_len list < 2 ^ 32) }
        ensures fault { IfErr result (IsWhyNoList self.now) }
    {
        let whole = match self.cut(alloc, u32::MAX) {
            Ok(whole) => whole,
            Err(fault) => return Err(fault),
        };
        match whole.frames_of(alloc, 0) {
            Ok(list) => Ok(list),
            Err(_) => Err(ListFault::NoMemory),
        }
    }
}
