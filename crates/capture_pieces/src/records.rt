//! What is left of the records of a capture in pieces.

use crate::counting::is_cut;
use crate::piece::Piece;
use capture::{Order, RecordFault, split_record};
use std::marker::Model;

/// What is left of the records of a capture in pieces, known by its bytes. The next record begins in the first of the pieces.
#[derive(Drop)]
pub(crate) struct Records<'a> {
    pieces: &'a [Piece],
    // What is left of the first piece.
    rest: &'a [u8],
}

impl<'a> Model for Records<'a> {
    ghost use Rattle.std.specs.Prelude.{ℕ, List};
    ghost use Rattle.capture_pieces.specs.Left.{BeginInFirst, left_of};

    ghost Value = { List ℕ };

    ghost view = { λ r. left_of r.pieces.now r.rest.now };

    ghost invariant = { λ r. BeginInFirst r.pieces.now r.rest.now };
}

impl<'a> Records<'a> {
    ghost use Rattle.std.specs.Prelude.{◌≡◌, ◌==◌, IfOk, None, drop, length};
    ghost use Rattle.std.specs.Result.{result_err};
    ghost use Rattle.capture.specs.Records.{behind_first, first_frame, record_fault};
    ghost use Rattle.capture_pieces.specs.CutFrames.{is_cut};
    ghost use Rattle.capture_pieces.specs.Joined.{AreJoined, file_of};

    /// Those that begin at a place of the file and behind it.
    pub(crate) fn from_place(all: &'a [Piece], place: usize) -> Records<'a>
        requires { AreJoined all.now }
        ensures { result ≡ drop place (file_of all.now) }
    {
        let mut pieces = all;
        let mut at = place;
        while let Some((piece, behind)) = pieces.split_first() {
            if at < piece.own {
                let (_, rest) = piece.bytes.split_at(at);
                return Records { pieces, rest };
            }
            at -= piece.own;
            pieces = behind;
        }
        Records { pieces, rest: &[] }
    }

    /// The same again.
    pub(crate) fn again(&self) -> Records<'a>
        ensures { result ≡ self.now }
    {
        Records {
            pieces: self.pieces,
            rest: self.rest,
        }
    }

    /// Whether nothing is left.
    pub(crate) fn is_empty(&self) -> bool
        ensures { result ≡ (length self.now == 0) }
    {
        self.pieces.is_empty()
    }

    /// Whether the next record stores fewer bytes than its frame had.
    pub(crate) fn is_cut(&self, order: Order) -> bool
        ensures { record_fault order self.now ≡ None → result ≡ is_cut order self.now }
    {
        is_cut(order, self.rest)
    }

    /// Passes the next record, and gives its frame. Where nothing is left, a record is torn.
    #[inline]
    pub(crate) fn pass(&mut self, order: Order) -> Result<&'a [u8], RecordFault>
        ensures fault { result_err result ≡ record_fault order self.old }
        ensures frame { IfOk result (λ frame. frame.now ≡ first_frame order self.old) }
        ensures behind { IfOk result (λ frame. self.new ≡ behind_first order self.old) }
    {
        let Some((piece, behind)) = self.pieces.split_first() else {
            return Err(RecordFault::Torn);
        };
        let (frame, rest) = match split_record(order, self.rest) {
            Ok(parts) => parts,
            Err(fault) => return Err(fault),
        };
        let tail = piece.bytes.len() - piece.own;
        if rest.len() > tail {
            self.rest = rest;
        } else {
            *self = Records::from_place(behind, tail - rest.len());
        }
        Ok(frame)
    }
}
