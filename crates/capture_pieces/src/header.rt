//! The header of a capture in pieces.
ghost use Rattle.std.specs.Prelude.{◌≡◌};
ghost use Rattle.capture.specs.Records.{header_of};
ghost use Rattle.capture_pieces.specs.Joined.{AreJoined, file_of};

use crate::piece::Piece;
use capture::{CaptureFault, Order, read_header};

/// The byte order of a capture in pieces, or what is wrong with its header.
pub(crate) fn read_order(pieces: &[Piece]) -> Result<Order, CaptureFault>
    requires { AreJoined pieces.now }
    ensures { result ≡ header_of (file_of pieces.now) }
{
    let Some(piece) = pieces.first() else {
        return read_header(&[]);
    };
    read_header(&piece.bytes)
}
