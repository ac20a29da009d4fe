//! The comments of packets: which frame of the capture that is read each is.
ghost use Rattle.std.specs.Prelude.{◌≡◌, ◌≤◌};
ghost use Rattle.arrayvec.specs.ArrayVec.{array_vec_len};
ghost use Rattle.bench_forward.specs.Comments.{dropped_comment, leaving_comment};

use crate::block::{Block, put, put_decimal};
use arrayvec::ArrayVec;
use frame_meaning::Reason;
use itoa::Buffer;

/// The comment of the frame of this number, which leaves.
pub(crate) fn leaving_comment(number: u64) -> Block
    ensures text { result.items ≡ leaving_comment number }
    ensures short { array_vec_len result ≤ 26 }
{
    let mut comment = ArrayVec::new();
    put(&mut comment, b"frame ");
    put_decimal(&mut comment, number);
    comment
}

/// The comment of the frame of this number, which is dropped.
pub(crate) fn dropped_comment(number: u64, reason: Reason) -> Block
    ensures text { result.items ≡ dropped_comment number reason }
    ensures short { array_vec_len result ≤ 36 }
{
    let mut digits = Buffer::new();
    let mut comment = leaving_comment(number);
    put(&mut comment, b": drop ");
    put(&mut comment, digits.format(reason.code()).as_bytes());
    comment
}
