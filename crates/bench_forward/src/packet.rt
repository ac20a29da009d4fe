//! A frame that leaves as a packet: the parts of its block.
ghost use Rattle.std.specs.Prelude.{◌≡◌, ◌≤◌, ◌<◌, ◌+◌, ◌*◌, ◌^◌, ◌++◌, OnOk, OnErr, length};
ghost use Rattle.std.specs.Io.KnownBytes.{Appends};
ghost use Rattle.std.specs.List.{flat_map};
ghost use Rattle.arrayvec.specs.ArrayVec.{array_vec_len};
ghost use Rattle.tag_view.specs.Frame.{frame_bytes};
ghost use Rattle.tag_view.specs.Tag.{tag_bytes};
ghost use Rattle.text_writing.specs.Written.{AppendsPart};
ghost use Rattle.bench_forward.specs.Blocks.{packet_block};
ghost use Rattle.bench_forward.specs.Comments.{leaving_comment};
ghost use Rattle.bench_forward.specs.Parts.{packet_end, packet_front, packet_length};

use crate::block::{Block, COMMENT, END, padding, put, put_length, put_option, put_u32, zeros};
use crate::comment::leaving_comment;
use crate::origin::Origin;
use arrayvec::ArrayVec;
use frame_meaning::OutFrame;
use std::io::Write;
use tag_view::Tag;
use text_writing::{WriteFault, write_whole};

/// The type of an enhanced packet block.
const ENHANCED_PACKET: u32 = 6;

/// How many bytes of a packet's block stand around those of the frame and of its comment, and what pads these.
const AROUND_FRAME: usize = 40;

/// How long the block of a frame of so many bytes is whose comment has so many.
fn packet_length(len: usize, comment: usize) -> usize
    requires few { len < 2 ^ 63 + 64 }
    requires short { comment ≤ 36 }
    ensures { result ≡ packet_length len comment }
{
    AROUND_FRAME + len + padding(len) + comment + padding(comment)
}

/// What stands before the bytes of a frame, of which there are so many, as it had and as its comment has.
#[tactic(auto, unfolding(crate::specs::Parts::packet_front))]
pub(crate) fn packet_front(
    interface: u32,
    time: u64,
    len: usize,
    original: usize,
    comment: usize,
) -> Block
    requires few { len < 2 ^ 63 + 64 }
    requires short { comment ≤ 36 }
    ensures items { result.items ≡ packet_front interface time len original comment }
    ensures len { array_vec_len result ≡ 28 }
{
    let mut bytes = ArrayVec::new();
    put_u32(&mut bytes, ENHANCED_PACKET);
    put_length(&mut bytes, packet_length(len, comment));
    put_u32(&mut bytes, interface);
    put_u32(&mut bytes, (time / (1 << 32)) as u32);
    put_u32(&mut bytes, (time % (1 << 32)) as u32);
    put_length(&mut bytes, len);
    put_length(&mut bytes, original);
    bytes
}

/// What stands behind the bytes of a frame, of which there are so many: its comment, which has 36 bytes at most.
#[tactic(auto, unfolding(crate::specs::Parts::packet_end))]
pub(crate) fn packet_end(len: usize, comment: &[u8]) -> Block
    requires few { len < 2 ^ 63 + 64 }
    requires short { length comment.now ≤ 36 }
    ensures { result.items ≡ packet_end len comment.now }
{
    let mut bytes = ArrayVec::new();
    put(&mut bytes, zeros(padding(len)));
    put_option(&mut bytes, COMMENT, comment);
    put_option(&mut bytes, END, &[]);
    put_length(&mut bytes, packet_length(len, comment.len()));
    bytes
}

/// Puts tags.
fn put_tags(bytes: &mut Block, tags: &[Tag])
    requires { array_vec_len bytes.old + 4 * length tags.now ≤ 64 }
    ensures items { bytes.new.items ≡ bytes.old.items ++ flat_map tag_bytes tags.now }
    ensures len { array_vec_len bytes.new ≡ array_vec_len bytes.old + 4 * length tags.now }
{
    for tag in tags {
        put(bytes, &tag.bytes());
    }
}

/// Writes bytes, and more bytes behind them.
#[tactic(auto, using(crate::proofs::Wholes::part_before, crate::proofs::Wholes::part_behind))]
pub(crate) fn write_both<W: Write>(
    writer: &mut W,
    first: &[u8],
    then: &[u8],
) -> Result<(), WriteFault>
    ensures ok { OnOk result
        (Appends (W.contents writer.old) (W.contents writer.new) (first.now ++ then.now)) }
    ensures err { OnErr result
        (AppendsPart (W.contents writer.old) (W.contents writer.new) (first.now ++ then.now)) }
{
    write_whole(writer, first)?;
    match write_whole(writer, then) {
        Ok(()) => Ok(()),
        Err(fault) => Err(fault),
    }
}

/// Writes three times bytes, one behind the other.
#[tactic(auto, using(crate::proofs::Wholes::part_before))]
pub(crate) fn write_three<W: Write>(
    writer: &mut W,
    first: &[u8],
    then: &[u8],
    last: &[u8],
) -> Result<(), WriteFault>
    ensures ok { OnOk result (Appends (W.contents writer.old) (W.contents writer.new)
        (first.now ++ (then.now ++ last.now))) }
    ensures err { OnErr result (AppendsPart (W.contents writer.old) (W.contents writer.new)
        (first.now ++ (then.now ++ last.now))) }
{
    write_whole(writer, first)?;
    match write_both(writer, then, last) {
        Ok(()) => Ok(()),
        Err(fault) => Err(fault),
    }
}

/// What stands before the rest of a frame that leaves, of whose bytes there are so many, as of those of its comment.
fn packet_head(interface: u32, time: u64, frame: &OutFrame<'_>, len: usize, comment: usize) -> Block
    requires addresses { length frame.now.addresses ≤ 12 }
    requires few { len < 2 ^ 63 + 64 }
    requires short { comment ≤ 36 }
    ensures { result.items ≡ packet_front interface time len len comment ++ frame.now.addresses
        ++ flat_map tag_bytes frame.now.tags }
{
    let mut head = packet_front(interface, time, len, len, comment);
    put(&mut head, frame.addresses());
    put_tags(&mut head, frame.tags());
    head
}

/// How many bytes a frame has as it leaves.
#[inline(always)]
#[tactic(auto, using(frame_meaning::proofs::Spellings::spelled_lengths))]
pub(crate) fn leaving_length(frame: &OutFrame<'_>) -> usize
    requires { length (frame_bytes frame.now) < 2 ^ 63 + 64 }
    ensures { result ≡ length (frame_bytes frame.now) }
{
    frame.addresses().len() + 4 * frame.tags().len() + frame.rest().len()
}

/// Writes the block of a frame that leaves, whose bytes stand in it as they are.
pub(crate) fn write_packet<W: Write>(
    writer: &mut W,
    interface: u32,
    origin: Origin,
    frame: &OutFrame<'_>,
) -> Result<(), WriteFault>
    requires addresses { length frame.now.addresses ≤ 12 }
    requires few { length (frame_bytes frame.now) < 2 ^ 63 + 64 }
    ensures ok { OnOk result (Appends (W.contents writer.old) (W.contents writer.new)
        (packet_block interface origin.time (length (frame_bytes frame.now)) (frame_bytes frame.now)
        (leaving_comment origin.number))) }
    ensures err { OnErr result (AppendsPart (W.contents writer.old) (W.contents writer.new)
        (packet_block interface origin.time (length (frame_bytes frame.now)) (frame_bytes frame.now)
        (leaving_comment origin.number))) }
{
    let len = leaving_length(frame);
    let comment = leaving_comment(origin.number);
    let head = packet_head(interface, origin.time, frame, len, comment.len());
    let end = packet_end(len, comment.as_slice());
    write_three(writer, head.as_slice(), frame.rest(), end.as_slice())
}
