//! The capture of the frames that are dropped: what stands before them, and the packet of each as it came in.
ghost use Rattle.std.specs.Prelude.{◌≡◌, OnOk, OnErr};
ghost use Rattle.std.specs.Io.KnownBytes.{Appends};
ghost use Rattle.text_writing.specs.Written.{AppendsPart};
ghost use Rattle.bench_forward.specs.Blocks.{packet_block};
ghost use Rattle.bench_forward.specs.Comments.{dropped_comment};
ghost use Rattle.bench_forward.specs.Drops.{drops_header};

use crate::comment::dropped_comment;
use crate::port_capture::{write_port_header, write_port_packet};
use bench_capture::RecordedFrame;
use frame_meaning::Reason;
use std::io::Write;
use text_writing::WriteFault;

/// Writes what stands before all frames that are dropped: the section, and the interface of the port at which they come in.
#[tactic(auto, unfolding(crate::specs::Drops::drops_header))]
pub(crate) fn write_drops_header<W: Write>(writer: &mut W, port: u16) -> Result<(), WriteFault>
    ensures ok { OnOk result
        (Appends (W.contents writer.old) (W.contents writer.new) (drops_header port)) }
    ensures err { OnErr result
        (AppendsPart (W.contents writer.old) (W.contents writer.new) (drops_header port)) }
{
    write_port_header(writer, port)
}

/// Writes the packet of the frame of this number, which is dropped: its record's time and lengths, and its bytes as they are stored.
pub(crate) fn write_dropped<W: Write>(
    writer: &mut W,
    number: u64,
    reason: Reason,
    frame: &RecordedFrame<'_>,
) -> Result<(), WriteFault>
    ensures ok { OnOk result (Appends (W.contents writer.old) (W.contents writer.new)
        (packet_block 0 frame.now.time frame.now.original frame.now.bytes
        (dropped_comment number reason))) }
    ensures err { OnErr result (AppendsPart (W.contents writer.old) (W.contents writer.new)
        (packet_block 0 frame.now.time frame.now.original frame.now.bytes
        (dropped_comment number reason))) }
{
    let bytes = frame.bytes();
    let comment = dropped_comment(number, reason);
    let original = frame.original_len() as usize;
    write_port_packet(writer, frame.time(), original, bytes, comment.as_slice())
}
