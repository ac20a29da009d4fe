//! The capture of frames as they come in at a port: what stands before them, and the packet of each.
ghost use Rattle.std.specs.Prelude.{◌≡◌, ◌≤◌, ◌++◌, OnOk, OnErr, length};
ghost use Rattle.std.specs.Io.KnownBytes.{Appends};
ghost use Rattle.text_writing.specs.Written.{AppendsPart};
ghost use Rattle.bench_forward.specs.Blocks.{packet_block, port_block, section_block};

use crate::block::{port_block, section_block};
use crate::packet::{packet_end, packet_front, write_both, write_three};
use std::io::Write;
use text_writing::WriteFault;

/// Writes what stands before all frames: the section, and the only interface, `port P`.
pub fn write_port_header<W: Write>(writer: &mut W, port: u16) -> Result<(), WriteFault>
    ensures ok { OnOk result (Appends (W.contents writer.old) (W.contents writer.new)
        (section_block ++ port_block port)) }
    ensures err { OnErr result (AppendsPart (W.contents writer.old) (W.contents writer.new)
        (section_block ++ port_block port)) }
{
    let interface = port_block(port);
    write_both(writer, &section_block(), interface.as_slice())
}

/// Writes the packet of a frame: its time in nanoseconds, how many bytes it had, those that are stored, and a comment of at most 36 bytes.
pub fn write_port_packet<W: Write>(
    writer: &mut W,
    time: u64,
    original: usize,
    bytes: &[u8],
    comment: &[u8],
) -> Result<(), WriteFault>
    requires { length comment.now ≤ 36 }
    ensures ok { OnOk result (Appends (W.contents writer.old) (W.contents writer.new)
        (packet_block 0 time original bytes.now comment.now)) }
    ensures err { OnErr result (AppendsPart (W.contents writer.old) (W.contents writer.new)
        (packet_block 0 time original bytes.now comment.now)) }
{
    let front = packet_front(0, time, bytes.len(), original, comment.len());
    let end = packet_end(bytes.len(), comment);
    write_three(writer, front.as_slice(), bytes, end.as_slice())
}
