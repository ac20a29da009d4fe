//! A frame that leaves in the capture of those: the interface of its GEM port where that has none yet, and its packet.
ghost use Rattle.std.specs.Prelude.{◌≡◌, ◌≤◌, ◌<◌, ◌+◌, ◌^◌, ◌++◌, OnOk, OnErr, length};
ghost use Rattle.std.specs.Io.KnownBytes.{Appends};
ghost use Rattle.tag_view.specs.Frame.{frame_bytes};
ghost use Rattle.text_writing.specs.Written.{AppendsPart};
ghost use Rattle.bench_forward.specs.Blocks.{interface_block, packet_block};
ghost use Rattle.bench_forward.specs.Comments.{leaving_comment};
ghost use Rattle.bench_forward.specs.Packets.{blocks_of, with_interface};

use crate::block::interface_block;
use crate::interfaces::Interfaces;
use crate::origin::Origin;
use crate::packet::write_packet;
use frame_meaning::OutFrame;
use std::io::Write;
use text_writing::{WriteFault, write_whole};

/// Writes the interface of a GEM port, which has this number, and the first frame that leaves by it.
#[tactic(auto, using(crate::proofs::Wholes::part_before))]
fn write_first<W: Write>(
    writer: &mut W,
    gem: u16,
    number: u16,
    origin: Origin,
    frame: &OutFrame<'_>,
) -> Result<(), WriteFault>
    requires addresses { length frame.now.addresses ≤ 12 }
    requires few { length (frame_bytes frame.now) < 2 ^ 63 + 64 }
    ensures ok { OnOk result (Appends (W.contents writer.old) (W.contents writer.new)
        (interface_block gem ++ packet_block number origin.time (length (frame_bytes frame.now))
        (frame_bytes frame.now) (leaving_comment origin.number))) }
    ensures err { OnErr result (AppendsPart (W.contents writer.old) (W.contents writer.new)
        (interface_block gem ++ packet_block number origin.time (length (frame_bytes frame.now))
        (frame_bytes frame.now) (leaving_comment origin.number))) }
{
    let interface = interface_block(gem);
    write_whole(writer, interface.as_slice())?;
    match write_packet(writer, u32::from(number), origin, frame) {
        Ok(()) => Ok(()),
        Err(fault) => Err(fault),
    }
}

/// Writes a frame that leaves by a GEM port.
#[tactic(auto, unfolding(crate::specs::Packets::blocks_of), using(crate::proofs::Wholes::part_before))]
pub(crate) fn write_leaving<W: Write>(
    writer: &mut W,
    interfaces: &mut Interfaces,
    gem: u16,
    origin: Origin,
    frame: &OutFrame<'_>,
) -> Result<(), WriteFault>
    requires addresses { length frame.now.addresses ≤ 12 }
    requires few { length (frame_bytes frame.now) < 2 ^ 63 + 64 }
    ensures ok { OnOk result (Appends (W.contents writer.old) (W.contents writer.new)
        (blocks_of interfaces.old (record {
          number = origin.number;
          gem = gem;
          time = origin.time;
          bytes = frame_bytes frame.now;
        }))) }
    ensures err { OnErr result (AppendsPart (W.contents writer.old) (W.contents writer.new)
        (blocks_of interfaces.old (record {
          number = origin.number;
          gem = gem;
          time = origin.time;
          bytes = frame_bytes frame.now;
        }))) }
    ensures interfaces { interfaces.new ≡ with_interface interfaces.old gem }
{
    match interfaces.number_of(gem) {
        Some(number) => write_packet(writer, u32::from(number), origin, frame),
        None => {
            let number = interfaces.add(gem);
            write_first(writer, gem, number, origin, frame)
        }
    }
}
