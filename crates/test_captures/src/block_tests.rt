//! Blocks of the pcapng format, one at a time, and long ones of which bytes are let go. Files by hand are rows of `tests/made_captures`.
use bench_pcapng::{Blocks, Packet, Passing, Pcapng, PcapngFault, is_pcapng};
use std::alloc::{AllocError, Global};
use std::process::Abort;
use test_fixtures::{holds, same};

/// A section header block of version 1.0 and unknown length, with its lowest bytes first.
const LOW_SECTION: [u8; 28] = [
    0x0a, 0x0d, 0x0d, 0x0a, 28, 0, 0, 0, 0x4d, 0x3c, 0x2b, 0x1a, 1, 0, 0, 0, 0xff, 0xff, 0xff,
    0xff, 0xff, 0xff, 0xff, 0xff, 28, 0, 0, 0,
];

/// The same with its highest bytes first, of version 1.2, and with a remark of three bytes, padded to four.
const HIGH_SECTION: [u8; 40] = [
    0x0a, 0x0d, 0x0d, 0x0a, 0, 0, 0, 40, 0x1a, 0x2b, 0x3c, 0x4d, 0, 1, 0, 2, 0xff, 0xff, 0xff,
    0xff, 0xff, 0xff, 0xff, 0xff, 0, 1, 0, 3, b'a', b'b', b'c', 0, 0, 0, 0, 0, 0, 0, 0, 40,
];

/// An Ethernet interface without a snap length or options.
const LOW_INTERFACE: [u8; 20] = [1, 0, 0, 0, 20, 0, 0, 0, 1, 0, 0, 0, 0, 0, 0, 0, 20, 0, 0, 0];

/// An Ethernet interface with a name of five bytes, and times in nanoseconds.
const LOW_NANOSECONDS: [u8; 44] = [
    1, 0, 0, 0, 44, 0, 0, 0, 1, 0, 0, 0, 0, 0, 4, 0, 2, 0, 5, 0, b'e', b't', b'h', b'0', b'x', 0,
    0, 0, 9, 0, 1, 0, 9, 0, 0, 0, 0, 0, 0, 0, 44, 0, 0, 0,
];

/// An enhanced packet of interface 0 at 1,536 ticks, with 5 bytes of 60 and a remark behind them.
const LOW_PACKET: [u8; 52] = [
    6, 0, 0, 0, 52, 0, 0, 0, 0, 0, 0, 0, 0, 0, 0, 0, 0, 6, 0, 0, 5, 0, 0, 0, 60, 0, 0, 0, 2, 4, 6,
    8, 10, 0, 0, 0, 1, 0, 2, 0, b'h', b'i', 0, 0, 0, 0, 0, 0, 52, 0, 0, 0,
];

/// An enhanced packet of interface 1 at 2^32 + 2 ticks, with all of its 4 bytes.
const LOW_SECOND: [u8; 36] = [
    6, 0, 0, 0, 36, 0, 0, 0, 1, 0, 0, 0, 1, 0, 0, 0, 2, 0, 0, 0, 4, 0, 0, 0, 4, 0, 0, 0, 9, 8, 7,
    6, 36, 0, 0, 0,
];

/// A simple packet of a frame of 3 bytes.
const LOW_SIMPLE: [u8; 20] = [3, 0, 0, 0, 20, 0, 0, 0, 3, 0, 0, 0, 1, 2, 3, 0, 20, 0, 0, 0];

/// A packet as it is wanted: its interface, its time, how many bytes the frame had, and those that are stored.
type Wanted = (u32, u64, u32, &'static [u8]);

/// The packet that `LOW_PACKET` is where times are in microseconds.
const FIRST: Wanted = (0, 1_536_000, 60, &[2, 4, 6, 8, 10]);

/// The packet that `LOW_SECOND` is where those of interface 1 are in nanoseconds.
const SECOND: Wanted = (1, 4_294_967_298, 4, &[9, 8, 7, 6]);

/// The blocks one behind the other.
fn joined(alloc: Global, blocks: &[&[u8]]) -> Result<Vec<u8>, AllocError> {
    let mut file = Vec::new(alloc);
    for block in blocks {
        file.extend_from_slice(block)?;
    }
    Ok(file)
}

/// Compares one packet.
fn compare_packet(rt: &impl Abort, what: &str, packet: &Packet<'_>, wanted: &Wanted) {
    let (interface, time, original, bytes) = *wanted;
    same!(rt; packet.interface(), interface, "{what}");
    same!(rt; packet.time(), time, "{what}");
    same!(rt; packet.original_len(), original, "{what}");
    same!(rt; packet.bytes(), bytes, "{what}");
    same!(rt; packet.is_cut(), bytes.len() < original as usize, "{what}");
}

#[test]
fn a_file_in_pcapng_begins_with_a_section(rt: HostRuntime) {
    holds!(rt; is_pcapng(&LOW_SECTION) && is_pcapng(&HIGH_SECTION));
    holds!(rt; !is_pcapng(&LOW_INTERFACE) && !is_pcapng(&LOW_SECTION[..3]));
    same!(rt; Pcapng::open(rt.alloc(), &LOW_SECTION[..27]).err(), Some(PcapngFault::Header));
}

/// Compares the next packet of a file.
fn compare_next(rt: &impl Abort, capture: &mut Pcapng<'_>, wanted: &Wanted) {
    let packet = capture
        .next_packet()
        .expect(rt, "no fault")
        .expect(rt, "a packet");
    compare_packet(rt, "of a file", &packet, wanted);
}

/// Compares the packets of a file.
fn compare_packets(rt: &impl Abort, alloc: Global, file: &[u8]) {
    let mut capture = Pcapng::open(alloc, file).expect(rt, "a section");
    compare_next(rt, &mut capture, &SECOND);
    compare_next(rt, &mut capture, &FIRST);
    let end = capture.next_packet().expect(rt, "no fault");
    holds!(rt; end.is_none());
}

#[test]
fn packets_have_the_numbers_of_their_interfaces(rt: HostRuntime) {
    let blocks: [&[u8]; 5] = [
        &LOW_SECTION,
        &LOW_INTERFACE,
        &LOW_NANOSECONDS,
        &LOW_SECOND,
        &LOW_PACKET,
    ];
    let file = joined(rt.alloc(), &blocks).expect(&rt, "a file");
    compare_packets(&rt, rt.alloc(), &file);
}

/// A block by how many bytes it has, and where its packet's bytes stand; or why there is none.
type Front = Result<(usize, Option<usize>), PcapngFault>;

/// Reads the block at the front of some bytes.
fn read_front(rt: &impl Abort, blocks: &mut Blocks, bytes: &[u8]) -> Front {
    assert!(rt; !blocks.is_full(), "one more block can be numbered");
    match blocks.read(bytes) {
        Ok(block) => {
            let length = block.length;
            Ok((length, block.packet.map(|located| located.start)))
        }
        Err(fault) => Err(fault),
    }
}

#[test]
fn blocks_are_read_one_at_a_time(rt: HostRuntime) {
    same!(rt; Blocks::wanted_to_open(&LOW_SECTION[..11]), 12);
    same!(rt; Blocks::wanted_to_open(&LOW_SECTION[..12]), 28);
    let (mut blocks, length) = Blocks::open(rt.alloc(), &LOW_SECTION).expect(&rt, "a section");
    same!(rt; length, 28);
    same!(rt; blocks.wanted(&LOW_INTERFACE[..4]), 12);
    same!(rt; blocks.wanted(&LOW_PACKET[..20]), 52);
    read_fronts(&rt, &mut blocks);
}

/// Reads blocks, the first of them cut, and the last of an interface that isn't there.
fn read_fronts(rt: &impl Abort, blocks: &mut Blocks) {
    let cut = read_front(rt, blocks, &LOW_PACKET[..51]);
    same!(rt; cut, Err(PcapngFault::Torn(1)));
    same!(rt; read_front(rt, blocks, &LOW_INTERFACE), Ok((20, None)));
    same!(rt; read_front(rt, blocks, &LOW_PACKET), Ok((52, Some(28))));
    same!(rt; read_front(rt, blocks, &LOW_SIMPLE), Ok((20, Some(12))));
    same!(rt; read_front(rt, blocks, &LOW_SECOND), Err(PcapngFault::Torn(4)));
}

/// A block of this type and front, filled up to 300,000 bytes and with its length at the end.
fn filled(alloc: Global, front: &[u8]) -> Result<Vec<u8>, AllocError> {
    let mut block = Vec::new(alloc);
    block.extend_from_slice(front)?;
    block.resize(299_996, 0)?;
    block.extend_from_slice(&[0xe0, 0x93, 4, 0])?;
    Ok(block)
}

/// Passes over a packet block of which so much is held: 28 bytes go, then all but the 5 of the packet.
fn begin_passing(rt: &impl Abort, blocks: &Blocks, block: &[u8], held: &[u8]) -> Passing {
    let (few, _) = held.split_at(held.len().min(262_175));
    holds!(rt; blocks.pass_over(few).is_none());
    holds!(rt; blocks.pass_over(block).is_none());
    let begun = blocks.pass_over(held).expect(rt, "a long block");
    same!(rt; (begun.start, begun.length), (0, 28));
    same!(rt; blocks.torn(begun.left), PcapngFault::Torn(2));
    let (_, rest) = held.split_at(held.len().min(28));
    holds!(rt; !begun.left.is_whole(rest));
    let gone = begun.left.let_go(rest).expect(rt, "options");
    same!(rt; (gone.start, gone.length, rest.len()), (5, 262_143, 262_148));
    let (kept, _) = rest.split_at(rest.len().min(5));
    same!(rt; kept, [2, 4, 6, 8, 10].as_slice());
    holds!(rt; gone.left.let_go(kept).is_none());
    gone.left
}

/// Reads the packet of a block with what is left of it.
fn end_passing(rt: &impl Abort, blocks: &mut Blocks, left: Passing, end: &[u8]) {
    let (kept, _) = end.split_at(end.len().min(5));
    assert!(rt; !blocks.is_full(), "one more block can be numbered");
    same!(rt; blocks.read_rest(left, kept).err(), Some(PcapngFault::Torn(2)));
    holds!(rt; left.is_whole(end));
    assert!(rt; !blocks.is_full(), "one more block can be numbered");
    let read = blocks.read_rest(left, end).expect(rt, "a packet");
    same!(rt; read.length, 37_829);
    let located = read.packet.expect(rt, "a packet");
    same!(rt; located.start, 0);
    compare_packet(rt, "a long block", &located.packet, &FIRST);
}

#[test]
fn a_long_packet_block_is_passed_over(rt: HostRuntime) {
    let mut front = [0; 36];
    front.copy_from_slice(&LOW_PACKET[..36]);
    front[4] = 0xe0;
    front[5] = 0x93;
    front[6] = 4;
    let block = filled(rt.alloc(), &front).expect(&rt, "a block");
    let (held, later) = block.split_at(block.len().min(262_176));
    let end = joined(rt.alloc(), &[&LOW_PACKET[28..33], later]).expect(&rt, "bytes");
    let (mut blocks, _) = Blocks::open(rt.alloc(), &LOW_SECTION).expect(&rt, "a section");
    same!(rt; read_front(&rt, &mut blocks, &LOW_INTERFACE), Ok((20, None)));
    let left = begin_passing(&rt, &blocks, &block, held);
    end_passing(&rt, &mut blocks, left, &end);
}

/// The first block of a file has a fault of the header.
#[test]
fn a_long_first_block_is_passed_over(rt: HostRuntime) {
    let mut front = [0; 24];
    front.copy_from_slice(&LOW_SECTION[..24]);
    front[4] = 0xe0;
    front[5] = 0x93;
    front[6] = 4;
    let block = filled(rt.alloc(), &front).expect(&rt, "a block");
    holds!(rt; Blocks::pass_over_first(rt.alloc(), &block).is_none());
    let (held, _) = block.split_at(block.len().min(262_180));
    let (blocks, begun) = Blocks::pass_over_first(rt.alloc(), held).expect(&rt, "a section");
    same!(rt; blocks.torn(begun.left), PcapngFault::Header);
    same!(rt; (begun.start, begun.length), (0, 0));
    let gone = begun.left.let_go(held).expect(&rt, "options");
    same!(rt; (gone.start, gone.length), (0, 262_180));
}
