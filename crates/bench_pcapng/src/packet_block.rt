//! The bodies of the packet blocks.
ghost use Rattle.std.specs.Prelude.{◌≡◌, ◌≤◌, length, slice_get};
ghost use Rattle.bench_pcapng.specs.Packets.{checked_of, enhanced_of, obsolete_of, simple_length, simple_of, stored_of, timed_of};

use crate::fault::BlockFault;
use crate::interface::Interface;
use crate::order::Order;
use crate::packet::Packet;
use crate::time::nanoseconds_of;
use capture::{ETHERNET, STORED_LIMIT};

/// How many bytes stand before the data of an enhanced or obsolete packet block: the interface, the time in two parts of 32 bits, how
/// many bytes are stored, and how many the frame had.
const TIMED_LEN: usize = 20;

/// How many bytes stand before the data of a simple packet block: how many the frame had.
const SIMPLE_LEN: usize = 4;

/// The interface of a number, if it is there and one of Ethernet.
pub(crate) fn interface_at(interfaces: &[Interface], number: u32) -> Result<Interface, BlockFault>
    ensures { result ≡ checked_of (slice_get interfaces.now number) }
{
    let Some(interface) = interfaces.get(number as usize).copied() else {
        return Err(BlockFault::Torn);
    };
    if interface.link != ETHERNET {
        return Err(BlockFault::Link(interface.link));
    }
    Ok(interface)
}

/// The packet that stores so many of the bytes of its block, from the data on.
#[tactic(auto, unfolding(crate::specs::Packets::stored_of))]
fn store<'a>(
    interface: u32,
    time: u64,
    original: u32,
    stored: u32,
    behind: &'a [u8],
) -> Result<Packet<'a>, BlockFault>
    ensures { result ≡ stored_of interface time original stored behind.now }
{
    if stored > STORED_LIMIT {
        return Err(BlockFault::TooLong);
    }
    if behind.len() < stored as usize {
        return Err(BlockFault::Torn);
    }
    let (bytes, _) = behind.split_at(stored as usize);
    Ok(Packet::of(interface, time, original, bytes))
}

/// The packet of an enhanced or obsolete packet block, of the interface of this number.
#[tactic(auto, unfolding(crate::specs::Packets::timed_of))]
fn read_timed<'a>(
    order: Order,
    interfaces: &[Interface],
    number: u32,
    body: &'a [u8],
) -> Result<Packet<'a>, BlockFault>
    requires { 20 ≤ length body.now }
    ensures { result ≡ timed_of order interfaces.now number body.now }
{
    let interface = interface_at(interfaces, number)?;
    let high = u64::from(order.read_u32(&body[4..]));
    let ticks = high * (1 << 32) + u64::from(order.read_u32(&body[8..]));
    let time = nanoseconds_of(interface.resolution, interface.offset, ticks);
    let stored = order.read_u32(&body[12..]);
    let original = order.read_u32(&body[16..]);
    store(number, time, original, stored, &body[TIMED_LEN..])
}

/// The packet of an enhanced packet block.
#[tactic(auto, unfolding(crate::specs::Packets::enhanced_of))]
pub(crate) fn read_enhanced<'a>(
    order: Order,
    interfaces: &[Interface],
    body: &'a [u8],
) -> Result<Packet<'a>, BlockFault>
    ensures { result ≡ enhanced_of order interfaces.now body.now }
{
    if body.len() < TIMED_LEN {
        return Err(BlockFault::Torn);
    }
    read_timed(order, interfaces, order.read_u32(body), body)
}

/// The packet of an obsolete packet block. How many packets were dropped isn't looked at.
#[tactic(auto, unfolding(crate::specs::Packets::obsolete_of))]
pub(crate) fn read_obsolete<'a>(
    order: Order,
    interfaces: &[Interface],
    body: &'a [u8],
) -> Result<Packet<'a>, BlockFault>
    ensures { result ≡ obsolete_of order interfaces.now body.now }
{
    if body.len() < TIMED_LEN {
        return Err(BlockFault::Torn);
    }
    read_timed(order, interfaces, u32::from(order.read_u16(body)), body)
}

/// How many bytes a simple packet block stores of a frame: all, or as many as the snap length lets it.
fn simple_length(snap_length: u32, original: u32) -> u32
    ensures { result ≡ simple_length snap_length original }
{
    if snap_length == 0 {
        original
    } else {
        original.min(snap_length)
    }
}

/// The packet of a simple packet block, which is of interface 0. It has no time of its own: it gets this one.
#[tactic(auto, unfolding(crate::specs::Packets::simple_of))]
pub(crate) fn read_simple<'a>(
    order: Order,
    interfaces: &[Interface],
    time: u64,
    body: &'a [u8],
) -> Result<Packet<'a>, BlockFault>
    ensures { result ≡ simple_of order interfaces.now time body.now }
{
    if body.len() < SIMPLE_LEN {
        return Err(BlockFault::Torn);
    }
    let interface = interface_at(interfaces, 0)?;
    let original = order.read_u32(body);
    let stored = simple_length(interface.snap_length, original);
    store(0, time, original, stored, &body[SIMPLE_LEN..])
}
