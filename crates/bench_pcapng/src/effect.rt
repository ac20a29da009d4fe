//! What a block does.
ghost use Rattle.std.specs.Prelude.{◌≡◌};
ghost use Rattle.bench_pcapng.specs.Effects.{effect_of};

use crate::block::SECTION;
use crate::fault::BlockFault;
use crate::interface::{Interface, read_interface};
use crate::order::Order;
use crate::packet::Packet;
use crate::packet_block::{read_enhanced, read_obsolete, read_simple};
use crate::section::read_section;

/// The type of an interface description block.
pub(crate) const INTERFACE: u32 = 1;

/// The type of an obsolete packet block.
const OBSOLETE_PACKET: u32 = 2;

/// The type of a simple packet block.
pub(crate) const SIMPLE_PACKET: u32 = 3;

/// The type of an enhanced packet block.
const ENHANCED_PACKET: u32 = 6;

/// What a block does.
#[derive(Drop)]
pub(crate) enum Effect<'a> {
    /// It begins a section, which is written in this order.
    Section(Order),
    /// It describes the next interface.
    Describes(Interface),
    /// It holds a packet.
    Gives(Packet<'a>),
    /// It is passed over.
    Nothing,
}

/// What the block of this type and body does, in a section of this order and these interfaces. The time is that of the packet before.
#[tactic(auto, unfolding(crate::specs::Effects::effect_of))]
pub(crate) fn read_block<'a>(
    order: Order,
    interfaces: &[Interface],
    time: u64,
    kind: u32,
    body: &'a [u8],
) -> Result<Effect<'a>, BlockFault>
    ensures { result ≡ effect_of order interfaces.now time kind body.now }
{
    match kind {
        SECTION => match read_section(body) {
            Some(own) => Ok(Effect::Section(own)),
            None => Err(BlockFault::Torn),
        },
        INTERFACE => match read_interface(order, body) {
            Some(interface) => Ok(Effect::Describes(interface)),
            None => Err(BlockFault::Torn),
        },
        ENHANCED_PACKET => Ok(Effect::Gives(read_enhanced(order, interfaces, body)?)),
        SIMPLE_PACKET => Ok(Effect::Gives(read_simple(order, interfaces, time, body)?)),
        OBSOLETE_PACKET => Ok(Effect::Gives(read_obsolete(order, interfaces, body)?)),
        _ => Ok(Effect::Nothing),
    }
}
