//! What a block does that is passed over.
ghost use Rattle.std.specs.Prelude.{◌≡◌};

use crate::effect::Effect;
use crate::fault::BlockFault;
use crate::interface::Interface;
use crate::options::with_options;
use crate::order::Order;
use crate::packet::Packet;

/// A packet whose bytes are kept until the end of its block was seen.
#[derive(Clone, Copy)]
pub(crate) struct Kept {
    /// The number of its interface in the section.
    pub(crate) interface: u32,
    /// Its time, in nanoseconds since the epoch.
    pub(crate) time: u64,
    /// How many bytes the frame had.
    pub(crate) original: u32,
    /// How many bytes of it are stored.
    pub(crate) length: usize,
}

/// What a block does once its end was seen, as far as its bytes showed that.
#[derive(Clone, Copy)]
pub(crate) enum Outcome {
    /// It begins a section, which is written in this order.
    Begins(Order),
    /// It describes the next interface, which is this one by the options so far. Others are left.
    Describing(Interface),
    /// It describes the next interface, and no option is left.
    Described(Interface),
    /// It holds a packet.
    Keeps(Kept),
    /// Nothing.
    Passes,
    /// It has this fault.
    Refuses(BlockFault),
}

impl Kept {
    ghost use Rattle.std.specs.Prelude.{◌≡◌, length};

    /// What is kept of a packet beside its bytes.
    pub(crate) fn of(packet: &Packet<'_>) -> Kept
        ensures { result ≡ record {
          interface = packet.now.interface;
          time = packet.now.time;
          original = packet.now.original;
          length = length packet.now.bytes;
        } }
    {
        Kept {
            interface: packet.interface(),
            time: packet.time(),
            original: packet.original_len(),
            length: packet.bytes().len(),
        }
    }
}

impl Outcome {
    ghost use Rattle.std.specs.Prelude.{◌≡◌, ◌≤◌, length};
    ghost use Rattle.bench_pcapng.specs.Passing.{kept_of, outcome_in};

    /// How many bytes of the block are kept: those of its packet.
    pub(crate) fn kept(self) -> usize
        ensures { result ≡ kept_of self }
    {
        match self {
            Outcome::Keeps(packet) => packet.length,
            _ => 0,
        }
    }

    /// What the block does, where these are the bytes in front of its second length. Err where it has a fault.
    pub(crate) fn effect(self, order: Order, inside: &[u8]) -> Result<Effect<'_>, BlockFault>
        requires { kept_of self ≤ length inside.now }
        ensures { result ≡ outcome_in order self inside.now }
    {
        match self {
            Outcome::Begins(own) => Ok(Effect::Section(own)),
            Outcome::Describing(plain) => match with_options(order, plain, inside) {
                Some(interface) => Ok(Effect::Describes(interface)),
                None => Err(BlockFault::Torn),
            },
            Outcome::Described(interface) => Ok(Effect::Describes(interface)),
            Outcome::Keeps(packet) => {
                let (bytes, _) = inside.split_at(packet.length);
                Ok(Effect::Gives(Packet::of(packet.interface, packet.time, packet.original, bytes)))
            }
            Outcome::Passes => Ok(Effect::Nothing),
            Outcome::Refuses(fault) => Err(fault),
        }
    }
}
