//! The blocks of a capture one at a time, whose bytes the caller holds.
ghost use Rattle.std.specs.Prelude.{◌≡◌, ◌≤◌, [], IfSome, drop, length, option_map};
ghost use Rattle.bench_pcapng.specs.Blocks.{wanted_length};
ghost use Rattle.bench_pcapng.specs.Packets.{data_start};
ghost use Rattle.bench_pcapng.specs.Reading.{opened, place_at};
ghost use Rattle.bench_pcapng.specs.declared.order.Order.TheVariants.{HighFirst};

use crate::block::{AROUND_BODY, block_length, wanted_length};
use crate::effect::{Effect, SIMPLE_PACKET, read_block};
use crate::fault::PcapngFault;
use crate::interface::Interface;
use crate::order::Order;
use crate::packet::Packet;
use crate::pcapng::is_pcapng;
use crate::section::read_section;
use std::alloc::Global;
use std::marker::Model;

/// A packet, and where its bytes stand.
#[derive(Drop)]
pub struct Located<'a> {
    /// The packet.
    pub packet: Packet<'a>,
    /// How many bytes of its block stand before its own.
    pub start: usize,
}

/// A block that was read.
#[derive(Drop)]
pub struct Block<'a> {
    /// How many bytes it has.
    pub length: usize,
    /// Its packet, if it holds one.
    pub packet: Option<Located<'a>>,
}

/// What is known between two blocks of a capture: the byte order and the interfaces of the section, the time of the packet before,
/// and how many blocks were read.
#[derive(Drop)]
pub struct Blocks {
    pub(crate) order: Order,
    pub(crate) interfaces: Vec<Interface>,
    pub(crate) time: u64,
    pub(crate) number: u64,
}

impl Model for Blocks {
    ghost use Rattle.bench_pcapng.specs.Reading.{Progress};

    ghost Value = { Progress };

    ghost view = { λ b. record {
      order = b.order;
      interfaces = b.interfaces.items;
      time = b.time;
      number = b.number;
    } };
}

/// How many bytes of a packet block of this type stand before the packet's own.
pub(crate) fn data_start(kind: u32) -> usize
    ensures { result ≡ data_start kind }
{
    if kind == SIMPLE_PACKET { 12 } else { 28 }
}

/// The byte order of a file's first block, and its length, if it begins a section.
#[tactic(auto, unfolding(crate::specs::Reading::opened))]
fn open_section(file: &[u8]) -> Option<(Order, usize)>
    ensures place { option_map (λ parts. place_at (record {
      order = parts.0;
      interfaces = [];
      time = 0;
      number = 1;
    }) (drop parts.1 file.now)) result ≡ opened file.now }
    ensures least { IfSome result (λ parts. 12 ≤ parts.1) }
    ensures within { IfSome result (λ parts. parts.1 ≤ length file.now) }
{
    if !is_pcapng(file) {
        return None;
    }
    let length = block_length(Order::HighFirst, file)?;
    let (_, behind_kind) = file.split_at(8);
    let (body, _) = behind_kind.split_at(length - AROUND_BODY);
    let order = read_section(body)?;
    Some((order, length))
}

impl Blocks {
    ghost use Rattle.std.specs.Prelude.{◌≡◌, ◌≤◌, ◌<◌, ◌-◌, ◌^◌, ◌↔◌, IfSome, IsTrue, drop, length, option_map};
    ghost use Rattle.bench_pcapng.specs.Blocks.{wanted_length};
    ghost use Rattle.bench_pcapng.specs.Read.{IsApplied, IsRead};
    ghost use Rattle.bench_pcapng.specs.Reading.{opened, place_at};
    ghost use Rattle.bench_pcapng.specs.declared.order.Order.TheVariants.{HighFirst};

    /// Reads the first block of a file: what is known behind it, and how many bytes it has. None where it isn't a whole section
    /// header block of version 1.x.
    pub fn open(alloc: Global, file: &[u8]) -> Option<(Blocks, usize)>
        ensures place { option_map (λ parts. place_at parts.0 (drop parts.1 file.now)) result
            ≡ opened file.now }
        ensures within { IfSome result (λ parts. parts.1 ≤ length file.now) }
        ensures few { IfSome result (λ parts. (parts.0.number ≡ 1) × (12 ≤ parts.1)) }
    {
        let (order, length) = open_section(file)?;
        let blocks = Blocks {
            order,
            interfaces: Vec::new(alloc),
            time: 0,
            number: 1,
        };
        Some((blocks, length))
    }

    /// How many bytes of a file show whether its first block is whole.
    pub fn wanted_to_open(file: &[u8]) -> usize
        ensures { result ≡ wanted_length HighFirst file.now }
    {
        wanted_length(Order::HighFirst, file)
    }

    /// How many bytes from here on show whether the next block is whole. Where there are so many, more of them don't change what
    /// [`Blocks::read`] gives. The fewest are 12, which show how long the block is.
    pub fn wanted(&self, bytes: &[u8]) -> usize
        ensures { result ≡ wanted_length self.now.order bytes.now }
    {
        wanted_length(self.order, bytes)
    }

    /// Whether so many blocks were read that one more couldn't be numbered.
    pub fn is_full(&self) -> bool
        ensures { IsTrue result ↔ (2 ^ 64 - 1 ≤ self.now.number) }
    {
        self.number == u64::MAX
    }

    /// Passes a block that has this effect. Its packet, if it holds one. Err with `NoMemory` where there is none for its interface.
    pub(crate) fn apply<'a>(
        &mut self,
        effect: Effect<'a>,
    ) -> Result<Option<Packet<'a>>, PcapngFault>
        requires { self.old.number < 2 ^ 64 - 1 }
        ensures { IsApplied self.old effect.entry result self.new }
    {
        let mut packet = None;
        match effect {
            Effect::Section(order) => {
                self.order = order;
                self.interfaces.clear();
            }
            Effect::Describes(interface) => {
                let Ok(()) = self.interfaces.push(interface) else {
                    return Err(PcapngFault::NoMemory);
                };
            }
            Effect::Gives(given) => {
                self.time = given.time();
                packet = Some(given);
            }
            Effect::Nothing => {}
        }
        self.number += 1;
        Ok(packet)
    }

    /// Reads the block at the front of these bytes, which go on behind the blocks that were read. Err where it has a fault, or isn't
    /// whole; or with `NoMemory` where there is none for its interface. Then as much is known as before.
    #[tactic(auto, unfolding(crate::specs::Reading::step_of))]
    pub fn read<'a>(&mut self, bytes: &'a [u8]) -> Result<Block<'a>, PcapngFault>
        requires { self.old.number < 2 ^ 64 - 1 }
        ensures { IsRead self.old bytes.now result self.new }
    {
        let Some(length) = block_length(self.order, bytes) else {
            return Err(PcapngFault::Torn(self.number));
        };
        let kind = self.order.read_u32(bytes);
        let (_, behind_kind) = bytes.split_at(8);
        let (body, _) = behind_kind.split_at(length - AROUND_BODY);
        let interfaces = self.interfaces.as_slice();
        let effect = match read_block(self.order, interfaces, self.time, kind, body) {
            Ok(effect) => effect,
            Err(fault) => return Err(fault.at(self.number)),
        };
        match self.apply(effect) {
            Ok(Some(packet)) => {
                let start = data_start(kind);
                let packet = Some(Located { packet, start });
                Ok(Block { length, packet })
            }
            Ok(None) => Ok(Block {
                length,
                packet: None,
            }),
            Err(fault) => Err(fault),
        }
    }
}
