//! A capture file as packets, which are slices of its bytes.
ghost use Rattle.std.specs.Prelude.{◌≡◌, ◌<◌, ◌+◌, ◌^◌, IfSome, length, option_map};
ghost use Rattle.bench_pcapng.specs.Reading.{is_pcapng, opened};
ghost use Rattle.bench_pcapng.specs.Walks.{place_of};

use crate::block::SECTION;
use crate::blocks::Blocks;
use crate::fault::PcapngFault;
use crate::order::Order;
use crate::packet::Packet;
use crate::walk::Walk;
use std::alloc::Global;
use std::marker::Model;

/// Whether a file is told to be in the pcapng format: it begins with the type of a section header block.
pub fn is_pcapng(file: &[u8]) -> bool
    ensures { result ≡ is_pcapng file.now }
{
    file.len() >= 4 && Order::HighFirst.read_u32(file) == SECTION
}

/// A capture in the pcapng format, read up to behind a packet. Contracts see what is left of it: its packets, and its first fault.
#[derive(Drop)]
pub struct Pcapng<'a> {
    walk: Walk<'a>,
}

impl<'a> Model for Pcapng<'a> {
    ghost use Rattle.std.specs.Prelude.{◌<◌, ◌+◌, ◌^◌, length};
    ghost use Rattle.bench_pcapng.specs.Reading.{Reading, reading_at};
    ghost use Rattle.bench_pcapng.specs.Walks.{place_of};

    ghost Value = { Reading };

    ghost view = { λ p. reading_at (place_of p.walk) };

    ghost invariant = { λ p. p.walk.blocks.number + length p.walk.rest.now < 2 ^ 64 };
}

/// The walk behind a file's first block, if that begins a section.
fn open_walk<'a>(alloc: Global, file: &'a [u8]) -> Option<Walk<'a>>
    ensures place { option_map (λ walk. place_of walk) result ≡ opened file.now }
    ensures few { IfSome result (λ walk. walk.blocks.number + length walk.rest.now < 2 ^ 64) }
{
    let (blocks, length) = Blocks::open(alloc, file)?;
    let (_, rest) = file.split_at(length);
    Some(Walk { blocks, rest })
}

impl<'a> Pcapng<'a> {
    ghost use Rattle.std.specs.Prelude.{◌≡◌};
    ghost use Rattle.bench_pcapng.specs.Reading.{reading_of};
    ghost use Rattle.bench_pcapng.specs.Walks.{IsNext, IsOpened};

    /// The capture that a file is. Err with `Header` where it doesn't begin with a whole section header block of version 1.x; no block
    /// behind that is looked at.
    #[tactic(auto, unfolding(crate::specs::Reading::reading_of))]
    pub fn open(alloc: Global, file: &'a [u8]) -> Result<Pcapng<'a>, PcapngFault>
        ensures { IsOpened (reading_of file.now) result }
    {
        match open_walk(alloc, file) {
            Some(walk) => Ok(Pcapng { walk }),
            None => Err(PcapngFault::Header),
        }
    }

    /// The next packet, or None at the end. Err with the first fault, once all packets in front of it were given. Behind the end, and
    /// behind a fault, each call gives the same again. Err with `NoMemory` where memory is refused: then nothing is lost, and a later
    /// call goes on.
    pub fn next_packet(&mut self) -> Result<Option<Packet<'a>>, PcapngFault>
        ensures { IsNext result self.old self.new }
    {
        self.walk.next_packet()
    }
}
