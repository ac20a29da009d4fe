//! The walk over the blocks of a file.

use crate::blocks::Blocks;
use crate::fault::PcapngFault;
use crate::packet::Packet;

/// How far the blocks of a file are read.
#[derive(Drop)]
pub(crate) struct Walk<'a> {
    pub(crate) blocks: Blocks,
    // The bytes from the next block on.
    pub(crate) rest: &'a [u8],
}

impl<'a> Walk<'a> {
    ghost use Rattle.std.specs.Prelude.{◌≡◌, ◌<◌, ◌+◌, ◌^◌, length};
    ghost use Rattle.bench_pcapng.specs.Reading.{reading_at, step_of};
    ghost use Rattle.bench_pcapng.specs.Walks.{IsNext, IsStepped, place_of};

    /// Reads the next block. Err where it has a fault, or there is no memory for its interface.
    fn step(&mut self) -> Result<Option<Packet<'a>>, PcapngFault>
        requires few { self.old.blocks.number + length self.old.rest.now < 2 ^ 64 }
        requires some { 0 < length self.old.rest.now }
        ensures stepped { IsStepped (step_of (place_of self.old))
            (place_of self.old) result (place_of self.new) }
    {
        match self.blocks.read(self.rest) {
            Ok(block) => {
                let (_, behind) = self.rest.split_at(block.length);
                self.rest = behind;
                match block.packet {
                    Some(located) => Ok(Some(located.packet)),
                    None => Ok(None),
                }
            }
            Err(fault) => Err(fault),
        }
    }

    /// Goes on behind the next packet, or up to the first fault. Err with that, or where memory is wanting.
    pub(crate) fn next_packet(&mut self) -> Result<Option<Packet<'a>>, PcapngFault>
        requires { self.old.blocks.number + length self.old.rest.now < 2 ^ 64 }
        ensures next { IsNext result (reading_at (place_of self.old)) (reading_at (place_of self.new)) }
        ensures few { self.new.blocks.number + length self.new.rest.now < 2 ^ 64 }
    {
        while self.rest.len() != 0 {
            match self.step() {
                Ok(None) => {}
                Ok(Some(packet)) => return Ok(Some(packet)),
                Err(fault) => return Err(fault),
            }
        }
        Ok(None)
    }
}
