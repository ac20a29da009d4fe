//! The blocks of a capture in the pcapng format, whose bytes the caller holds in pieces.
ghost use Rattle.std.specs.Prelude.{◌≡◌};
ghost use Rattle.bench_capture.specs.Formats.{frame_fault_of, taken_of};

use crate::fault::{CaptureFileFault, NextFrameFault};
use crate::span::{Gap, Span, Taken};
use bench_pcapng::{Block, Blocks, Passing, Past, PcapngFault};

/// How far the blocks of a file are read: between two, or within one that is passed over.
#[derive(Drop)]
pub(crate) struct Pieces {
    pub(crate) blocks: Blocks,
    pub(crate) passing: Option<Passing>,
}

/// A block as what was taken from the front of some bytes.
fn taken_of(block: &Block<'_>) -> Taken
    ensures { result ≡ taken_of block.now }
{
    let frame = match &block.packet {
        Some(located) => Some(Span {
            time: located.packet.time(),
            original: located.packet.original_len(),
            start: located.start,
            length: located.packet.bytes().len(),
        }),
        None => None,
    };
    Taken {
        length: block.length,
        frame,
    }
}

/// The same fault of a capture in either format.
fn of_pcapng(fault: PcapngFault) -> NextFrameFault
    ensures { result ≡ frame_fault_of fault }
{
    match fault {
        PcapngFault::Header => NextFrameFault::Capture(CaptureFileFault::Header),
        PcapngFault::Link(link) => NextFrameFault::Capture(CaptureFileFault::Link(link)),
        PcapngFault::Torn(number) => NextFrameFault::Capture(CaptureFileFault::Torn(number)),
        PcapngFault::TooLong(number) => NextFrameFault::Capture(CaptureFileFault::TooLong(number)),
        PcapngFault::NoMemory => NextFrameFault::NoMemory,
    }
}

impl Pieces {
    ghost use Rattle.std.specs.Prelude.{◌≡◌, ◌↔◌, ◌≤◌, ◌<◌, ◌-◌, ◌^◌, [], IsTrue, None, length};
    ghost use Rattle.bench_capture.specs.Formats.{FewKept, IsHeld, LetsGo, Takes, ended_by, past_by, reading_at, wanted_of};
    ghost use Rattle.bench_capture.specs.declared.format.Format.TheVariants.{Pcapng};

    /// Whether these bytes show whether the next block, or the one that is passed over, has a fault.
    pub(crate) fn is_enough(&self, bytes: &[u8]) -> bool
        ensures { IsTrue result ↔ (wanted_of (Pcapng self.now) bytes.now ≤ length bytes.now) }
    {
        match self.passing {
            None => self.blocks.wanted(bytes) <= bytes.len(),
            Some(passing) => passing.is_whole(bytes),
        }
    }

    /// The fault of a file that ends here, where that is within a block.
    pub(crate) fn fault_at_end(&self) -> Option<CaptureFileFault>
        ensures { reading_at (Pcapng self.now) [] ≡ ended_by result }
    {
        match self.passing {
            None => None,
            Some(passing) => match of_pcapng(self.blocks.torn(passing)) {
                NextFrameFault::Capture(fault) => Some(fault),
                NextFrameFault::NoMemory => None,
            },
        }
    }

    /// Which of these bytes are let go of the next block, or of the one that is passed over.
    fn next_past(&self, bytes: &[u8]) -> Option<Past>
        ensures value { result ≡ past_by self.now.passing self.now.blocks bytes.now }
        ensures held { FewKept (Pcapng self.now) → result ≡ None → IsHeld (Pcapng self.now) bytes.now }
    {
        match self.passing {
            None => self.blocks.pass_over(bytes),
            Some(passing) => passing.let_go(bytes),
        }
    }

    /// The part of an incomplete block that can be discarded. `None`: under 262,176 bytes are held.
    pub(crate) fn let_go(&mut self, bytes: &[u8]) -> Option<Gap>
        ensures goes { LetsGo (Pcapng self.old) bytes.now result (Pcapng self.new) }
        ensures kept { FewKept (Pcapng self.old) → FewKept (Pcapng self.new) }
        ensures held { FewKept (Pcapng self.old) → result ≡ None → IsHeld (Pcapng self.old) bytes.now }
    {
        let past = self.next_past(bytes)?;
        self.passing = Some(past.left);
        Some(Gap {
            start: past.start,
            length: past.length,
        })
    }

    /// Takes the block at the front of the bytes.
    fn read(&mut self, bytes: &[u8]) -> Result<Taken, NextFrameFault>
        requires some { 0 < length bytes.now }
        requires few { self.old.blocks.number < 2 ^ 64 - 1 }
        requires between { self.old.passing ≡ None }
        ensures takes { Takes (Pcapng self.old) bytes.now result (Pcapng self.new) }
        ensures kept { FewKept (Pcapng self.old) → FewKept (Pcapng self.new) }
    {
        match self.blocks.read(bytes) {
            Ok(block) => Ok(taken_of(&block)),
            Err(fault) => Err(of_pcapng(fault)),
        }
    }

    /// Takes the block at the front of the bytes, or the rest of one that is passed over. Err where it has a fault, or there is no memory
    /// for an interface.
    pub(crate) fn take(&mut self, bytes: &[u8]) -> Result<Taken, NextFrameFault>
        requires some { 0 < length bytes.now }
        requires few { self.old.blocks.number < 2 ^ 64 - 1 }
        ensures takes { Takes (Pcapng self.old) bytes.now result (Pcapng self.new) }
        ensures kept { FewKept (Pcapng self.old) → FewKept (Pcapng self.new) }
    {
        let Some(passing) = self.passing else {
            return self.read(bytes);
        };
        match self.blocks.read_rest(passing, bytes) {
            Ok(block) => {
                self.passing = None;
                Ok(taken_of(&block))
            }
            Err(fault) => Err(of_pcapng(fault)),
        }
    }
}
