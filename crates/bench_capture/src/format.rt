//! A capture in either format, between two records or blocks.
ghost use Rattle.std.specs.Prelude.{◌≡◌, IfOk, false};
ghost use Rattle.bench_capture.specs.Formats.{FewKept, Opens, wanted_to_open};
ghost use Rattle.bench_pcapng.specs.Reading.{is_pcapng};

use crate::classic::{RECORD_HEADER_LEN, Records, has_nanoseconds};
use crate::fault::{CaptureFileFault, NextFrameFault};
use crate::pieces::Pieces;
use crate::span::{Gap, Taken};
use bench_pcapng::{Blocks, is_pcapng};
use capture::{HEADER_LEN, STORED_LIMIT, read_header};
use std::alloc::Global;

/// The most bytes that a record has.
const MOST_RECORD: usize = RECORD_HEADER_LEN + STORED_LIMIT as usize;

/// What is known of a capture between two records or blocks.
#[derive(Drop)]
pub(crate) enum Format {
    /// It is in the classic format.
    Classic(Records),
    /// It is in the pcapng format.
    Pcapng(Pieces),
}

/// How many bytes of a file show whether its beginning has a fault.
pub(crate) fn wanted_to_open(file: &[u8]) -> usize
    ensures { result ≡ wanted_to_open file.now }
{
    if is_pcapng(file) {
        Blocks::wanted_to_open(file)
    } else {
        HEADER_LEN
    }
}

/// What is known of a capture in the classic format behind its header, and how many bytes that has.
fn open_classic(file: &[u8]) -> Result<(Format, usize), CaptureFileFault>
    requires { is_pcapng file.now ≡ false }
    ensures opens { Opens file.now result }
    ensures kept { IfOk result (λ parts. FewKept parts.0) }
{
    match read_header(file) {
        Ok(order) => {
            let records = Records {
                order,
                nanoseconds: has_nanoseconds(order, file),
                number: 0,
            };
            Ok((Format::Classic(records), HEADER_LEN))
        }
        Err(fault) => Err(CaptureFileFault::from(fault)),
    }
}

impl Format {
    ghost use Rattle.std.specs.Prelude.{◌≡◌, ◌⊎◌, ◌↔◌, ◌≤◌, ◌<◌, ◌-◌, ◌^◌, [], IfOk, IsTrue, None, false, length};
    ghost use Rattle.bench_pcapng.specs.Passing.{shown_length};
    ghost use Rattle.bench_capture.specs.Formats.{FewKept, IsHeld, LetsGo, Opens, OpensLong, Takes, blocks_read, ended_by, is_within, reading_at, wanted_of, wanted_to_open};

    /// What is known of a capture behind its beginning, and how many bytes that has. Err where it has a fault.
    pub(crate) fn open(alloc: Global, file: &[u8]) -> Result<(Format, usize), CaptureFileFault>
        ensures opens { Opens file.now result }
        ensures kept { IfOk result (λ parts. FewKept parts.0) }
    {
        if !is_pcapng(file) {
            return open_classic(file);
        }
        match Blocks::open(alloc, file) {
            Some((known, length)) => {
                let pieces = Pieces {
                    blocks: known,
                    passing: None,
                };
                Ok((Format::Pcapng(pieces), length))
            }
            None => Err(CaptureFileFault::Header),
        }
    }

    /// What is known of a capture within its first block, which is incomplete, and the part of it that can be discarded. `None`: under
    /// 262,176 bytes are held, or they show whether the file's start has a fault.
    pub(crate) fn open_long(alloc: Global, file: &[u8]) -> Option<(Format, Gap)>
        ensures opens { OpensLong file.now result }
        ensures held { result ≡ None → wanted_to_open file.now ≤ length file.now ⊎ length file.now < shown_length }
    {
        let (known, past) = Blocks::pass_over_first(alloc, file)?;
        let pieces = Pieces {
            blocks: known,
            passing: Some(past.left),
        };
        let gap = Gap {
            start: past.start,
            length: past.length,
        };
        Some((Format::Pcapng(pieces), gap))
    }

    /// Whether a block is passed over.
    pub(crate) fn is_within(&self) -> bool
        ensures { result ≡ is_within self.now }
    {
        match self {
            Format::Classic(_) => false,
            Format::Pcapng(pieces) => pieces.passing.is_some(),
        }
    }

    /// Whether these bytes show whether the next record or block has a fault.
    pub(crate) fn is_enough(&self, bytes: &[u8]) -> bool
        ensures { IsTrue result ↔ (wanted_of self.now bytes.now ≤ length bytes.now) }
    {
        match self {
            Format::Classic(_) => bytes.len() >= MOST_RECORD,
            Format::Pcapng(pieces) => pieces.is_enough(bytes),
        }
    }

    /// The fault of a file that ends here, where that isn't between two records or blocks.
    pub(crate) fn fault_at_end(&self) -> Option<CaptureFileFault>
        ensures { reading_at self.now [] ≡ ended_by result }
    {
        match self {
            Format::Classic(_) => None,
            Format::Pcapng(pieces) => pieces.fault_at_end(),
        }
    }

    /// The part of an incomplete block that can be discarded. `None`: under 262,176 bytes are held.
    pub(crate) fn let_go(&mut self, bytes: &[u8]) -> Option<Gap>
        ensures goes { LetsGo self.old bytes.now result self.new }
        ensures kept { FewKept self.old → FewKept self.new }
        ensures held { FewKept self.old → result ≡ None → IsHeld self.old bytes.now }
    {
        match self {
            Format::Classic(_) => None,
            Format::Pcapng(pieces) => pieces.let_go(bytes),
        }
    }

    /// Whether no block can be counted any more.
    pub(crate) fn is_full(&self) -> bool
        ensures { result ≡ false → blocks_read self.now < 2 ^ 64 - 1 }
    {
        match self {
            Format::Classic(_) => false,
            Format::Pcapng(pieces) => pieces.blocks.is_full(),
        }
    }

    /// Takes the record or block at the front of the bytes. Err where it has a fault, or there is no memory for an interface.
    pub(crate) fn take(&mut self, bytes: &[u8]) -> Result<Taken, NextFrameFault>
        requires some { 0 < length bytes.now }
        requires few { blocks_read self.old < 2 ^ 64 - 1 }
        ensures takes { Takes self.old bytes.now result self.new }
        ensures kept { FewKept self.old → FewKept self.new }
    {
        match self {
            Format::Classic(records) => match records.take(bytes) {
                Ok(taken) => Ok(taken),
                Err(fault) => Err(NextFrameFault::Capture(fault)),
            },
            Format::Pcapng(pieces) => pieces.take(bytes),
        }
    }
}
