//! The records of a capture in the classic format.
ghost use Rattle.std.specs.Prelude.{◌≡◌, ◌≤◌, length};
ghost use Rattle.bench_capture.specs.Classic.{has_nanoseconds, nanoseconds_of};
ghost use Rattle.bench_capture.specs.Faults.{at_record};

use crate::fault::CaptureFileFault;
use crate::span::{Span, Taken};
use capture::{Order, RecordFault, split_record};

/// How many bytes stand before those that a record stores.
pub(crate) const RECORD_HEADER_LEN: usize = 16;

/// The magic number of a file whose times are in nanoseconds.
const NANOSECONDS_MAGIC: u32 = 0xa1b2_3c4d;

/// How many nanoseconds a second has.
const SECOND: u64 = 1_000_000_000;

/// How far the records of a file are read.
#[derive(Clone, Copy)]
pub(crate) struct Records {
    /// The byte order of the file.
    pub(crate) order: Order,
    /// Whether its times are in nanoseconds, and not in microseconds.
    pub(crate) nanoseconds: bool,
    /// The number of the next record.
    pub(crate) number: u32,
}

/// Whether a file's magic number says that its times are in nanoseconds.
pub(crate) fn has_nanoseconds(order: Order, file: &[u8]) -> bool
    requires { 4 ≤ length file.now }
    ensures { result ≡ has_nanoseconds order file.now }
{
    order.read_u32(file) == NANOSECONDS_MAGIC
}

/// Nanoseconds since the epoch.
fn nanoseconds_of(nanoseconds: bool, seconds: u32, fraction: u32) -> u64
    ensures { result ≡ nanoseconds_of nanoseconds seconds fraction }
{
    let whole = u64::from(seconds) * SECOND;
    if nanoseconds {
        whole + u64::from(fraction)
    } else {
        whole + u64::from(fraction) * 1000
    }
}

/// The fault of a file whose record of this number has one.
pub(crate) fn fault_at(number: u32, fault: RecordFault) -> CaptureFileFault
    ensures { result ≡ at_record number fault }
{
    match fault {
        RecordFault::Torn => CaptureFileFault::Torn(u64::from(number)),
        RecordFault::TooLong => CaptureFileFault::TooLong(u64::from(number)),
    }
}

impl Records {
    ghost use Rattle.std.specs.Prelude.{◌≡◌, ◌<◌, length};
    ghost use Rattle.bench_capture.specs.Records.{TakesRecord};

    /// Takes the record at the front of the bytes. Err where it has a fault.
    pub(crate) fn take(&mut self, bytes: &[u8]) -> Result<Taken, CaptureFileFault>
        requires { 0 < length bytes.now }
        ensures { TakesRecord self.old bytes.now result self.new }
    {
        if self.number == u32::MAX {
            return Err(CaptureFileFault::Torn(u64::from(self.number)));
        }
        let (frame, behind) = match split_record(self.order, bytes) {
            Ok(parts) => parts,
            Err(fault) => return Err(fault_at(self.number, fault)),
        };
        let seconds = self.order.read_u32(bytes);
        let fraction = self.order.read_u32(&bytes[4..]);
        let span = Span {
            time: nanoseconds_of(self.nanoseconds, seconds, fraction),
            original: self.order.read_u32(&bytes[12..]),
            start: RECORD_HEADER_LEN,
            length: frame.len(),
        };
        self.number += 1;
        Ok(Taken {
            length: bytes.len() - behind.len(),
            frame: Some(span),
        })
    }
}
