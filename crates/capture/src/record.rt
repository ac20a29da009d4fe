//! One record of a capture.
ghost use Rattle.std.specs.Prelude.{◌≡◌, ◌<◌, IfOk, length};
ghost use Rattle.std.specs.Result.{result_err};
ghost use Rattle.capture.specs.Records.{behind_first, first_frame, record_fault};

use crate::fault::CaptureFault;
use crate::limits::STORED_LIMIT;
use crate::order::Order;

/// How many bytes stand before the stored ones: seconds, their fraction, how many bytes are
/// stored, how many the frame had.
const RECORD_HEADER_LEN: usize = 16;

/// Why there is no whole record.
#[derive(Clone, Copy, Debug)]
pub enum RecordFault {
    /// The bytes end within it.
    Torn,
    /// It stores more bytes than a record may.
    TooLong,
}

impl RecordFault {
    ghost use Rattle.capture.specs.Records.{at_record};

    /// The fault of a capture that has it at the record of this number.
    pub fn at(self, number: u32) -> CaptureFault
        ensures { result ≡ at_record number self }
    {
        match self {
            RecordFault::Torn => CaptureFault::Torn(number),
            RecordFault::TooLong => CaptureFault::TooLong(number),
        }
    }
}

/// The frame that the first record stores, and what stands behind the record.
#[inline]
pub fn split_record(order: Order, bytes: &[u8]) -> Result<(&[u8], &[u8]), RecordFault>
    ensures fault { result_err result ≡ record_fault order bytes.now }
    ensures frame { IfOk result (λ parts. parts.0.now ≡ first_frame order bytes.now) }
    ensures behind { IfOk result (λ parts. parts.1.now ≡ behind_first order bytes.now) }
    ensures shorter { IfOk result (λ parts. length parts.1.now < length bytes.now) }
{
    if bytes.len() < RECORD_HEADER_LEN {
        return Err(RecordFault::Torn);
    }
    let stored = order.read_u32(&bytes[8..]);
    if stored > STORED_LIMIT {
        return Err(RecordFault::TooLong);
    }
    let stored = stored as usize;
    let behind = &bytes[RECORD_HEADER_LEN..];
    if behind.len() < stored {
        return Err(RecordFault::Torn);
    }
    Ok(behind.split_at(stored))
}
