//! A capture file as slices of its bytes.
ghost use Rattle.std.specs.Prelude.{◌≡◌, IfOk, length};
ghost use Rattle.std.specs.Result.{result_err};
ghost use Rattle.capture.specs.Records.{first_fault, frames_in};

use crate::fault::CaptureFault;
use crate::frames::Frames;
use crate::header::{HEADER_LEN, read_header};
use crate::order::Order;
use crate::record::split_record;
use std::marker::Model;

/// A capture of Ethernet frames, known by them: its records were walked once, so each is whole.
#[derive(Drop)]
pub struct Pcap<'a> {
    order: Order,
    records: &'a [u8],
    count: u32,
}

impl<'a> Model for Pcap<'a> {
    ghost use Rattle.std.specs.Prelude.{◌≡◌, ◌<◌, ◌^◌, ℕ, List, None, length};
    ghost use Rattle.capture.specs.Records.{first_fault, frames_in};

    ghost Value = { List (List ℕ) };

    ghost view = { λ p. frames_in p.order p.records.now };

    ghost invariant = { λ p.
        (first_fault p.order p.records.now ≡ None)
        × (p.count ≡ length (frames_in p.order p.records.now))
        × (length (frames_in p.order p.records.now) < 2 ^ 32) };
}

/// How many records there are, or the first fault that they have.
pub(crate) fn count_records(order: Order, records: &[u8]) -> Result<u32, CaptureFault>
    ensures fault { result_err result ≡ first_fault order records.now }
    ensures count { IfOk result (λ count. count ≡ length (frames_in order records.now)) }
{
    let mut count = 0;
    let mut rest = records;
    while !rest.is_empty() {
        if count == u32::MAX {
            return Err(CaptureFault::Torn(count));
        }
        match split_record(order, rest) {
            Ok((_, behind)) => rest = behind,
            Err(fault) => return Err(fault.at(count)),
        }
        count += 1;
    }
    Ok(count)
}

impl<'a> Pcap<'a> {
    ghost use Rattle.std.specs.Prelude.{◌≡◌, ◌<◌, ◌^◌, IfOk, length};
    ghost use Rattle.capture.specs.Records.{IsCapture, capture_of};

    /// The capture that a file is, in the classic format of libpcap with times in microseconds or
    /// nanoseconds, written in either byte order; or the first fault that it has. Each record is
    /// looked at once, by its length alone.
    #[tactic(auto, unfolding(crate::specs::Records::capture_of))]
    pub fn open(file: &'a [u8]) -> Result<Pcap<'a>, CaptureFault>
        ensures value { result ≡ capture_of file.now }
        ensures records { IfOk result (λ frames. IsCapture file.now frames) }
    {
        let order = read_header(file)?;
        let (_, records) = file.split_at(HEADER_LEN);
        let count = count_records(order, records)?;
        Ok(Pcap {
            order,
            records,
            count,
        })
    }

    /// How many frames there are.
    pub fn len(&self) -> u32
        ensures { result ≡ length self.now }
    {
        self.count
    }

    /// The frames, in the order of the file. Each is a slice of it.
    pub fn frames(&self) -> Frames<'a>
        ensures all { result ≡ self.now }
        ensures few { length result < 2 ^ 32 }
    {
        Frames {
            order: self.order,
            records: self.records,
        }
    }
}
