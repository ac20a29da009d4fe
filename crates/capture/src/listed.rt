//! The frames of a capture file in a list.
ghost use Rattle.std.specs.Prelude.{◌≡◌, ◌<◌, ◌^◌, None, Ok, IfOk, IfErr, map, vec_len};
ghost use Rattle.capture.specs.Listed.{IsWhyNoFrames, IsWhyNoList};
ghost use Rattle.capture.specs.Records.{capture_of, first_fault, frames_in};

use crate::fault::CaptureFault;
use crate::header::{HEADER_LEN, read_header};
use crate::order::Order;
use crate::pcap::count_records;
use crate::record::split_record;
use std::alloc::Global;
use thiserror::Error;

/// How long a record is taken to be at least, as room for the list is made. For shorter ones it grows on the way.
const USUAL_RECORD: usize = 64;

/// Why the frames of a file aren't listed.
#[derive(Clone, Copy, Debug, PartialEq, Eq, Error)]
pub enum ListFault {
    /// The file has this fault.
    #[error("{0}")]
    Capture(CaptureFault),
    /// The file has no fault, but there is no memory for the list.
    #[error("no memory for the list of frames")]
    NoMemory,
}

/// The frames of a capture file, in its order, each as a slice of it. The records are walked once, as by [`Pcap::open`]; but where
/// memory is refused they are walked again, so that a fault of the file is told before want of memory.
///
/// [`Pcap::open`]: crate::Pcap::open
#[tactic(auto, unfolding(crate::specs::Records::capture_of))]
pub fn list_frames<'a>(alloc: Global, file: &'a [u8]) -> Result<Vec<&'a [u8]>, ListFault>
    ensures frames { IfOk result (λ list.
        capture_of file.now ≡ Ok (map (λ frame. frame.now) list.items)) }
    ensures few { IfOk result (λ list. vec_len list < 2 ^ 32) }
    ensures fault { IfErr result (IsWhyNoList file.now) }
{
    let order = match read_header(file) {
        Ok(order) => order,
        Err(fault) => return Err(ListFault::Capture(fault)),
    };
    let (_, records) = file.split_at(HEADER_LEN);
    match list_records(alloc, order, records) {
        Ok(list) => Ok(list),
        Err(fault) => Err(fault),
    }
}

/// The frames of records.
fn list_records<'a>(
    alloc: Global,
    order: Order,
    records: &'a [u8],
) -> Result<Vec<&'a [u8]>, ListFault>
    ensures whole { IfOk result (λ list. first_fault order records.now ≡ None) }
    ensures frames { IfOk result (λ list.
        map (λ frame. frame.now) list.items ≡ frames_in order records.now) }
    ensures few { IfOk result (λ list. vec_len list < 2 ^ 32) }
    ensures fault { IfErr result (IsWhyNoFrames order records.now) }
{
    let Ok(mut list) = Vec::with_capacity(alloc, records.len() / USUAL_RECORD) else {
        return Err(without_memory(order, records));
    };
    let mut rest = records;
    while !rest.is_empty() {
        let count = list.len();
        if count >= u32::MAX as usize {
            return Err(ListFault::Capture(CaptureFault::Torn(u32::MAX)));
        }
        match split_record(order, rest) {
            Ok((frame, behind)) => {
                let Ok(()) = list.push(frame) else {
                    return Err(without_memory(order, records));
                };
                rest = behind;
            }
            Err(fault) => return Err(ListFault::Capture(fault.at(count as u32))),
        }
    }
    Ok(list)
}

/// Why records aren't listed where there is no memory: their fault, if they have one.
#[cold]
#[inline(never)]
fn without_memory(order: Order, records: &[u8]) -> ListFault
    ensures { IsWhyNoFrames order records.now result }
{
    match count_records(order, records) {
        Ok(_) => ListFault::NoMemory,
        Err(fault) => ListFault::Capture(fault),
    }
}
