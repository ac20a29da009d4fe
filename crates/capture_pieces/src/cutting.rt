//! The walk over the records of pieces, and where the batches among them begin.
ghost use Rattle.std.specs.Prelude.{◌≡◌, ◌≤◌, ◌<◌, ℕ, List, Some, IfErr, IfOk, MatchResult, map, take};
ghost use Rattle.capture.specs.Listed.{IsWhyNoFrames};
ghost use Rattle.capture.specs.Records.{first_fault, frames_in};
ghost use Rattle.capture_pieces.specs.Walk.{fault_at, IsCut, Passed};

use crate::records::Records;
use capture::{CaptureFault, ListFault, Order};
use std::alloc::{AllocError, Global};

/// Passes the records of the numbers `first` to `end` - 1, or as many as there are, and gives the number of the next.
fn pass_records(
    order: Order,
    records: &mut Records<'_>,
    first: usize,
    end: usize,
) -> Result<usize, CaptureFault>
    requires few { first ≤ 4294967295 }
    requires ordered { first ≤ end }
    ensures { MatchResult result
        (λ next. Passed order first end records.old next records.new)
        (λ fault. fault_at order first records.old ≡ Some fault) }
{
    let mut next = first;
    while next < end {
        if records.is_empty() {
            return Ok(next);
        }
        if next >= u32::MAX as usize {
            return Err(CaptureFault::Torn(u32::MAX));
        }
        match records.pass(order) {
            Ok(_) => next += 1,
            Err(fault) => return Err(fault.at(next as u32)),
        }
    }
    Ok(next)
}

/// Why records aren't cut where there is no memory: their fault, if those that are left have one.
#[cold]
#[inline(never)]
fn without_memory(order: Order, records: &mut Records<'_>, first: usize) -> ListFault
    requires few { first ≤ 4294967295 }
    ensures { (all : List ℕ) → fault_at order first records.old ≡ first_fault order all
        → IsWhyNoFrames order all result }
{
    match pass_records(order, records, first, usize::MAX) {
        Ok(_) => ListFault::NoMemory,
        Err(fault) => ListFault::Capture(fault),
    }
}

/// Where the batches of a size begin, and how many records there are.
pub(crate) fn cut_records<'a>(
    alloc: Global,
    order: Order,
    all: &Records<'a>,
    size: u32,
) -> Result<(Vec<Records<'a>>, usize), ListFault>
    requires { 0 < size }
    ensures cut { IfOk result (λ cut. IsCut order size all.now cut.0.items cut.1) }
    ensures fault { IfErr result (IsWhyNoFrames order all.now) }
{
    let mut starts = Vec::new(alloc);
    let mut records = all.again();
    let mut count = 0;
    while !records.is_empty() {
        let Ok(()) = starts.push(records.again()) else {
            return Err(without_memory(order, &mut records, count));
        };
        match pass_records(order, &mut records, count, count + size as usize) {
            Ok(next) => count = next,
            Err(fault) => return Err(ListFault::Capture(fault)),
        }
    }
    Ok((starts, count))
}

/// The frames of the first records, so many at most. Room is made for some of them at once.
pub(crate) fn list_first<'a>(
    alloc: Global,
    order: Order,
    all: &Records<'a>,
    most: usize,
    room: usize,
) -> Result<Vec<&'a [u8]>, AllocError>
    ensures { IfOk result (λ list.
        map (λ frame. frame.now) list.items ≡ take most (frames_in order all.now)) }
{
    let mut list = Vec::with_capacity(alloc, room)?;
    let mut records = all.again();
    while list.len() < most {
        match records.pass(order) {
            Ok(frame) => list.push(frame)?,
            Err(_) => return Ok(list),
        }
    }
    Ok(list)
}
