//! The frames of a capture in pieces, cut in order into batches.

use crate::cutting::{cut_records, list_first};
use crate::records::Records;
use capture::{ListFault, Order};
use std::alloc::{AllocError, Global};
use std::marker::Model;

/// The frames of a capture in pieces, cut in order into batches of a size: the last may be shorter. Only where each batch begins is
/// kept, some 32 bytes.
#[derive(Drop)]
pub struct Batches<'a> {
    order: Order,
    size: u32,
    all: Records<'a>,
    // Those from the first of each batch on.
    starts: Vec<Records<'a>>,
    count: usize,
}

impl<'a> Model for Batches<'a> {
    ghost use Rattle.capture.specs.Records.{frames_in};
    ghost use Rattle.capture_pieces.specs.Cut.{Cut};
    ghost use Rattle.capture_pieces.specs.Walk.{IsCut};

    ghost Value = { Cut };

    ghost view = { λ b. record {
      frames = frames_in b.order b.all;
      size = b.size;
    } };

    ghost invariant = { λ b. IsCut b.order b.size b.all b.starts.items b.count };
}

impl<'a> Batches<'a> {
    ghost use Rattle.std.specs.Prelude.{◌≡◌, ◌<◌, ◌^◌, IfErr, IfOk, length, map};
    ghost use Rattle.capture.specs.Listed.{IsWhyNoFrames};
    ghost use Rattle.capture.specs.Records.{first_fault, frames_in};
    ghost use Rattle.capture_pieces.specs.Cut.{batch_of};

    /// Records cut into batches. Their fault is told before want of memory.
    pub(crate) fn cut(
        alloc: Global,
        order: Order,
        all: Records<'a>,
        size: u32,
    ) -> Result<Batches<'a>, ListFault>
        requires { 0 < size }
        ensures whole { IfOk result (λ _. first_fault order all.entry ≡ None) }
        ensures cut { IfOk result (λ batches. batches ≡ record {
          frames = frames_in order all.entry;
          size = size;
        }) }
        ensures fault { IfErr result (IsWhyNoFrames order all.entry) }
    {
        let (starts, count) = match cut_records(alloc, order, &all, size) {
            Ok(cut) => cut,
            Err(fault) => return Err(fault),
        };
        Ok(Batches {
            order,
            size,
            all,
            starts,
            count,
        })
    }

    /// How many frames there are.
    pub fn frame_count(&self) -> usize
        ensures count { result ≡ length self.now.frames }
        ensures few { result < 2 ^ 32 }
    {
        self.count
    }

    /// The frames of the batch of this number, from 0, in order, each as a slice of a piece. Behind the last batch there are none.
    pub fn frames_of(&self, alloc: Global, batch: u32) -> Result<Vec<&'a [u8]>, AllocError>
        ensures { IfOk result (λ list.
            map (λ frame. frame.now) list.items ≡ batch_of self.now.size batch self.now.frames) }
    {
        let Some(start) = self.starts.get(batch as usize) else {
            return Ok(Vec::new(alloc));
        };
        let size = self.size as usize;
        list_first(alloc, self.order, start, size, size.min(self.count))
    }
}
