//! The counts of all lanes.
ghost use Rattle.frame_stats.specs.Books.{IsTotalOf, Fits};

use crate::counts::Counts;
use crate::fault::StatFault;
use crate::sums::counts_sum;
use std::alloc::Global;

/// Counts for each lane, and their total. Its type keeps that the total is the sum of the parts, figure by figure and port by
/// port.
#[derive(Drop)]
pub struct StatBook {
    alloc: Global,
    parts: Vec<Counts>,
    total: Counts,
    ghost sums: { IsTotalOf parts.items total },
    ghost fits: { Fits total },
}

impl StatBook {
    ghost use Rattle.std.specs.Prelude.{◌≡◌, ◌<◌, ◌≤◌, ◌↔◌, IfOk, OnOk, OnErr, IsErrOf, slice_get, All};
    ghost use Rattle.std.specs.Option.{option_copied};
    ghost use Rattle.frame_stats.specs.Books.{IsZero, IsMore, AddsTo, MayHave};
    ghost use Rattle.frame_stats.specs.Figures.{SomeSumPasses, AllSumsFit};
    ghost use Rattle.frame_stats.specs.Lanes.{lanes_of, parts_of, total_of};

    /// A book of lanes 0 to `lanes` - 1, in which nothing is counted. It takes memory for a part each.
    ///
    /// [`StatFault::Lane`] where there aren't 1 to 16 lanes, [`StatFault::NoMemory`] where there is no memory for the parts.
    pub fn new(alloc: Global, lanes: u16) -> Result<StatBook, StatFault>
        ensures lanes { IfOk result (λ book. lanes_of book ≡ lanes) }
        ensures parts { IfOk result (λ book. All IsZero (parts_of book)) }
        ensures total { IfOk result (λ book. IsZero (total_of book)) }
        ensures may_have { OnOk result (MayHave lanes) }
        ensures lane { IsErrOf result StatFault.Lane ↔ (¬ (MayHave lanes)) }
        ensures full { ¬ (IsErrOf result StatFault.CountFull) }
    {
        if lanes < 1 || lanes > 16 {
            return Err(StatFault::Lane);
        }
        let Ok(mut parts) = Vec::with_capacity(alloc, usize::from(lanes)) else {
            return Err(StatFault::NoMemory);
        };
        for _lane in 0..lanes {
            parts.push_reserved(Counts::zero(alloc));
        }
        Ok(StatBook {
            alloc,
            parts,
            total: Counts::zero(alloc),
        })
    }

    /// The total of all lanes.
    pub fn total(&self) -> &Counts
        ensures value { result.now ≡ total_of self.now }
        ensures sum { IsTotalOf (parts_of self.now) result.now }
    {
        &self.total
    }

    /// What was added to a lane; None where the book has no such lane.
    pub fn part(&self, lane: u16) -> Option<&Counts>
        ensures { option_copied result ≡ slice_get (parts_of self.now) lane }
    {
        self.parts.get(usize::from(lane))
    }

    /// Adds counts to a lane's part and to the total, or changes nothing. Both are made aside, in memory of their own.
    ///
    /// [`StatFault::Lane`] where the book has no such lane, then [`StatFault::CountFull`] where a sum of the total passes 64 bits,
    /// then [`StatFault::NoMemory`].
    pub fn add(&mut self, lane: u16, counts: &Counts) -> Result<(), StatFault>
        ensures total { OnOk result (IsMore (total_of self.old) counts.now (total_of self.new)) }
        ensures parts { OnOk result
            (AddsTo lane counts.now (parts_of self.old) (parts_of self.new)) }
        ensures unchanged { OnErr result (self.new ≡ self.old) }
        ensures lane { IsErrOf result StatFault.Lane ↔ (lanes_of self.old ≤ lane) }
        ensures full { IsErrOf result StatFault.CountFull
            ↔ ((lane < lanes_of self.old) × SomeSumPasses (total_of self.old) counts.now) }
        ensures memory { IsErrOf result StatFault.NoMemory
            → (lane < lanes_of self.old) × AllSumsFit (total_of self.old) counts.now }
    {
        let at = usize::from(lane);
        if at >= self.parts.len() {
            return Err(StatFault::Lane);
        }
        let total = counts_sum(self.alloc, &self.total, counts)?;
        let part = counts_sum(self.alloc, &self.parts[at], counts)?;
        self.parts[at] = part;
        self.total = total;
        Ok(())
    }
}
