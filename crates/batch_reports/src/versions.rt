//! The versions of batches in order, by tallies that stay where they are.
ghost use Rattle.std.specs.Prelude.{◌≡◌, None, IfOk, IfErr, map};
ghost use Rattle.batch_reports.specs.declared.batch.Tally.{Tally};
ghost use Rattle.batch_reports.specs.Gathering.{AreVersionsOf, IsWhyOfTallies, misplaced};

use crate::batch::Tally;
use crate::fault::GatherFault;
use crate::gathering::in_order_with_counts;
use frame_stats::Counts;
use std::alloc::{AllocError, Global};

/// The versions of batches, with the sums of their counts.
#[derive(Drop)]
pub struct GatheredVersions {
    /// The version of batch k at place k.
    pub versions: Vec<u64>,
    /// The sums of all counts.
    pub counts: Counts,
}

/// Puts the versions of batches 0 to `count` - 1, whose tallies came in any order, in the order of their numbers, and adds their counts up.
/// The tallies stay where they are, so it takes some 30 bytes a batch, where [`gather_tallies`] takes a tally.
///
/// The faults are those of [`gather_tallies`], in the same order. [`GatherFault::NoMemory`] comes last too, where there is no memory
/// for the versions.
///
/// [`gather_tallies`]: crate::gather_tallies
pub fn gather_versions(
    alloc: Global,
    tallies: &[Tally],
    count: u32,
) -> Result<GatheredVersions, GatherFault>
    ensures gathered { IfOk result (λ gathered.
        AreVersionsOf count tallies.now gathered.versions.items gathered.counts) }
    ensures fits { IfOk result (λ gathered. misplaced (λ (t : Tally). t.batch) count tallies.now
        ≡ None) }
    ensures fault { IfErr result (IsWhyOfTallies count tallies.now) }
{
    let Ok(lent) = lend(alloc, tallies) else {
        return Err(GatherFault::NoMemory);
    };
    let (lent, counts) = match in_order_with_counts(alloc, lent, count) {
        Ok(gathered) => gathered,
        Err(fault) => return Err(fault),
    };
    let Ok(versions) = versions_of(alloc, lent.as_slice()) else {
        return Err(GatherFault::NoMemory);
    };
    Ok(GatheredVersions { versions, counts })
}

/// The tallies, lent one by one.
fn lend(alloc: Global, tallies: &[Tally]) -> Result<Vec<&Tally>, AllocError>
    ensures { IfOk result (λ lent. map (λ tally. tally.now) lent.items ≡ tallies.now) }
{
    let mut lent = Vec::with_capacity(alloc, tallies.len())?;
    for tally in tallies {
        lent.push_reserved(tally);
    }
    Ok(lent)
}

/// The versions of batches.
fn versions_of(alloc: Global, tallies: &[&Tally]) -> Result<Vec<u64>, AllocError>
    ensures { IfOk result (λ versions.
        versions.items ≡ map (λ tally. tally.now.version) tallies.now) }
{
    let mut versions = Vec::with_capacity(alloc, tallies.len())?;
    for tally in tallies {
        versions.push_reserved(tally.version);
    }
    Ok(versions)
}
