//! Reports gathered, or their tallies, with the totals of all.
ghost use Rattle.std.specs.Prelude.{◌≡◌, None, IfOk, IfErr, IsErrOf};
ghost use Rattle.std.specs.List.{sum_by};
ghost use Rattle.frame_stats.specs.Figures.{Figure, counted, AreCountsOf};
ghost use Rattle.batch_reports.specs.declared.batch.Tally.{Tally};
ghost use Rattle.batch_reports.specs.Gathering.{AreInOrder, IsGathered, IsWhy, IsWhyNot, IsWhyOfTallies, SumPasses, misfit, misplaced, verdicts_of};

use crate::batch::{Report, Tally};
use crate::fault::GatherFault;
use crate::numbered::Numbered;
use crate::places::in_order;
use frame_stats::{CountFault, Counts, counts_sum};
use std::alloc::Global;

/// Reports by ascending batch, with the counts of all their verdicts.
#[derive(Drop)]
pub struct Gathered<'a> {
    /// The report of batch k at place k.
    pub reports: Vec<Report<'a>>,
    /// The counts of all verdicts.
    pub counts: Counts,
}

/// Tallies by ascending batch, with the sums of their counts.
#[derive(Drop)]
pub struct GatheredTallies {
    /// The tally of batch k at place k.
    pub tallies: Vec<Tally>,
    /// The sums of their counts.
    pub counts: Counts,
}

/// Puts the reports of batches 0 to `count` - 1, which came in any order, in the order of their numbers, and adds their counts up.
///
/// [`GatherFault::NoMemory`] where there is no room for them in order. Then, for each report as it stands in the list,
/// [`GatherFault::Stranger`] where its number is at least `count`, and [`GatherFault::Double`] where an earlier one had it. Then
/// [`GatherFault::Missing`] with the least number that no report has. Then the counts are added by ascending batch, where
/// [`GatherFault::CountFull`] comes where a sum passes 64 bits, and before [`GatherFault::NoMemory`], where there is none for the
/// count of a GEM port. On a refusal the reports are dropped.
pub fn gather<'a>(
    alloc: Global,
    reports: Vec<Report<'a>>,
    count: u32,
) -> Result<Gathered<'a>, GatherFault>
    ensures reports { IfOk result (λ gathered.
        IsGathered count reports.entry.items gathered.reports.items) }
    ensures counts { IfOk result (λ gathered.
        AreCountsOf (verdicts_of gathered.reports.items) gathered.counts) }
    ensures fits { IfOk result (λ gathered. misfit count reports.entry.items ≡ None) }
    ensures fault { IfErr result (IsWhy count reports.entry.items) }
{
    match in_order_with_counts(alloc, reports, count) {
        Ok((reports, counts)) => Ok(Gathered { reports, counts }),
        Err(fault) => Err(fault),
    }
}

/// Puts the tallies of batches 0 to `count` - 1, which came in any order, in the order of their numbers, and adds their counts up.
/// It is [`gather`] where the verdicts aren't kept, and has its faults, in the same order: [`GatherFault::NoMemory`],
/// [`GatherFault::Stranger`] and [`GatherFault::Double`], [`GatherFault::Missing`], and last [`GatherFault::CountFull`] and
/// [`GatherFault::NoMemory`] for the counts. On a refusal the tallies are dropped.
pub fn gather_tallies(
    alloc: Global,
    tallies: Vec<Tally>,
    count: u32,
) -> Result<GatheredTallies, GatherFault>
    ensures tallies { IfOk result (λ gathered.
        AreInOrder (λ (t : Tally). t.batch) count tallies.items gathered.tallies.items) }
    ensures counts { IfOk result (λ gathered. (f : Figure)
        → counted gathered.counts f ≡ sum_by (λ t. counted t.counts f) gathered.tallies.items) }
    ensures fits { IfOk result (λ gathered. misplaced (λ (t : Tally). t.batch) count tallies.items
        ≡ None) }
    ensures fault { IfErr result (IsWhyOfTallies count tallies.items) }
{
    match in_order_with_counts(alloc, tallies, count) {
        Ok((tallies, counts)) => Ok(GatheredTallies { tallies, counts }),
        Err(fault) => Err(fault),
    }
}

/// The items by ascending batch, with the sums of their counts.
pub(crate) fn in_order_with_counts<T: Numbered>(
    alloc: Global,
    items: Vec<T>,
    count: u32,
) -> Result<(Vec<T>, Counts), GatherFault>
    ensures gathered { IfOk result (λ all. AreInOrder T.number count items.items all.0.items) }
    ensures counts { IfOk result (λ all. (f : Figure)
        → counted all.1 f ≡ sum_by (λ x. counted (T.counts_of x) f) all.0.items) }
    ensures fits { IfOk result (λ all. misplaced T.number count items.items ≡ None) }
    ensures fault { IfErr result (IsWhyNot T.number (SumPasses T.counts_of) count items.items) }
{
    let items = match in_order(alloc, items, count) {
        Ok(items) => items,
        Err(fault) => return Err(fault),
    };
    match total_of(alloc, items.as_slice()) {
        Ok(counts) => Ok((items, counts)),
        Err(CountFault::CountFull) => Err(GatherFault::CountFull),
        Err(CountFault::NoMemory) => Err(GatherFault::NoMemory),
    }
}

/// The sums of the items' counts.
fn total_of<T: Numbered>(alloc: Global, items: &[T]) -> Result<Counts, CountFault>
    ensures counts { IfOk result (λ c. (f : Figure)
        → counted c f ≡ sum_by (λ x. counted (T.counts_of x) f) items.now) }
    ensures full { IsErrOf result CountFault.CountFull → SumPasses T.counts_of items.now }
{
    let mut total = Counts::zero(alloc);
    for item in items {
        total = match counts_sum(alloc, &total, item.counts()) {
            Ok(sum) => sum,
            Err(fault) => return Err(fault),
        };
    }
    Ok(total)
}
