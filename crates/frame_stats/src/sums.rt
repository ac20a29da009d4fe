//! Sums of counts.
ghost use Rattle.std.specs.Prelude.{◌≡◌, ◌+◌, ◌≤◌, ◌<◌, ◌^◌, ℕ, IfOk, OnOk, IsErrOf, MatchOption, slice_index};
ghost use Rattle.frame_meaning.specs.Reason.{reason_count};
ghost use Rattle.frame_stats.specs.Figures.{AreSums, SomeSumPasses, SumsFit};

use crate::counts::Counts;
use crate::fault::CountFault;
use frame_meaning::Reason;
use std::alloc::Global;

/// The sums of both, figure by figure. It takes memory for the GEM ports that have to give up their places to others.
///
/// [`CountFault::CountFull`] where a sum passes 64 bits, which is looked at first; [`CountFault::NoMemory`] where there is no
/// memory for such a port.
pub fn counts_sum(alloc: Global, a: &Counts, b: &Counts) -> Result<Counts, CountFault>
    ensures sums { IfOk result (λ c. AreSums a.now b.now c) }
    ensures fits { OnOk result (SumsFit a.now b.now) }
    ensures full { IsErrOf result CountFault.CountFull → SomeSumPasses a.now b.now }
    ensures memory { IsErrOf result CountFault.NoMemory → SumsFit a.now b.now }
{
    let Some(frames) = a.frames.checked_add(b.frames) else {
        return Err(CountFault::CountFull);
    };
    let Some(bytes) = a.bytes.checked_add(b.bytes) else {
        return Err(CountFault::CountFull);
    };
    let Some(drops) = drops_sum(&a.drops, &b.drops) else {
        return Err(CountFault::CountFull);
    };
    if !a.ports.fit(&b.ports) {
        return Err(CountFault::CountFull);
    }
    let Ok(mut ports) = a.ports.copy(alloc) else {
        return Err(CountFault::NoMemory);
    };
    let Ok(()) = ports.add_all(&b.ports) else {
        return Err(CountFault::NoMemory);
    };
    Ok(Counts {
        frames,
        bytes,
        drops,
        ports,
    })
}

/// The sums place by place.
fn drops_sum(a: &[u64; Reason::COUNT], b: &[u64; Reason::COUNT]) -> Option<[u64; Reason::COUNT]>
    ensures { MatchOption result
        ((k : ℕ) × (k < reason_count) × (2 ^ 64 ≤ slice_index a.now k + slice_index b.now k))
        (λ s. (k : ℕ) → k < reason_count → (slice_index s k ≡ slice_index a.now k + slice_index b.now k)
        × (slice_index a.now k + slice_index b.now k < 2 ^ 64)) }
{
    let mut sums = [0; Reason::COUNT];
    for k in 0..Reason::COUNT {
        match a[k].checked_add(b[k]) {
            Some(sum) => sums[k] = sum,
            None => return None,
        }
    }
    Some(sums)
}
