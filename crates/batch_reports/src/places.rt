//! What has the number of a batch, in the places of the batches.
ghost use Rattle.std.specs.Prelude.{◌≡◌, ◌<◌, ◌≤◌, ◌^◌, ◌⊎◌, [], IfOk, IfErr, OnOk, Some, None, slice_set, slice_index_or, vec_len, vec_capacity, map};
ghost use Rattle.batch_reports.specs.Gathering.{AreInOrder, misplaced};
ghost use Rattle.batch_reports.specs.Places.{Fits, HasNoPlace, IsFirstFree};

use crate::fault::GatherFault;
use crate::numbered::Numbered;
use std::alloc::Global;

/// The items by ascending batch, from 0 to `count` - 1.
pub(crate) fn in_order<T: Numbered>(
    alloc: Global,
    items: Vec<T>,
    count: u32,
) -> Result<Vec<T>, GatherFault>
    ensures gathered { IfOk result (λ out. AreInOrder T.number count items.items out.items) }
    ensures fits { IfOk result (λ out. misplaced T.number count items.items ≡ None) }
    ensures misfit { IfErr result (λ fault. (fault ≡ GatherFault.NoMemory)
        ⊎ (misplaced T.number count items.items ≡ Some fault)) }
{
    let slots = empty_slots(alloc, count)?;
    let Ok(taken) = Vec::with_capacity(alloc, count as usize) else {
        return Err(GatherFault::NoMemory);
    };
    let slots = place_all(slots, items)?;
    take_all(slots, taken)
}

/// A place for each batch, all free.
fn empty_slots<T: Numbered>(alloc: Global, count: u32) -> Result<Vec<Option<T>>, GatherFault>
    ensures len { IfOk result (λ slots. vec_len slots ≡ count) }
    ensures free { IfOk result (λ slots. Fits T.number count [] slots.items) }
    ensures memory { IfErr result (λ fault. fault ≡ GatherFault.NoMemory) }
{
    let Ok(mut slots) = Vec::with_capacity(alloc, count as usize) else {
        return Err(GatherFault::NoMemory);
    };
    for k in 0..count {
        let _ = k;
        slots.push_reserved(None);
    }
    Ok(slots)
}

/// Puts each item in the place of its batch.
fn place_all<T: Numbered>(
    mut slots: Vec<Option<T>>,
    items: Vec<T>,
) -> Result<Vec<Option<T>>, GatherFault>
    requires { Fits T.number (vec_len slots) [] slots.items }
    ensures placed { IfOk result (λ filled. (given : _) × (given ≡ items.items)
        × Fits T.number (vec_len slots) given filled.items) }
    ensures misfit { IfErr result (λ fault. misplaced T.number (vec_len slots) items.items
        ≡ Some fault) }
{
    for item in items {
        if let Err(fault) = place(&mut slots, item) {
            return Err(fault);
        }
    }
    Ok(slots)
}

/// Puts an item in the place of its batch.
fn place<T: Numbered>(slots: &mut Vec<Option<T>>, item: T) -> Result<(), GatherFault>
    ensures free { OnOk result ((T.number item < vec_len slots.old)
        × (slice_index_or slots.old.items (T.number item) None ≡ None)) }
    ensures placed { OnOk result (slots.new.items
        ≡ slice_set slots.old.items (T.number item) (Some item)) }
    ensures misfit { IfErr result (HasNoPlace (T.number item) slots.old.items) }
{
    let batch = item.batch();
    let at = batch as usize;
    if at >= slots.len() {
        return Err(GatherFault::Stranger(batch));
    }
    if slots[at].is_some() {
        return Err(GatherFault::Double(batch));
    }
    slots[at] = Some(item);
    Ok(())
}

/// The items of all places, if none is free.
fn take_all<T: Numbered>(slots: Vec<Option<T>>, mut taken: Vec<T>) -> Result<Vec<T>, GatherFault>
    requires { (vec_len taken ≡ 0) × (vec_len slots ≤ vec_capacity taken)
        × (vec_len slots < 2 ^ 32) }
    ensures all { IfOk result (λ out. map Some out.items ≡ slots.items) }
    ensures free { IfErr result (IsFirstFree slots.items) }
{
    let mut next = 0u32;
    for slot in slots {
        let Some(item) = slot else {
            return Err(GatherFault::Missing(next));
        };
        taken.push_reserved(item);
        next += 1;
    }
    Ok(taken)
}
