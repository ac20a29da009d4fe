//! Going on, request by request, until nothing is left to do.
use crate::in_place::{left_by_attributes, left_to_do};
use migration_draft::Draft;
use omci_msg::Request;
use std::alloc::AllocError;

/// How many requests are taken at most.
const MOST_REQUESTS: u32 = 4000;

/// How far a draft came.
#[derive(Clone, Copy, PartialEq, Eq)]
pub enum Came {
    /// Nothing is left to do.
    Through,
    /// Whatever would be next is refused or torn.
    Stuck,
}

/// Takes the first of these requests that may be taken, but for those that were refused here before. What is refused is noted.
fn take_first(
    draft: &mut Draft<'_>,
    list: &[Request],
    refused: &mut Vec<Request>,
) -> Result<bool, AllocError> {
    for request in list {
        if refused.contains(request) {
            continue;
        }
        if draft.take(request)? {
            return Ok(true);
        }
        refused.push(*request)?;
    }
    Ok(false)
}

/// How much may be split.
#[derive(Clone, Copy, PartialEq, Eq)]
pub enum Splitting {
    /// What one Set may write is written at once.
    Whole,
    /// Or attribute by attribute, where it can't be.
    ByAttributes,
}

/// Takes what may be next of what is left to do, and gives whether there was something.
fn take_next(
    draft: &mut Draft<'_>,
    list: &[Request],
    splitting: Splitting,
    refused: &mut Vec<Request>,
) -> Result<bool, AllocError> {
    if take_first(draft, list, refused)? {
        return Ok(true);
    }
    if splitting == Splitting::Whole {
        return Ok(false);
    }
    let singles = left_by_attributes(draft)?;
    take_first(draft, &singles, refused)
}

/// Goes on until nothing is left to do, or nothing of what is left may be next.
pub fn finish(draft: &mut Draft<'_>, splitting: Splitting) -> Result<Came, AllocError> {
    let mut refused = Vec::new(draft.alloc);
    let mut is_new = false;
    for _ in 0..MOST_REQUESTS {
        let list = left_to_do(draft)?;
        if list.is_empty() {
            if draft.temporaries.is_empty() {
                return Ok(Came::Through);
            }
            draft.temporaries.clear();
            continue;
        }
        if take_next(draft, &list, splitting, &mut refused)? {
            is_new = true;
        } else if is_new {
            // What was refused before may be taken behind what was taken since.
            refused.clear();
            is_new = false;
        } else {
            return Ok(Came::Stuck);
        }
    }
    Ok(Came::Stuck)
}

/// Takes the first of these requests that is accepted.
fn force_first(draft: &mut Draft<'_>, list: &[Request]) -> Result<bool, AllocError> {
    for request in list {
        if draft.force(request)? {
            return Ok(true);
        }
    }
    Ok(false)
}

/// Goes on until nothing is left to do, whatever is torn on the way.
pub fn force(draft: &mut Draft<'_>) -> Result<(), AllocError> {
    for _ in 0..MOST_REQUESTS {
        let list = left_to_do(draft)?;
        if !force_first(draft, &list)? {
            break;
        }
    }
    Ok(())
}
