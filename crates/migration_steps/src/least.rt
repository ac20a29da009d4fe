//! Requests that aren't needed, left out.
use migration_check::{Aim, is_migration};
use migration_draft::Draft;
use omci_msg::Request;
use std::alloc::AllocError;

/// The requests of a draft but for one.
fn without(
    draft: &Draft<'_>,
    requests: &[Request],
    left_out: usize,
) -> Result<Vec<Request>, AllocError> {
    let mut list = Vec::with_capacity(draft.alloc, requests.len())?;
    for (place, request) in requests.iter().enumerate() {
        if place != left_out {
            list.push(*request)?;
        }
    }
    Ok(list)
}

/// The requests of a draft, without those that aren't needed where other instances may stay: from the last on, each is left out where the others are a
/// migration too.
pub fn least_of(draft: Draft<'_>) -> Result<Vec<Request>, AllocError> {
    let mut requests = Vec::from_slice(draft.alloc, &draft.plan)?;
    if draft.sides.aim == Aim::Instances {
        return Ok(requests);
    }
    for place in (0..draft.plan.len()).rev() {
        let fewer = without(&draft, &requests, place)?;
        let sides = draft.sides;
        if is_migration(draft.alloc, sides.earlier, &fewer, &sides.wanted())? {
            requests = fewer;
        }
    }
    Ok(requests)
}
