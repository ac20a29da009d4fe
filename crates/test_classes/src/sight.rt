//! What is seen of one frame by several configurations, found without frames of others: by the forwarding engine, and by the plain walk.
use forward_plan::{Live, OutFrame, Verdict, plain_walk};
use std::alloc::{AllocError, Global};

/// Room for a frame as it leaves, so that its bytes grow seldom.
const ROOM: usize = 96;

/// The bytes with which a frame leaves.
pub(crate) fn bytes_of(alloc: Global, frame: &OutFrame) -> Result<Vec<u8>, AllocError> {
    let mut bytes = Vec::with_capacity(alloc, ROOM)?;
    bytes.extend_from_slice(frame.addresses())?;
    for tag in frame.tags() {
        bytes.extend_from_slice(&tag.bytes())?;
    }
    bytes.extend_from_slice(frame.rest())?;
    Ok(bytes)
}

/// Whether by two verdicts a frame leaves by one GEM port with the same bytes, or is dropped by both, for whatever reasons.
pub(crate) fn is_like(alloc: Global, one: &Verdict, other: &Verdict) -> Result<bool, AllocError> {
    match (one, other) {
        (Verdict::Drop(_), Verdict::Drop(_)) => Ok(true),
        (
            Verdict::Forward { gem, frame },
            Verdict::Forward {
                gem: other_gem,
                frame: other_frame,
            },
        ) => {
            if *gem != *other_gem {
                return Ok(false);
            }
            let bytes = bytes_of(alloc, frame)?;
            let other_bytes = bytes_of(alloc, other_frame)?;
            Ok(bytes.as_slice() == other_bytes.as_slice())
        }
        _ => Ok(false),
    }
}

/// Whether it is dropped by both for the same reason, where it is dropped by both, and else whether it leaves alike.
pub(crate) fn is_same(alloc: Global, one: &Verdict, other: &Verdict) -> Result<bool, AllocError> {
    match (one, other) {
        (Verdict::Drop(reason), Verdict::Drop(other_reason)) => {
            Ok(reason.code() == other_reason.code())
        }
        _ => is_like(alloc, one, other),
    }
}

/// Whether a frame, by what the configuration between makes of it, leaves as it does neither before nor after, or is dropped as
/// neither before nor after.
pub(crate) fn is_torn(
    alloc: Global,
    before: &Verdict,
    here: &Verdict,
    after: &Verdict,
) -> Result<bool, AllocError> {
    Ok(!is_like(alloc, here, before)? && !is_like(alloc, here, after)?)
}

/// Whether the plain walk sees a frame as the engine does.
pub(crate) fn is_walked(
    alloc: Global,
    live: &Live,
    port: u16,
    bytes: &[u8],
) -> Result<bool, AllocError> {
    let walked = plain_walk(live.mib(), port, bytes);
    is_same(alloc, &walked, &live.forward(port, bytes))
}
