//! Captures of frames that left from which a network card may have taken the tags.
use bench_record::{Capture, CapturedFrame};
use std::alloc::{AllocError, Global};
use tag_view::{CUSTOMER_TPID, SERVICE_TPID};

/// How many bytes of a frame stand in front of its first type.
const ADDRESSES_LEN: usize = 12;

/// Whether a frame has a tag: one of IEEE 802.1Q, or one of these types.
pub(crate) fn has_tag(tpids: &[u16], frame: &[u8]) -> bool {
    match frame.get(ADDRESSES_LEN..) {
        Some([high, low, ..]) => {
            let kind = u16::from_be_bytes([*high, *low]);
            kind == CUSTOMER_TPID || kind == SERVICE_TPID || tpids.contains(&kind)
        }
        _ => false,
    }
}

/// Whether none of some frames has a tag.
fn have_none(tpids: &[u16], frames: &[CapturedFrame<'_>]) -> bool {
    !frames.iter().any(|frame| has_tag(tpids, frame.bytes))
}

/// The captures, by their numbers, of which no frame has a tag, though one left there that was sent with a tag.
pub(crate) fn without_tags(
    alloc: Global,
    captures: &[Capture<'_>],
    tpids: &[u16],
    left_tagged: &[bool],
) -> Result<Vec<usize>, AllocError> {
    let mut without = Vec::new(alloc);
    for (number, capture) in captures.iter().enumerate() {
        if left_tagged.get(number) == Some(&true) && have_none(tpids, capture.frames) {
            without.push(number)?;
        }
    }
    Ok(without)
}
