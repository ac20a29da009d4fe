//! The entities with their plan, and the bytes of a frame that leaves.
use crate::memory::Memory;
use crate::seen::{REFUSED_AGAIN, Seen, must, report};
use forward_plan::{Live, OutFrame, Reason, Verdict};
use omci_msg::read;
use test_draws::{PORT_257, UNTAGGED, message};

/// What stands in a vector before a frame is appended.
const BEFORE: [u8; 1] = [0xee];

/// The untagged frame as it leaves with a tag of VLAN 100, behind that.
const AFTER: [u8; 21] = [
    0xee, 2, 0, 0, 0, 0, 1, 2, 0, 0, 0, 0, 2, 0x81, 0, 0, 0x64, 0x08, 0x00, 0x45, 0x00,
];

/// What becomes of the untagged frame.
#[derive(Clone, Copy, PartialEq)]
pub(crate) enum Became {
    /// It is dropped, since its port has no mapper.
    Dropped,
    /// It leaves by GEM port 1024 as it came.
    Whole,
    /// It leaves by GEM port 1024 with a tag of VLAN 100.
    Tagged,
    /// Something else.
    Other,
}

/// What a verdict says of the untagged frame.
pub(crate) fn what_became(verdict: &Verdict<'_>) -> Became {
    match verdict {
        Verdict::Drop(Reason::NoMapper) => Became::Dropped,
        Verdict::Forward { gem: 1024, frame } => left(frame),
        _ => Became::Other,
    }
}

/// What left of the untagged frame.
fn left(frame: &OutFrame<'_>) -> Became {
    if frame.addresses() != &UNTAGGED[..12] || frame.rest() != &UNTAGGED[12..] {
        return Became::Other;
    }
    match frame.tags() {
        [] => Became::Whole,
        [tag] if tag.bytes() == [0x81, 0, 0, 0x64] => Became::Tagged,
        _ => Became::Other,
    }
}

/// Entities with their plan, made again where there was no memory.
pub(crate) fn live_of(memory: &Memory) -> Result<Live, &'static str> {
    match Live::new(memory.first()) {
        Ok(live) => Ok(live),
        Err(_) => Live::new(memory.again()).map_err(|_| REFUSED_AGAIN),
    }
}

/// Applies a message.
pub(crate) fn apply(live: &mut Live, digits: &str) {
    if let Ok(request) = read(&message(digits)) {
        live.apply(&request);
    }
}

/// Applies what makes port 257, with a table that pushes a tag.
pub(crate) fn apply_all(live: &mut Live) {
    for digits in &PORT_257 {
        apply(live, digits);
    }
}

fn new_live(live: &Live) -> Seen {
    must(live.mib().sync() == 0, "another sync than 0")?;
    let verdict = live.forward(257, &UNTAGGED);
    must(what_became(&verdict) == Became::Dropped, "another verdict")
}

/// A vector with one byte, made again where there was no memory.
fn begun(memory: &Memory) -> Result<Vec<u8>, &'static str> {
    match BEFORE.to_vec(memory.first()) {
        Ok(bytes) => Ok(bytes),
        Err(_) => BEFORE.to_vec(memory.again()).map_err(|_| REFUSED_AGAIN),
    }
}

/// Appends a frame to a vector, which is as it was where there was no memory.
fn append(memory: &Memory, frame: &OutFrame<'_>, bytes: &mut Vec<u8>) -> Seen {
    if frame.append_to(bytes).is_ok() {
        return Ok(());
    }
    must(
        bytes.as_slice() == BEFORE.as_slice(),
        "the vector was changed",
    )?;
    memory.again();
    must(frame.append_to(bytes).is_ok(), REFUSED_AGAIN)
}

fn append_to(memory: &Memory, live: &mut Live) -> Seen {
    apply_all(live);
    let mut bytes = begun(memory)?;
    let Verdict::Forward { gem: 1024, frame } = live.forward(257, &UNTAGGED) else {
        return Err("another verdict");
    };
    append(memory, &frame, &mut bytes)?;
    must(bytes.as_slice() == AFTER.as_slice(), "other bytes")
}

pub(crate) fn make_calls<R: Print>(rt: &R, memory: &Memory) {
    match live_of(memory) {
        Ok(mut live) => {
            report(rt, memory, "Live::new", new_live(&live));
            report(
                rt,
                memory,
                "OutFrame::append_to",
                append_to(memory, &mut live),
            );
        }
        Err(wrong) => report(rt, memory, "Live::new", Err(wrong)),
    }
}
