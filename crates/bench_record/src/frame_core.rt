//! What a unit leaves of a frame as it came.
ghost use Rattle.std.specs.Prelude.{◌≡◌, ◌==◌, ◌/◌, ℕ, take};
ghost use Rattle.std.specs.List.{list_any};
ghost use Rattle.bench_record.specs.Cores.{are_same, begins_tag, begins_type, behind_tags, core_of, cores_agree, cut_from, known_behind, may_begin_tag, rests_agree, without_zeros};
ghost use Rattle.bench_record.specs.Index.{core_shown, key_rest};

use crate::core_key::CoreKey;
use bench_history::Extent;
use tag_view::{CUSTOMER_TPID, SERVICE_TPID};

/// The addresses of a frame, and what stands behind its leading tags, of a front its first bytes: what a unit leaves of a frame as it came.
#[derive(Clone, Copy)]
pub struct FrameCore<'a> {
    /// Whether a wire may have padded the frame.
    pub(crate) padded: bool,
    pub(crate) extent: Extent,
    pub(crate) addresses: &'a [u8],
    pub(crate) rest: &'a [u8],
}

/// Whether a type begins a tag.
fn begins_tag(tpids: &[u16], kind: u16) -> bool
    ensures { result ≡ begins_tag tpids.now kind }
{
    kind == CUSTOMER_TPID || kind == SERVICE_TPID || tpids.contains(&kind)
}

/// What stands behind all leading tags.
fn behind_tags<'a>(tpids: &[u16], bytes: &'a [u8]) -> &'a [u8]
    ensures { result.now ≡ behind_tags tpids.now bytes.now }
{
    let mut rest = bytes;
    while let [high, low, _, _, behind @ ..] = rest {
        if !begins_tag(tpids, u16::from(*high) * 256 + u16::from(*low)) {
            break;
        }
        rest = behind;
    }
    rest
}

/// Whether a byte begins a type.
fn begins_one(kind: u16, high: u8) -> bool
    ensures { result ≡ (kind / 256 == high) }
{
    kind / 256 == u16::from(high)
}

/// Whether a byte begins one of some types.
fn begins_some(tpids: &[u16], high: u8) -> bool
    ensures { result ≡ list_any (λ (type : ℕ). type / 256 == high) tpids.now }
{
    tpids.iter().any(|kind| begins_one(*kind, high))
}

/// Whether a byte begins the type of a tag.
fn begins_type(tpids: &[u16], high: u8) -> bool
    ensures { result ≡ begins_type tpids.now high }
{
    begins_one(CUSTOMER_TPID, high) || begins_one(SERVICE_TPID, high) || begins_some(tpids, high)
}

/// Whether bytes may be the first of a tag.
fn may_begin_tag(tpids: &[u16], bytes: &[u8]) -> bool
    ensures { result ≡ may_begin_tag tpids.now bytes.now }
{
    match bytes {
        [] => true,
        [high] => begins_type(tpids, *high),
        [high, low, ..] => begins_tag(tpids, u16::from(*high) * 256 + u16::from(*low)),
    }
}

/// What is known behind the tags: nothing of a front that ends within what may be a tag.
fn known_behind<'a>(tpids: &[u16], extent: Extent, rest: &'a [u8]) -> &'a [u8]
    ensures { result.now ≡ known_behind tpids.now extent rest.now }
{
    match extent {
        Extent::Whole => rest,
        Extent::Front => {
            if may_begin_tag(tpids, rest) {
                &[]
            } else {
                rest
            }
        }
    }
}

/// Bytes without the zeros that end them.
#[tactic(auto, using(crate::proofs::Zeros::zero_dropped, crate::proofs::Zeros::others_stay))]
fn without_zeros(bytes: &[u8]) -> &[u8]
    ensures { result.now ≡ without_zeros bytes.now }
{
    let mut rest = bytes;
    while let [front @ .., last] = rest {
        if *last != 0 {
            break;
        }
        rest = front;
    }
    rest
}

/// At most so many bytes from the first on.
fn first(bytes: &[u8], most: usize) -> &[u8]
    ensures { result.now ≡ take most bytes.now }
{
    if bytes.len() <= most {
        return bytes;
    }
    bytes.split_at(most).0
}

/// Whether two whole rests are the same, but for the zeros that end them where frames may be padded.
fn are_same(padded: bool, one: &[u8], other: &[u8]) -> bool
    ensures { result ≡ are_same padded one.now other.now }
{
    if padded {
        without_zeros(one) == without_zeros(other)
    } else {
        one == other
    }
}

/// Whether a frame with a whole rest was cut to a front, behind which it goes on; by zeros too, where it may be padded.
fn cut_from(padded: bool, whole: &[u8], front: &[u8]) -> bool
    ensures { result ≡ cut_from padded whole.now front.now }
{
    if padded {
        without_zeros(first(whole, front.len())) == without_zeros(front)
    } else {
        whole.starts_with(front) && front.len() < whole.len()
    }
}

/// The core of a frame: whether all of it is known, or its first bytes. These types begin a tag too, beside those of IEEE 802.1Q. A wire may
/// have padded the frame if `padded`.
pub fn core_of<'a>(tpids: &[u16], padded: bool, extent: Extent, frame: &'a [u8]) -> FrameCore<'a>
    ensures { core_shown result ≡ core_of padded tpids.now extent frame.now }
{
    let (addresses, behind) = frame.split_at(frame.len().min(12));
    FrameCore {
        padded,
        extent,
        addresses,
        rest: known_behind(tpids, extent, behind_tags(tpids, behind)),
    }
}

impl<'a> FrameCore<'a> {
    /// Whether what is known of its rest, and of the rest of one that leaves, is the same as far as both are known.
    fn rests_agree(&self, seen: &FrameCore<'_>) -> bool
        ensures { result ≡ rests_agree self.now.padded self.now.extent seen.now.extent
            self.now.rest.now seen.now.rest.now }
    {
        match (self.extent, seen.extent) {
            (Extent::Whole, Extent::Whole) => are_same(self.padded, self.rest, seen.rest),
            (Extent::Whole, Extent::Front) => cut_from(self.padded, self.rest, seen.rest),
            (Extent::Front, Extent::Whole) => cut_from(false, seen.rest, self.rest),
            (Extent::Front, Extent::Front) => {
                self.rest.starts_with(seen.rest) || seen.rest.starts_with(self.rest)
            }
        }
    }

    /// Whether the frame, which was sent, may be one that leaves, by what is known of both.
    pub fn agrees(&self, seen: &FrameCore<'_>) -> bool
        ensures { result ≡ cores_agree (core_shown self.now) (core_shown seen.now) }
    {
        self.addresses == seen.addresses && self.rests_agree(seen)
    }

    /// What it may be found by among others, where each front has at least so many bytes behind its tags: cores that agree have the same.
    pub fn key(&self, shortest: usize) -> CoreKey<'a>
        ensures addresses { result.addresses.now ≡ self.now.addresses.now }
        ensures rest { result.rest.now ≡ key_rest shortest self.now.rest.now }
    {
        CoreKey {
            addresses: self.addresses,
            rest: without_zeros(first(self.rest, shortest)),
        }
    }
}
