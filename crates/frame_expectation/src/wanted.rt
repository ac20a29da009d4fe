//! What is wanted of frames.
ghost use Rattle.std.specs.Prelude.{◌≡◌, ◌^◌, IsTrue, MatchOption, Some, true, false, nat_lt};
ghost use Rattle.std.specs.Option.{option_map_or};
ghost use Rattle.vlan_rule.specs.Meaning.{addition_fits, priority_fits, vid_fits};

use frame_meaning::Reason;
use vlan_rule::{AddedTag, PrioritySource, VidSource};

/// How a frame is to end.
#[derive(Clone, Copy, Debug, PartialEq, Eq)]
pub enum WantedEnding {
    /// In any way.
    Any,
    /// It leaves, through whichever GEM port.
    Leave,
    /// It is dropped, for whatever reason.
    Dropped,
    /// It is dropped, and this is the first reason. No frame that can be read is dropped as [`Reason::Runt`] or [`Reason::CutTag`].
    DroppedFor(Reason),
    /// It leaves through the GEM port of this port-ID.
    Gem(u16),
}

/// A tag that a frame is to leave with: the one that an entry of a table adds (ITU-T G.988, clause 9.3.13), but for a TPID that is named.
#[derive(Clone, Copy, Debug, PartialEq, Eq)]
pub struct WantedTag {
    /// Where the tag's fields come from.
    pub added: AddedTag,
    /// The TPID in place of the one that `added` says, or None where that counts.
    pub tpid: Option<u16>,
    pub ghost fits: { IsTrue (addition_fits (Some added)) },
    pub ghost tpid_fits: { IsTrue (option_map_or (λ number. nat_lt number (2 ^ 16)) tpid true) },
}

/// With which tags a frame is to leave, as an entry of a table changes them: so many of the received tags go, the outermost first, where
/// there are as many; in front of what is left stand the outer tag and the inner tag that are added.
#[derive(Clone, Copy, Debug, PartialEq, Eq)]
pub struct WantedRetag {
    /// How many tags go, 0 to 2.
    pub remove: u8,
    /// The tag that the frame then begins with.
    pub outer: Option<WantedTag>,
    /// The tag behind that one, before what is left of the received tags.
    pub inner: Option<WantedTag>,
}

/// With which bytes a frame is to leave. Where that isn't any, the frame has to leave.
#[derive(Clone, Copy, Debug, PartialEq, Eq)]
pub enum WantedTreatment {
    /// With any, and it may be dropped.
    Any,
    /// With the bytes that it came with.
    Unchanged,
    /// With these tags between the addresses and the rest that it came with.
    Retag(WantedRetag),
}

impl WantedTag {
    /// The tag that an entry adds, with a TPID in place of the one that it says, if one is named. None where no tag can be so: a priority
    /// over 7, or a VID over 4094.
    pub fn new(added: AddedTag, tpid: Option<u16>) -> Option<WantedTag>
        ensures { MatchOption result
            (addition_fits (Some added) ≡ false)
            (λ tag. (addition_fits (Some added) ≡ true) × (tag.added ≡ added) × (tag.tpid ≡ tpid)) }
    {
        if priority_fits(added.priority) && vid_fits(added.vid) {
            Some(WantedTag { added, tpid })
        } else {
            None
        }
    }
}

fn priority_fits(source: PrioritySource) -> bool
    ensures { result ≡ priority_fits source }
{
    match source {
        PrioritySource::Fixed(priority) => priority < 8,
        _ => true,
    }
}

fn vid_fits(source: VidSource) -> bool
    ensures { result ≡ vid_fits source }
{
    match source {
        VidSource::Fixed(vid) => vid < 4095,
        _ => true,
    }
}
