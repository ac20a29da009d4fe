//! The parts of an added tag. Copies are of the tags that were received, before any is removed.
ghost use Rattle.std.specs.Prelude.{◌≡◌, ◌<◌, IsTrue, Some};
ghost use Rattle.tag_view.specs.Dscp.{dscp_of};
ghost use Rattle.vlan_rule.specs.Meaning.{addition_fits, priority_fits, vid_fits};
ghost use Rattle.treatment.specs.Treatment.{dscp_priority, eligible_from, inner_of, outer_of, priority_from, tag_from, tpid_from, vid_from};

use tag_view::{CUSTOMER_TPID, FrameView, MISSING_TAG, Tag};
use vlan_rule::{AddedTag, EligibleSource, PrioritySource, TableSettings, TpidSource, VidSource};

/// The tag that a treatment adds to a frame, with the settings of its table. Copies are of the tags that were received, before
/// any is removed; what a frame lacks is copied from [`MISSING_TAG`], and without a DSCP the priority that is copied from it is 0 (a
/// choice of this project).
pub fn added_tag(added: &AddedTag, settings: &TableSettings, frame: &FrameView<'_>) -> Tag
    requires { IsTrue (addition_fits (Some added.now)) }
    ensures { result ≡ tag_from added.now settings.now frame.now.tags (dscp_of frame.now.rest) }
{
    let received = frame.tags();
    Tag::new(
        tpid(added.tpid, settings, received),
        priority(added.priority, settings, frame),
        eligible(added.eligible, received),
        vid(added.vid, received),
    )
}

fn priority(source: PrioritySource, settings: &TableSettings, frame: &FrameView<'_>) -> u8
    requires { IsTrue (priority_fits source) }
    ensures value { result
        ≡ priority_from source settings.now frame.now.tags (dscp_of frame.now.rest) }
    ensures bound { result < 8 }
{
    match source {
        PrioritySource::Fixed(priority) => priority,
        PrioritySource::Inner => inner(frame.tags()).pcp(),
        PrioritySource::Outer => outer(frame.tags()).pcp(),
        PrioritySource::Dscp => dscp_priority(settings, frame),
    }
}

/// The priority that the table's mapping has for the frame's DSCP. Without one it is 0 (a choice of
/// this project).
fn dscp_priority(settings: &TableSettings, frame: &FrameView<'_>) -> u8
    ensures value { result ≡ dscp_priority settings.now.dscp_map.0 (dscp_of frame.now.rest) }
    ensures bound { result < 8 }
{
    match frame.dscp() {
        Some(dscp) => settings.dscp_map.get(dscp),
        None => 0,
    }
}

fn vid(source: VidSource, received: &[Tag]) -> u16
    requires { IsTrue (vid_fits source) }
    ensures value { result ≡ vid_from source received.now }
    ensures bound { result < 4096 }
{
    match source {
        VidSource::Fixed(vid) => vid,
        VidSource::Inner => inner(received).vid(),
        VidSource::Outer => outer(received).vid(),
    }
}

fn tpid(source: TpidSource, settings: &TableSettings, received: &[Tag]) -> u16
    ensures { result ≡ tpid_from source settings.now received.now }
{
    match source {
        TpidSource::Inner => inner(received).tpid(),
        TpidSource::Outer => outer(received).tpid(),
        TpidSource::Output => settings.output_tpid,
        TpidSource::Standard => CUSTOMER_TPID,
    }
}

fn eligible(source: EligibleSource, received: &[Tag]) -> bool
    ensures { result ≡ eligible_from source received.now }
{
    match source {
        EligibleSource::Inner => inner(received).dei(),
        EligibleSource::Outer => outer(received).dei(),
        EligibleSource::Clear => false,
        EligibleSource::Set => true,
    }
}

/// The outer tag: the first.
fn outer(received: &[Tag]) -> Tag
    ensures { result ≡ outer_of received.now }
{
    match received {
        [first, ..] => *first,
        [] => MISSING_TAG,
    }
}

/// The inner tag: the last.
fn inner(received: &[Tag]) -> Tag
    ensures { result ≡ inner_of received.now }
{
    match received {
        [.., last] => *last,
        [] => MISSING_TAG,
    }
}
