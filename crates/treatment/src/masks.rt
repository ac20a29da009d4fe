//! The four parts of a mix as tags: what is fixed of an added tag, and all ones where a field is copied.
ghost use Rattle.std.specs.Prelude.{◌≡◌, ◌<◌, IsTrue, Some, if◌then◌else◌};
ghost use Rattle.vlan_rule.specs.Meaning.{addition_fits, priority_fits, vid_fits};
ghost use Rattle.treatment.specs.Mix.{dscp_mask, fixed_part, fixed_priority, fixed_tpid, fixed_vid, inner_mask, outer_mask};

use tag_view::{CUSTOMER_TPID, Tag};
use vlan_rule::{AddedTag, EligibleSource, PrioritySource, TableSettings, TpidSource, VidSource};

/// What is fixed, and zeros where a field is copied.
pub(crate) fn fixed(added: &AddedTag, settings: &TableSettings) -> Tag
    requires { IsTrue (addition_fits (Some added.now)) }
    ensures { result ≡ fixed_part settings.now added.now }
{
    Tag::new(
        tpid(added.tpid, settings),
        priority(added.priority),
        added.eligible == EligibleSource::Set,
        vid(added.vid),
    )
}

fn tpid(source: TpidSource, settings: &TableSettings) -> u16
    ensures { result ≡ fixed_tpid settings.now source }
{
    match source {
        TpidSource::Output => settings.output_tpid,
        TpidSource::Standard => CUSTOMER_TPID,
        TpidSource::Inner | TpidSource::Outer => 0,
    }
}

fn priority(source: PrioritySource) -> u8
    requires { IsTrue (priority_fits source) }
    ensures value { result ≡ fixed_priority source }
    ensures bound { result < 8 }
{
    match source {
        PrioritySource::Fixed(priority) => priority,
        PrioritySource::Inner | PrioritySource::Outer | PrioritySource::Dscp => 0,
    }
}

fn vid(source: VidSource) -> u16
    requires { IsTrue (vid_fits source) }
    ensures value { result ≡ fixed_vid source }
    ensures bound { result < 4096 }
{
    match source {
        VidSource::Fixed(vid) => vid,
        VidSource::Inner | VidSource::Outer => 0,
    }
}

/// All ones where a field is that of the outer tag.
pub(crate) fn of_outer(added: &AddedTag) -> Tag
    ensures { result ≡ outer_mask added.now }
{
    Tag::new(
        all_of_tpid(added.tpid == TpidSource::Outer),
        all_of_priority(added.priority == PrioritySource::Outer),
        added.eligible == EligibleSource::Outer,
        all_of_vid(added.vid == VidSource::Outer),
    )
}

/// All ones where a field is that of the inner tag.
pub(crate) fn of_inner(added: &AddedTag) -> Tag
    ensures { result ≡ inner_mask added.now }
{
    Tag::new(
        all_of_tpid(added.tpid == TpidSource::Inner),
        all_of_priority(added.priority == PrioritySource::Inner),
        added.eligible == EligibleSource::Inner,
        all_of_vid(added.vid == VidSource::Inner),
    )
}

/// All ones where the priority is that of the DSCP.
pub(crate) fn of_dscp(added: &AddedTag) -> Tag
    ensures { result ≡ dscp_mask added.now }
{
    Tag::new(
        0,
        all_of_priority(added.priority == PrioritySource::Dscp),
        false,
        0,
    )
}

/// All ones of a field, or none of them.
fn all_of_tpid(all: bool) -> u16
    ensures { result ≡ (if all then 0xffff else 0) }
{
    if all { 0xffff } else { 0 }
}

fn all_of_priority(all: bool) -> u8
    ensures { result ≡ (if all then 7 else 0) }
{
    if all { 7 } else { 0 }
}

fn all_of_vid(all: bool) -> u16
    ensures { result ≡ (if all then 0xfff else 0) }
{
    if all { 0xfff } else { 0 }
}
