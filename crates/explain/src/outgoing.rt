//! The tags that a frame leaves with, and where each comes from.
ghost use Rattle.std.specs.Prelude.{◌≡◌, ◌+◌, ◌≤◌, ◌++◌, IsTrue, length, map, min, option_map};
ghost use Rattle.tag_view.specs.Dscp.{dscp_of};
ghost use Rattle.vlan_rule.specs.Meaning.{addition_fits, treatment_fits};
ghost use Rattle.vlan_rule.specs.declared.treatment.Treatment.TheVariants.{Retag as retag_by};
ghost use Rattle.explain.specs.Outgoing.{added_by, kept_after, outgoing_by, retagged_by};

use arrayvec::ArrayVec;
use tag_view::{FrameView, Tag};
use treatment::added_tag;
use vlan_rule::{AddedTag, Retag, Rule, TableSettings, Treatment};

/// Where a tag that a frame leaves with comes from.
#[derive(Clone, Copy)]
pub enum TagOrigin {
    /// It is added, and its parts come from where this says.
    Added(AddedTag),
    /// It is a received tag, by its place among them, counted from 0, the outermost.
    Received(u8),
}

impl Default for TagOrigin {
    /// The outermost received tag.
    fn default() -> Self {
        TagOrigin::Received(0)
    }
}

/// A tag that a frame leaves with.
#[derive(Clone, Copy, Default)]
pub struct OutgoingTag {
    pub tag: Tag,
    pub origin: TagOrigin,
}

/// The tags that a frame leaves with by a rule, outermost first, or None where the rule discards it.
pub(crate) fn outgoing_by(
    rule: &Rule,
    settings: &TableSettings,
    frame: &FrameView,
) -> Option<ArrayVec<OutgoingTag, 4>>
    ensures { option_map (λ (tags : _). tags.items) result
        ≡ outgoing_by rule.now.treatment settings.now frame.now.tags (dscp_of frame.now.rest) }
{
    match &rule.treatment {
        Treatment::Discard => None,
        Treatment::Retag(retag) => Some(retagged(retag, settings, frame)),
    }
}

/// The tags that a frame leaves with where no table is in force: its own.
pub(crate) fn received(frame: &FrameView) -> ArrayVec<OutgoingTag, 4>
    ensures { result.items ≡ kept_after 0 frame.now.tags }
{
    let mut tags = ArrayVec::new();
    append_kept(&mut tags, frame.tags(), 0);
    tags
}

fn retagged(retag: &Retag, settings: &TableSettings, frame: &FrameView) -> ArrayVec<OutgoingTag, 4>
    requires { IsTrue (treatment_fits (retag_by retag.now)) }
    ensures { result.items
        ≡ retagged_by retag.now settings.now frame.now.tags (dscp_of frame.now.rest) }
{
    let mut tags = ArrayVec::new();
    append_added(&mut tags, &retag.outer, settings, frame);
    append_added(&mut tags, &retag.inner, settings, frame);
    append_kept(&mut tags, frame.tags(), usize::from(retag.remove));
    tags
}

/// Appends the tag that is added, if one is.
fn append_added(
    tags: &mut ArrayVec<OutgoingTag, 4>,
    added: &Option<AddedTag>,
    settings: &TableSettings,
    frame: &FrameView,
)
    requires fits { IsTrue (addition_fits added.now) }
    requires room { length tags.old.items ≤ 3 }
    ensures { tags.new.items
        ≡ tags.old.items
        ++ added_by added.now settings.now frame.now.tags (dscp_of frame.now.rest) }
{
    if let Some(added) = added {
        tags.push(OutgoingTag {
            tag: added_tag(added, settings, frame),
            origin: TagOrigin::Added(*added),
        });
    }
}

/// Appends the received tags without as many of the first as are to be removed, or as there are.
fn append_kept(tags: &mut ArrayVec<OutgoingTag, 4>, received: &[Tag], remove: usize)
    requires two { length received.now ≤ 2 }
    requires room { length tags.old.items ≤ 2 }
    ensures { tags.new.items ≡ tags.old.items ++ kept_after remove received.now }
{
    for place in remove.min(received.len())..received.len() {
        tags.push(OutgoingTag {
            tag: received[place],
            origin: TagOrigin::Received(place as u8),
        });
    }
}
