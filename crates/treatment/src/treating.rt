//! A rule's treatment of a frame.
ghost use Rattle.std.specs.Prelude.{◌≡◌, ◌≤◌, ◌+◌, List, ℕ, IfSome, IsTrue, length, Some};
ghost use Rattle.tag_view.specs.Dscp.{dscp_of};
ghost use Rattle.vlan_rule.specs.Meaning.{treatment_fits};
ghost use Rattle.vlan_rule.specs.Rule.{IsRuleOf};
ghost use Rattle.vlan_rule.specs.declared.treatment.Treatment.TheVariants.{Retag as retag_by};
ghost use Rattle.treatment.specs.Treated.{shown};
ghost use Rattle.treatment.specs.Treatment.{additions_from, treated, treated_by};

use crate::copy::added_tag;
use crate::treated::Treated;
use arrayvec::ArrayVec;
use tag_view::{FrameView, Tag};
use vlan_rule::{Retag, Rule, TableSettings, Treatment};

/// What becomes of a frame by a rule, with the settings of the rule's table (G.988, 9.3.13). Received
/// tags are removed from the outermost on; where more are to be removed than there are, all go (a
/// choice of this project). What is left of them stands behind the added tags.
pub fn treat(rule: &Rule, settings: &TableSettings, frame: &FrameView<'_>) -> Treated
    ensures value { shown result
        ≡ treated_by rule.now.treatment settings.now frame.now.tags (dscp_of frame.now.rest) }
    ensures of_entry { (entry : List ℕ) → IsRuleOf entry rule.now
        → shown result ≡ treated entry settings.now frame.now.tags (dscp_of frame.now.rest) }
    ensures two_more { IfSome (shown result) (λ tags. length tags ≤ length frame.now.tags + 2) }
    ensures four { IfSome (shown result) (λ tags. length tags ≤ 4) }
{
    match &rule.treatment {
        Treatment::Discard => Treated::Discard,
        Treatment::Retag(retag) => Treated::Tags(retagged(retag, settings, frame)),
    }
}

/// The tags that a frame leaves with.
fn retagged(retag: &Retag, settings: &TableSettings, frame: &FrameView<'_>) -> ArrayVec<Tag, 4>
    requires { IsTrue (treatment_fits (retag_by retag.now)) }
    ensures value { Some result.items
        ≡ treated_by (retag_by retag.now) settings.now frame.now.tags (dscp_of frame.now.rest) }
    ensures two_more { length result.items ≤ length frame.now.tags + 2 }
{
    let mut tags = added(retag, settings, frame);
    let received = frame.tags();
    let (_, left) = received.split_at(usize::from(retag.remove).min(received.len()));
    for tag in left {
        tags.push(*tag);
    }
    tags
}

/// The tags that are added, the outer one first.
fn added(retag: &Retag, settings: &TableSettings, frame: &FrameView<'_>) -> ArrayVec<Tag, 4>
    requires { IsTrue (treatment_fits (retag_by retag.now)) }
    ensures items { result.items
        ≡ additions_from retag.now settings.now frame.now.tags (dscp_of frame.now.rest) }
    ensures two { length result.items ≤ 2 }
{
    let mut tags = ArrayVec::new();
    if let Some(outer) = &retag.outer {
        tags.push(added_tag(outer, settings, frame));
    }
    if let Some(inner) = &retag.inner {
        tags.push(added_tag(inner, settings, frame));
    }
    tags
}
