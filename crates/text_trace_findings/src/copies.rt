//! Tags that an entry copies from a tag that isn't there.
use vlan_rule::{AddedTag, Entry, Filter, PrioritySource, Rule, TpidSource, Treatment, VidSource};

/// Whether an entry is for frames without tags alone, and copies a part of a tag that it adds from a received one.
pub(crate) fn copies_no_tag(entry: &Entry) -> bool {
    match Rule::read(entry) {
        Ok(rule) => matches!(rule.filter, Filter::NoTag) && adds_copy(&rule.treatment),
        Err(_) => false,
    }
}

/// Whether a treatment adds a tag with a part of a received one.
fn adds_copy(treatment: &Treatment) -> bool {
    match treatment {
        Treatment::Discard => false,
        Treatment::Retag(retag) => is_copy(retag.outer) || is_copy(retag.inner),
    }
}

/// Whether the priority, the VID or the TPID of a tag comes from a received one.
fn is_copy(added: Option<AddedTag>) -> bool {
    let Some(added) = added else {
        return false;
    };
    matches!(
        added.priority,
        PrioritySource::Inner | PrioritySource::Outer
    ) || matches!(added.vid, VidSource::Inner | VidSource::Outer)
        || matches!(added.tpid, TpidSource::Inner | TpidSource::Outer)
}
