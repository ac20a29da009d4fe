//! Where one value of a priority, or of a drop eligible indicator, stands for all; and where tags change alike.
ghost use Rattle.std.specs.Prelude.{◌≡◌, true};
ghost use Rattle.frame_classes.specs.Settled.{are_added_alike, are_rows_settled, asks_nothing, copy_alike, is_any, is_dropped, is_eligible_alike, is_part_alike, is_priority_alike};

use frame_rows::{Ask, Ends, Field, Row};
use vlan_rule::{AddedTag, EligibleSource, PrioritySource, Retag};

/// Whether two rows ask nothing of a priority, or of a drop eligible indicator, and of the fields behind it, and give it to tags
/// alike, or leave no frame: whatever its value is, they see frames otherwise for all, or for none.
pub(crate) fn are_rows_settled(field: Field, one: &Row, other: &Row) -> bool
    ensures { result ≡ are_rows_settled field one.now other.now }
{
    (asks_nothing(one, field) && asks_nothing(other, field))
        && ((is_dropped(&one.ends) || is_dropped(&other.ends)) || copy_alike(field, one, other))
}

/// Whether tags change alike.
pub(crate) fn are_retagged_alike(one: &Retag, other: &Retag) -> bool
    ensures { result ≡ true → one.now ≡ other.now }
{
    one.remove == other.remove
        && (are_added_same(&one.outer, &other.outer) && are_added_same(&one.inner, &other.inner))
}

/// Whether the same tag is added, or none.
fn are_added_same(one: &Option<AddedTag>, other: &Option<AddedTag>) -> bool
    ensures { result ≡ true → one.now ≡ other.now }
{
    match (one, other) {
        (None, None) => true,
        (Some(one), Some(other)) => {
            one.priority == other.priority
                && (one.vid == other.vid
                    && (one.tpid == other.tpid && one.eligible == other.eligible))
        }
        _ => false,
    }
}

/// Whether a row asks nothing of a field and those behind it.
pub(crate) fn asks_nothing(row: &Row, field: Field) -> bool
    ensures { result ≡ asks_nothing row.now field }
{
    Field::ALL.iter().all(|later| later.place() < field.place() || is_any(&row.asks[later.place()]))
}

fn is_any(ask: &Ask) -> bool
    ensures { result ≡ is_any ask.now }
{
    match ask {
        Ask::Any => true,
        _ => false,
    }
}

/// Whether the frames of a row are dropped whatever their values are.
fn is_dropped(ends: &Ends) -> bool
    ensures { result ≡ is_dropped ends.now }
{
    match ends {
        Ends::Dropped(_) => true,
        Ends::ByPriority(_) => false,
    }
}

/// Whether two rows read as many tags, take as many off, and add tags that have the field's part from the same.
fn copy_alike(field: Field, one: &Row, other: &Row) -> bool
    ensures { result ≡ copy_alike field one.now other.now }
{
    (one.tags == other.tags && one.retag.remove == other.retag.remove)
        && (are_added_alike(field, &one.retag.outer, &other.retag.outer)
            && are_added_alike(field, &one.retag.inner, &other.retag.inner))
}

/// Whether no tag is added, or both times one that has the field's part from the same.
fn are_added_alike(field: Field, one: &Option<AddedTag>, other: &Option<AddedTag>) -> bool
    ensures { result ≡ are_added_alike field one.now other.now }
{
    match (one, other) {
        (None, None) => true,
        (Some(one), Some(other)) => is_part_alike(field, one, other),
        _ => false,
    }
}

/// Whether two tags have their priority from the same where the field is one, or else their drop eligible indicator.
fn is_part_alike(field: Field, one: &AddedTag, other: &AddedTag) -> bool
    ensures { result ≡ is_part_alike field one.now other.now }
{
    if field.place() < Field::FirstEligible.place() {
        return is_priority_alike(one.priority, other.priority);
    }
    is_eligible_alike(one.eligible, other.eligible)
}

/// Whether two priorities come from the same, which is no DSCP.
fn is_priority_alike(one: PrioritySource, other: PrioritySource) -> bool
    ensures { result ≡ is_priority_alike one other }
{
    match (one, other) {
        (PrioritySource::Fixed(one), PrioritySource::Fixed(other)) => one == other,
        (PrioritySource::Inner, PrioritySource::Inner) => true,
        (PrioritySource::Outer, PrioritySource::Outer) => true,
        _ => false,
    }
}

/// Whether two drop eligible indicators come from the same.
fn is_eligible_alike(one: EligibleSource, other: EligibleSource) -> bool
    ensures { result ≡ is_eligible_alike one other }
{
    match (one, other) {
        (EligibleSource::Inner, EligibleSource::Inner) => true,
        (EligibleSource::Outer, EligibleSource::Outer) => true,
        (EligibleSource::Clear, EligibleSource::Clear) => true,
        (EligibleSource::Set, EligibleSource::Set) => true,
        _ => false,
    }
}
