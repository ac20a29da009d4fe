//! By which field an entry doesn't admit a frame.
ghost use Rattle.std.specs.Prelude.{◌≡◌, ℕ, List};
ghost use Rattle.explain.specs.Mismatch.{mismatch, mismatch_by, inner_filter, inner_mismatch, outer_filter, outer_mismatch, tag_count, tag_mismatch};

use tag_view::Tag;
use vlan_rule::{Filter, Rule, TagFilter};

/// A field of the filter of a tag.
#[derive(Clone, Copy, PartialEq, Eq)]
pub enum TagField {
    Priority,
    Vid,
    /// The TPID, and with it the drop eligible indicator.
    Tpid,
}

/// A field of an entry by which it doesn't admit a frame.
#[derive(Clone, Copy, PartialEq, Eq)]
pub enum Mismatch {
    /// The number of tags.
    TagCount,
    /// A field of the filter of the outer tag.
    Outer(TagField),
    /// A field of the filter of the inner tag, which of one tag is that tag.
    Inner(TagField),
    /// The type behind the tags.
    Ethertype,
}

/// How many tags a filter asks for.
pub(crate) fn tag_count(filter: &Filter) -> usize
    ensures { result ≡ tag_count filter.now }
{
    match filter {
        Filter::NoTag => 0,
        Filter::OneTagDefault | Filter::OneTag(_) => 1,
        Filter::TwoTagDefault | Filter::TwoTag { .. } => 2,
    }
}

/// What a filter asks of the outer tag.
pub(crate) fn outer_filter(filter: &Filter) -> TagFilter
    ensures { result ≡ outer_filter filter.now }
{
    match filter {
        Filter::TwoTag { outer, .. } => *outer,
        _ => TagFilter::ANY,
    }
}

/// What a filter asks of the inner tag.
pub(crate) fn inner_filter(filter: &Filter) -> TagFilter
    ensures { result ≡ inner_filter filter.now }
{
    match filter {
        Filter::OneTag(inner) | Filter::TwoTag { inner, .. } => *inner,
        _ => TagFilter::ANY,
    }
}

/// The first field by which a tag isn't as a filter asks.
fn tag_mismatch(filter: &TagFilter, tag: &Tag, input_tpid: u16) -> Option<TagField>
    ensures { result ≡ tag_mismatch input_tpid filter.now tag.now }
{
    if !filter.priority.is(tag) {
        return Some(TagField::Priority);
    }
    if !filter.vid.is(tag) {
        return Some(TagField::Vid);
    }
    if !filter.tpid.is(tag, input_tpid) {
        return Some(TagField::Tpid);
    }
    None
}

/// The first field by which a rule doesn't admit a frame, of which these are the tags, outermost first, and the type behind them;
/// None where it does.
pub(crate) fn first_mismatch(
    rule: &Rule,
    tags: &[Tag],
    ethertype: u16,
    input_tpid: u16,
) -> Option<Mismatch>
    ensures value { result
        ≡ mismatch_by input_tpid tags.now ethertype rule.now.filter rule.now.ethertype }
{
    if tags.len() != tag_count(&rule.filter) {
        return Some(Mismatch::TagCount);
    }
    if let Some(field) = outer_mismatch(&rule.filter, tags, input_tpid) {
        return Some(Mismatch::Outer(field));
    }
    if let Some(field) = inner_mismatch(&rule.filter, tags, input_tpid) {
        return Some(Mismatch::Inner(field));
    }
    if !rule.ethertype.is(ethertype) {
        return Some(Mismatch::Ethertype);
    }
    None
}

/// The first field by which the outermost tag isn't as the filter of the outer tag asks.
fn outer_mismatch(filter: &Filter, tags: &[Tag], input_tpid: u16) -> Option<TagField>
    ensures { result ≡ outer_mismatch input_tpid (outer_filter filter.now) tags.now }
{
    match tags {
        [first, ..] => tag_mismatch(&outer_filter(filter), first, input_tpid),
        [] => None,
    }
}

/// The first field by which the innermost tag isn't as the filter of the inner tag asks.
fn inner_mismatch(filter: &Filter, tags: &[Tag], input_tpid: u16) -> Option<TagField>
    ensures { result ≡ inner_mismatch input_tpid (inner_filter filter.now) tags.now }
{
    match tags {
        [.., last] => tag_mismatch(&inner_filter(filter), last, input_tpid),
        [] => None,
    }
}
