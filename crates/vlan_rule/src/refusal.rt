//! Why an entry is refused.
ghost use Rattle.std.specs.Prelude.{◌≡◌};
ghost use Rattle.std.specs.List.{list_any};
ghost use Rattle.vlan_rule.specs.Entry.{additions_of, adds_bad_priority, adds_bad_tpid, adds_bad_vid, bad_priorities, filter_refusal, filters_of, has_bad_tpid, has_bad_vid, refusal_of, treatment_refusal};

use crate::entry::Entry;
use crate::fault::RuleFault;
use crate::kind::Kind;
use crate::layout::{
    FILTER_ETHERTYPE, FILTER_INNER, FILTER_OUTER, TAGS_TO_REMOVE, TREATMENT_INNER, TREATMENT_OUTER,
    TagCodes,
};
use arrayvec::ArrayVec;

/// The first reason for which an entry is refused, if there is one.
#[tactic(auto, unfolding(crate::specs::Entry::refusal_of))]
pub(crate) fn refusal(entry: &Entry) -> Option<RuleFault>
    ensures { result ≡ refusal_of entry.now.0 }
{
    let outer = entry.value(FILTER_OUTER.priority);
    let inner = entry.value(FILTER_INNER.priority);
    let ethertype = entry.value(FILTER_ETHERTYPE);
    of_filters(outer, inner, &filters(entry), ethertype).or(of_treatments(&additions(entry)))
}

/// The codes of the filters that count.
#[tactic(auto, unfolding(crate::specs::Entry::filters_of))]
fn filters(entry: &Entry) -> ArrayVec<TagCodes, 2>
    ensures { result.items ≡ filters_of entry.now.0 }
{
    let mut filters = ArrayVec::new();
    match entry.kind() {
        Kind::TwoTag => {
            filters.push(entry.codes(FILTER_OUTER));
            filters.push(entry.codes(FILTER_INNER));
        }
        Kind::OneTag => filters.push(entry.codes(FILTER_INNER)),
        Kind::NoTag | Kind::OneTagDefault | Kind::TwoTagDefault => {}
    }
    filters
}

/// The codes of the tags that are added.
fn additions(entry: &Entry) -> ArrayVec<TagCodes, 2>
    ensures { result.items ≡ additions_of entry.now.0 }
{
    let mut additions = ArrayVec::new();
    if entry.value(TAGS_TO_REMOVE) == 3 {
        return additions;
    }
    let outer = entry.codes(TREATMENT_OUTER);
    if outer.priority != 15 {
        additions.push(outer);
    }
    let inner = entry.codes(TREATMENT_INNER);
    if inner.priority != 15 {
        additions.push(inner);
    }
    additions
}

fn of_filters(outer: u16, inner: u16, filters: &[TagCodes], ethertype: u16) -> Option<RuleFault>
    ensures { result ≡ filter_refusal outer inner filters.now ethertype }
{
    if are_bad_priorities(outer, inner) {
        Some(RuleFault::Priority)
    } else if outer <= 8 && inner == 14 {
        Some(RuleFault::Mixed)
    } else if have_bad_vid(filters) {
        Some(RuleFault::Vid)
    } else if have_bad_tpid(filters) {
        Some(RuleFault::Tpid)
    } else if ethertype > 5 {
        Some(RuleFault::Ethertype)
    } else {
        None
    }
}

fn of_treatments(additions: &[TagCodes]) -> Option<RuleFault>
    ensures { result ≡ treatment_refusal additions.now }
{
    if add_bad_priority(additions) {
        Some(RuleFault::TreatPriority)
    } else if add_bad_vid(additions) {
        Some(RuleFault::TreatVid)
    } else if add_bad_tpid(additions) {
        Some(RuleFault::TreatTpid)
    } else {
        None
    }
}

fn are_bad_priorities(outer: u16, inner: u16) -> bool
    ensures { result ≡ bad_priorities outer inner }
{
    (9..=13).contains(&inner) || (9..=13).contains(&outer) && inner != 15
}

fn have_bad_vid(filters: &[TagCodes]) -> bool
    ensures { result ≡ list_any has_bad_vid filters.now }
{
    filters.iter().any(|filter| filter.vid > 4096)
}

fn have_bad_tpid(filters: &[TagCodes]) -> bool
    ensures { result ≡ list_any has_bad_tpid filters.now }
{
    filters.iter().any(|filter| (1..=3).contains(&filter.tpid))
}

fn add_bad_priority(additions: &[TagCodes]) -> bool
    ensures { result ≡ list_any adds_bad_priority additions.now }
{
    additions
        .iter()
        .any(|tag| (11..=14).contains(&tag.priority))
}

fn add_bad_vid(additions: &[TagCodes]) -> bool
    ensures { result ≡ list_any adds_bad_vid additions.now }
{
    additions
        .iter()
        .any(|tag| tag.vid == 4095 || tag.vid > 4097)
}

fn add_bad_tpid(additions: &[TagCodes]) -> bool
    ensures { result ≡ list_any adds_bad_tpid additions.now }
{
    additions.iter().any(|tag| tag.tpid == 5)
}
