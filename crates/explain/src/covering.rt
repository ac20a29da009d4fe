//! Which entries leave another one no frame.
ghost use Rattle.std.specs.Prelude.{◌≡◌, ◌≢◌, ◌<◌, ◌&&◌, ℕ, List, Some, IfSome, OnSome, length, true};
ghost use Rattle.tag_view.specs.Tag.{TagFields};
ghost use Rattle.vlan_rule.specs.Choice.{choice, entry_at, is_before, matches};
ghost use Rattle.explain.specs.Covers.{covers_by, covers_ethertype, covers_priority, covers_tag, covers_tpid, covers_vid, is_shadowed_by, shadow_of};

use crate::mismatch::{inner_filter, outer_filter, tag_count};
use crate::order::tried_order;
use vlan_rule::{
    EthertypeFilter, PriorityFilter, Rule, RuleTable, TagFilter, TpidFilter, VidFilter,
};

/// The place of an entry that is tried before the one at `place` and admits every frame that that one admits, so that it is used
/// for no frame: the first such in the order in which they are tried. It is found where each field of the one filter admits what
/// that field of the other admits, whatever the input TPID; several entries that admit the frames of another together aren't
/// looked for. None where no entry stands at the place.
pub fn shadow_of(table: &RuleTable, place: usize) -> Option<usize>
    ensures value { result ≡ shadow_of table.now place }
    ensures earlier { IfSome result (λ other. is_before table.now other place ≡ true) }
    ensures admits { IfSome result (λ other. (input : ℕ) (tags : List TagFields) (type : ℕ)
        → matches input tags type (entry_at table.now place) ≡ true
        → matches input tags type (entry_at table.now other) ≡ true) }
    ensures unused { OnSome result ((input : ℕ) (tags : List TagFields) (type : ℕ)
        → choice (matches input tags type) table.now ≢ Some place) }
{
    if place >= table.len() {
        return None;
    }
    'each: for other in &tried_order(table) {
        if is_shadowed(table, place, *other) {
            return Some(*other);
        }
    }
    None
}

/// Whether another entry is tried before the one at a place, and covers it.
fn is_shadowed(table: &RuleTable, place: usize, other: usize) -> bool
    requires place { place < length table.now }
    requires other { other < length table.now }
    ensures { result ≡ is_shadowed_by table.now place other }
{
    let (Some(rule), Some(earlier)) = (table.rule(place), table.rule(other)) else {
        return false;
    };
    let (rank, least) = (rule.rank.number(), earlier.rank.number());
    (least < rank || least == rank && other < place) && covers(earlier, rule)
}

/// Whether a rule admits every frame that another admits.
fn covers(rule: &Rule, other: &Rule) -> bool
    ensures { result
        ≡ covers_by rule.now.filter rule.now.ethertype other.now.filter other.now.ethertype }
{
    tag_count(&rule.filter) == tag_count(&other.filter)
        && covers_tag(&outer_filter(&rule.filter), &outer_filter(&other.filter))
        && covers_tag(&inner_filter(&rule.filter), &inner_filter(&other.filter))
        && covers_ethertype(rule.ethertype, other.ethertype)
}

fn covers_tag(filter: &TagFilter, other: &TagFilter) -> bool
    ensures { result ≡ covers_tag filter.now other.now }
{
    covers_priority(filter.priority, other.priority)
        && covers_vid(filter.vid, other.vid)
        && covers_tpid(filter.tpid, other.tpid)
}

fn covers_priority(filter: PriorityFilter, other: PriorityFilter) -> bool
    ensures { result ≡ covers_priority filter other }
{
    match (filter, other) {
        (PriorityFilter::Any, _) => true,
        (PriorityFilter::Exactly(priority), PriorityFilter::Exactly(only)) => priority == only,
        _ => false,
    }
}

fn covers_vid(filter: VidFilter, other: VidFilter) -> bool
    ensures { result ≡ covers_vid filter other }
{
    match (filter, other) {
        (VidFilter::Any, _) => true,
        (VidFilter::Exactly(vid), VidFilter::Exactly(only)) => vid == only,
        _ => false,
    }
}

fn covers_tpid(filter: TpidFilter, other: TpidFilter) -> bool
    ensures { result ≡ covers_tpid filter other }
{
    match (filter, other) {
        (TpidFilter::Any, _) => true,
        (TpidFilter::Standard, TpidFilter::Standard) => true,
        (
            TpidFilter::Input,
            TpidFilter::Input | TpidFilter::InputNotEligible | TpidFilter::InputEligible,
        ) => true,
        (TpidFilter::InputNotEligible, TpidFilter::InputNotEligible) => true,
        (TpidFilter::InputEligible, TpidFilter::InputEligible) => true,
        _ => false,
    }
}

fn covers_ethertype(filter: EthertypeFilter, other: EthertypeFilter) -> bool
    ensures { result ≡ covers_ethertype filter other }
{
    match (filter, other) {
        (EthertypeFilter::Any, _) => true,
        (EthertypeFilter::Ipv4, EthertypeFilter::Ipv4) => true,
        (EthertypeFilter::Pppoe, EthertypeFilter::Pppoe) => true,
        (EthertypeFilter::Arp, EthertypeFilter::Arp) => true,
        (EthertypeFilter::Ipv6, EthertypeFilter::Ipv6) => true,
        (EthertypeFilter::Eapol, EthertypeFilter::Eapol) => true,
        _ => false,
    }
}
