//! Whether all frames of a port are dropped, and for which reason.
ghost use Rattle.std.specs.Prelude.{◌≡◌, ◌<◌, ℕ, is_err, length};
ghost use Rattle.std.specs.List.{list_all};
ghost use Rattle.managed_entity.specs.Shown.{mapper_instance};
ghost use Rattle.explain_findings.specs.Drops.{common_reason, discards_all, entries_reason, is_discard, lacks_by, lets_none, port_drops, routes, table_reason, uncarried};

use crate::finding::Finding;
use explain::{shadow_of, tried_order};
use frame_meaning::{PortTable, Reason, gem_port_of, mapper_at};
use mib_state::Mib;
use pmapper::Mapper;
use vlan_rule::{RuleTable, Treatment};

/// Whether all frames of a port are dropped, and for which reason.
#[tactic(auto, unfolding(crate::specs::Drops::port_drops))]
pub(crate) fn port_drops(mib: &Mib, port: u16) -> Option<Finding>
    ensures { result ≡ port_drops mib.now.entities port }
{
    match (
        table_reason(&PortTable::at(mib, port)),
        mapper_at(mib, port),
    ) {
        (Some(reason), _) => Some(Finding::PortDrops { port, reason }),
        (None, None) => Some(Finding::PortDrops {
            port,
            reason: Reason::NoMapper,
        }),
        (None, Some((_, mapper))) => uncarried(port, &routes(mib, mapper)),
    }
}

/// Why a port's table drops each frame, if it does.
fn table_reason(table: &Option<PortTable>) -> Option<Reason>
    ensures { result ≡ table_reason table.now }
{
    match table {
        Some(table) => entries_reason(table.rules),
        None => None,
    }
}

/// Why a table drops each frame, if it does: it has no entry, or none that lets a frame through.
fn entries_reason(table: &RuleTable) -> Option<Reason>
    ensures { result ≡ entries_reason table.now }
{
    if table.len() == 0 {
        return Some(Reason::NoRule);
    }
    discards_all(table).then_some(Reason::RuleDiscard)
}

/// Whether no entry of a table lets a frame through.
#[tactic(auto, unfolding(crate::specs::Drops::discards_all))]
fn discards_all(table: &RuleTable) -> bool
    ensures { result ≡ discards_all table.now }
{
    let order = tried_order(table);
    'each: for place in order.as_slice() {
        if !lets_none(table, *place) {
            return false;
        }
    }
    true
}

/// Whether the entry at a place lets no frame through: it discards, or it is never used.
fn lets_none(table: &RuleTable, place: usize) -> bool
    requires { place < length table.now }
    ensures { result ≡ lets_none table.now place }
{
    let discards = match table.rule(place) {
        Some(rule) => is_discard(&rule.treatment),
        None => false,
    };
    discards || shadow_of(table, place).is_some()
}

fn is_discard(treatment: &Treatment) -> bool
    ensures { result ≡ is_discard treatment.now }
{
    match treatment {
        Treatment::Discard => true,
        Treatment::Retag(_) => false,
    }
}

/// The GEM port of each priority of a mapper, or why there is none.
fn routes(mib: &Mib, mapper: &Mapper) -> [Result<u16, Reason>; 8]
    ensures { (n : ℕ) → result ≡ routes mib.now.entities (mapper_instance n mapper.now) }
{
    [
        gem_port_of(mib, mapper, 0),
        gem_port_of(mib, mapper, 1),
        gem_port_of(mib, mapper, 2),
        gem_port_of(mib, mapper, 3),
        gem_port_of(mib, mapper, 4),
        gem_port_of(mib, mapper, 5),
        gem_port_of(mib, mapper, 6),
        gem_port_of(mib, mapper, 7),
    ]
}

/// What is found of a port by the routes of its mapper.
fn uncarried(port: u16, routes: &[Result<u16, Reason>]) -> Option<Finding>
    ensures { result ≡ uncarried port routes.now }
{
    match common_reason(routes) {
        Some(reason) => Some(Finding::PortDrops { port, reason }),
        None => none_carried(routes).then_some(Finding::PortCarriesNone { port }),
    }
}

/// The reason for which no priority has a GEM port.
fn common_reason(routes: &[Result<u16, Reason>]) -> Option<Reason>
    ensures { result ≡ common_reason routes.now }
{
    if all_lack_by(routes, Reason::NullPointer) {
        return Some(Reason::NullPointer);
    }
    if all_lack_by(routes, Reason::NoInterwork) {
        return Some(Reason::NoInterwork);
    }
    if all_lack_by(routes, Reason::NoGem) {
        return Some(Reason::NoGem);
    }
    all_lack_by(routes, Reason::Direction).then_some(Reason::Direction)
}

/// Whether no priority has a GEM port, for this reason.
fn all_lack_by(routes: &[Result<u16, Reason>], reason: Reason) -> bool
    ensures { result ≡ list_all (lacks_by reason) routes.now }
{
    'each: for route in routes {
        if !lacks_by(*route, reason) {
            return false;
        }
    }
    true
}

/// Whether there is no GEM port, for this reason.
fn lacks_by(route: Result<u16, Reason>, reason: Reason) -> bool
    ensures { result ≡ lacks_by reason route }
{
    match route {
        Ok(_) => false,
        Err(other) => other.code() == reason.code(),
    }
}

/// Whether no priority has a GEM port, whatever the reasons.
fn none_carried(routes: &[Result<u16, Reason>]) -> bool
    ensures { result ≡ list_all is_err routes.now }
{
    'each: for route in routes {
        if route.is_ok() {
            return false;
        }
    }
    true
}
