//! A finding about managed entities with its kind.
use crate::idle::{IdleGemPort, idle_gem_ports};
use crate::priorities::at_mapper;
use explain_findings::Finding;
use mib_state::Mib;
use std::alloc::{AllocError, Global};
use text_finding_kinds::Kind;
use vlan_rule::{Entry, RuleTable};

/// What is found of the managed entities.
#[derive(Clone, Copy)]
pub(crate) enum Found {
    /// What a finding claims.
    Claimed(Finding),
    /// A GEM port that no frame comes by, though a mapper leads to it.
    Idle(IdleGemPort),
}

/// A finding about managed entities with its kind.
#[derive(Clone, Copy)]
pub struct EntityFinding {
    pub kind: Kind,
    pub(crate) found: Found,
}

/// Findings with their kinds, in the same order, but for null pointers of priorities that no frame can have; and behind them the GEM
/// ports that mappers lead to by such priorities alone.
pub fn with_kinds(
    alloc: Global,
    mib: &Mib,
    findings: &[Finding],
) -> Result<Vec<EntityFinding>, AllocError> {
    let predefined = RuleTable::new(alloc)?;
    let mut all = Vec::new(alloc);
    for finding in findings {
        let finding = *finding;
        if !is_idle(mib, finding) {
            let kind = kind_of(mib, &predefined, finding);
            let found = Found::Claimed(finding);
            all.push(EntityFinding { kind, found })?;
        }
    }
    append_idle(alloc, mib, &mut all)?;
    Ok(all)
}

/// Appends the GEM ports that no frame comes by.
fn append_idle(alloc: Global, mib: &Mib, all: &mut Vec<EntityFinding>) -> Result<(), AllocError> {
    for idle in &idle_gem_ports(alloc, mib)? {
        let found = Found::Idle(*idle);
        let kind = Kind::WITHOUT_FRAMES;
        all.push(EntityFinding { kind, found })?;
    }
    Ok(())
}

/// Whether it is a null pointer of a priority that no frame can have.
fn is_idle(mib: &Mib, finding: Finding) -> bool {
    match finding {
        Finding::NullPointer { mapper, priority } => !at_mapper(mib, mapper).has(priority),
        _ => false,
    }
}

/// The kind of a finding.
fn kind_of(mib: &Mib, predefined: &RuleTable, finding: Finding) -> Kind {
    match finding {
        Finding::SecondMapper { .. } => Kind::SECOND_MAPPER,
        Finding::SecondTable { .. } => Kind::SECOND_TABLE,
        Finding::PortDrops { .. } | Finding::PortCarriesNone { .. } => Kind::PORT_DROPS_ALL,
        Finding::NullPointer { .. } => Kind::NULL_POINTER,
        Finding::MissingInterwork { .. }
        | Finding::MissingMapper { .. }
        | Finding::MissingGemPort { .. }
        | Finding::MissingServiceProfile { .. } => Kind::POINTER_TO_NOTHING,
        Finding::UncarriedPriority { .. } => Kind::PRIORITY_NOT_CARRIED,
        Finding::UnusedEntry { table, place, .. } => match entry_at(mib, table, place) {
            Some(entry) if holds(predefined, &entry) => Kind::PREDEFINED_NEVER_USED,
            _ => Kind::ENTRY_NEVER_USED,
        },
        Finding::NotUpstream { .. } => Kind::NOT_UPSTREAM,
        Finding::SharedPortId { .. } => Kind::PORT_ID_USED_TWICE,
        Finding::Unreached { .. } => Kind::NOT_REACHED,
    }
}

/// The entry at a place of a table.
fn entry_at(mib: &Mib, table: u16, place: usize) -> Option<Entry> {
    mib.vlan(table)?.table.entry(place)
}

/// Whether a table holds an entry, byte for byte.
fn holds(table: &RuleTable, entry: &Entry) -> bool {
    for place in 0..table.len() {
        if table.entry(place) == Some(*entry) {
            return true;
        }
    }
    false
}
