//! The instance that a finding is about.
use crate::entity_finding::Found;
use explain_findings::Finding;
use managed_entity::Class;
use mib_state::Mib;
use std::fmt;

/// An instance by the short word of its class and its number.
#[derive(Clone, Copy)]
pub(crate) struct Subject {
    pub(crate) class: Class,
    pub(crate) instance: u16,
}

impl fmt::Display for Subject {
    fn fmt<W: fmt::Write>(&self, f: &mut fmt::Formatter<W>) -> fmt::Result {
        let word = self.class.word();
        write!(f, "{word} 0x{:04x}", self.instance)
    }
}

/// The instance that a finding stands with; of a port its mapper, or the table that points to it where it has none.
pub(crate) fn subject_of(mib: &Mib, found: Found) -> Subject {
    match found {
        Found::Claimed(finding) => of_finding(mib, finding),
        Found::Idle(idle) => of(Class::GemPort, idle.gem_port),
    }
}

fn of_finding(mib: &Mib, finding: Finding) -> Subject {
    match finding {
        Finding::SecondMapper { mapper, .. }
        | Finding::NullPointer { mapper, .. }
        | Finding::MissingInterwork { mapper, .. }
        | Finding::UncarriedPriority { mapper, .. } => of(Class::Mapper, mapper),
        Finding::SecondTable { table, .. }
        | Finding::MissingMapper { table, .. }
        | Finding::UnusedEntry { table, .. } => of(Class::Vlan, table),
        Finding::MissingGemPort { interwork, .. }
        | Finding::MissingServiceProfile { interwork, .. } => of(Class::Interwork, interwork),
        Finding::NotUpstream { gem_port, .. } | Finding::SharedPortId { gem_port, .. } => {
            of(Class::GemPort, gem_port)
        }
        Finding::PortDrops { port, .. } | Finding::PortCarriesNone { port } => of_port(mib, port),
        Finding::Unreached { class, instance } => of(class, instance),
    }
}

fn of(class: Class, instance: u16) -> Subject {
    Subject { class, instance }
}

fn of_port(mib: &Mib, port: u16) -> Subject {
    match mib.mapper_of_port(port) {
        Some(mapper) => of(Class::Mapper, mapper),
        None => of(Class::Vlan, mib.own_table_of_port(port).unwrap_or(0)),
    }
}
