//! A finding in words.
use crate::entity_finding::Found;
use explain::number_of;
use explain_findings::Finding;
use mib_state::Mib;
use std::fmt::{self, Display};

/// The number of the entry at a place of a table, in the order in which entries are tried.
pub(crate) fn entry_number(mib: &Mib, table: u16, place: usize) -> Option<usize> {
    let vlan = mib.vlan(table)?;
    number_of(&vlan.table, place)
}

/// What is found in words.
#[derive(Clone, Copy)]
pub(crate) struct FoundWords<'m> {
    pub(crate) mib: &'m Mib,
    pub(crate) found: Found,
}

impl fmt::Display for FoundWords<'_> {
    fn fmt<W: fmt::Write>(&self, f: &mut fmt::Formatter<W>) -> fmt::Result {
        match self.found {
            Found::Claimed(finding) => {
                let mib = self.mib;
                FindingWords { mib, finding }.fmt(f)
            }
            Found::Idle(idle) => write!(f, "{idle}"),
        }
    }
}

/// A finding in words.
#[derive(Clone, Copy)]
struct FindingWords<'m> {
    mib: &'m Mib,
    finding: Finding,
}

impl fmt::Display for FindingWords<'_> {
    fn fmt<W: fmt::Write>(&self, f: &mut fmt::Formatter<W>) -> fmt::Result {
        match self.finding {
            Finding::SecondMapper { port, in_force, .. } => write!(
                f,
                "it points to port {port}, where mapper 0x{in_force:04x} is in force"
            ),
            Finding::SecondTable { port, in_force, .. } => write!(
                f,
                "it points to port {port} or to its mapper, where vlan 0x{in_force:04x} is in force"
            ),
            Finding::MissingMapper { pointer, .. } => {
                write!(f, "there is no mapper 0x{pointer:04x}, to which it points")
            }
            Finding::MissingGemPort { pointer, .. } => {
                write!(
                    f,
                    "there is no gem-port 0x{pointer:04x}, to which it points"
                )
            }
            Finding::MissingServiceProfile { pointer, .. } => write!(
                f,
                "there is no mapper 0x{pointer:04x}, to which its service profile pointer leads"
            ),
            Finding::NotUpstream { direction, .. } => write!(
                f,
                "direction {direction} doesn't carry frames upstream, as 1 and 3 do"
            ),
            Finding::SharedPortId { port_id, first, .. } => write!(
                f,
                "port-ID {port_id} is that of gem-port 0x{first:04x}, too"
            ),
            Finding::Unreached { .. } => write!(f, "the frames of no port come by it"),
            _ => put_frames(self, f),
        }
    }
}

/// What is said of frames.
fn put_frames<W: fmt::Write>(words: &FindingWords<'_>, f: &mut fmt::Formatter<W>) -> fmt::Result {
    match words.finding {
        Finding::PortDrops { port, reason } => {
            let number = reason.code();
            write!(
                f,
                "all frames of port {port} are dropped, for reason {number} or before: {reason}"
            )
        }
        Finding::PortCarriesNone { port } => write!(
            f,
            "all frames of port {port} are dropped: no priority leads to a GEM port that carries them"
        ),
        Finding::NullPointer { priority, .. } => write!(
            f,
            "the pointer of priority {priority} is null, and drops its frames, reason 6"
        ),
        Finding::MissingInterwork {
            priority,
            pointer,
            ..
        } => write!(
            f,
            "there is no interwork 0x{pointer:04x}, to which the pointer of priority {priority} leads; it drops its frames, reason 7"
        ),
        Finding::UncarriedPriority {
            priority,
            reason,
            ..
        } => {
            let number = reason.code();
            write!(
                f,
                "the frames of priority {priority} are dropped, reason {number}: {reason}"
            )
        }
        Finding::UnusedEntry {
            table,
            place,
            shadow,
        } => put_unused(words.mib, table, place, shadow, f),
        _ => Ok(()),
    }
}

/// An entry that is never used, and the one that admits all that it admits.
fn put_unused<W: fmt::Write>(
    mib: &Mib,
    table: u16,
    place: usize,
    shadow: usize,
    f: &mut fmt::Formatter<W>,
) -> fmt::Result {
    let number = entry_number(mib, table, place).unwrap_or(place);
    let other = entry_number(mib, table, shadow).unwrap_or(shadow);
    write!(
        f,
        "entry {number} (place {place}) is never used: entry {other} (place {shadow}) admits everything that it admits"
    )
}
