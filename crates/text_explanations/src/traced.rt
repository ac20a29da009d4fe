//! What a trace left.
use explain::{TableInForce, number_of, table_in_force, tried_order};
use mib_state::Mib;
use script_trace::{Accepted, setting_line};
use vlan_rule::RuleTable;

/// What a trace left: the managed entities, and the requests that led to them. Where these aren't known, there are none, and no entry has
/// the line that set it.
#[derive(Clone, Copy)]
pub struct Traced<'a> {
    pub mib: &'a Mib,
    pub accepted: &'a [Accepted],
}

/// The table in force at a port, with what set its entries.
#[derive(Clone, Copy)]
pub struct PortEntries<'a> {
    pub(crate) table: &'a RuleTable,
    /// The number of its extended VLAN tagging operation configuration data.
    pub(crate) instance: u16,
    accepted: &'a [Accepted],
}

impl<'a> PortEntries<'a> {
    /// Those of the table in force, if one is.
    pub fn at(traced: &Traced<'a>, port: u16) -> Option<PortEntries<'a>> {
        let instance = match table_in_force(traced.mib, port) {
            TableInForce::NoTable => return None,
            TableInForce::OfPort(instance) | TableInForce::OfMapper { instance, .. } => instance,
        };
        let vlan = traced.mib.vlan(instance)?;
        Some(PortEntries {
            table: &vlan.table,
            instance,
            accepted: traced.accepted,
        })
    }

    /// The number of the entry at a place, in the order in which entries are tried, counted from 0.
    pub fn number(&self, place: usize) -> Option<usize> {
        number_of(self.table, place)
    }

    /// The line of the trace that set the entry at a place.
    pub fn line(&self, place: usize) -> Option<u64> {
        let entry = self.table.entry(place)?;
        setting_line(self.accepted, self.instance, entry.key())
    }

    /// The line of the trace that set the entry of a number, in the order in which entries are tried, counted from 0.
    pub fn numbered_line(&self, number: usize) -> Option<u64> {
        let order = tried_order(self.table);
        self.line(*order.get(number)?)
    }
}
