//! The findings of an extended VLAN tagging operation configuration data (ITU-T G.988, clause 9.3.13).
ghost use Rattle.std.specs.Prelude.{◌≡◌, ◌++◌, ℕ, OnOk};
ghost use Rattle.std.specs.List.{filter_map};
ghost use Rattle.managed_entity.specs.Shown.{vlan_instance};
ghost use Rattle.explain.specs.Order.{tried_order};
ghost use Rattle.explain_findings.specs.Reach.{reached};
ghost use Rattle.explain_findings.specs.Findings.{drops_at_table, is_alone_at, missing_mapper, port_by_table, port_in_force, second_table, table_findings, unused_entry};

use crate::append::{another, append, append_all, is_number, unreached};
use crate::drops::port_drops;
use crate::finding::Finding;
use crate::reach::{Reach, port_of_mapper, port_of_table};
use explain::{shadow_of, tried_order};
use managed_entity::{Class, VlanConfig};
use mib_state::{ASSOCIATION_MAPPER, ASSOCIATION_UNI, Mib};
use std::alloc::AllocError;
use vlan_rule::RuleTable;

/// Appends the findings of a table.
#[tactic(auto, unfolding(crate::specs::Reach::reached))]
pub(crate) fn append_table(
    findings: &mut Vec<Finding>,
    mib: &Mib,
    reach: &Reach,
    number: u16,
    vlan: &VlanConfig,
) -> Result<(), AllocError>
    requires { reach.now ≡ reached mib.now.entities }
    ensures { OnOk result (findings.new.items ≡ findings.old.items
        ++ table_findings mib.now.entities (vlan_instance number vlan.now)) }
{
    let second = second_table(mib, number, vlan);
    let missing = missing_mapper(mib, number, vlan);
    let drops = drops_at_table(mib, number, vlan);
    let reached = unreached(Class::Vlan, number, &reach.tables);
    append_all(findings, &[second, missing, drops])?;
    append_unused(findings, number, &vlan.table)?;
    append_all(findings, &[reached])
}

/// Another table is in force at its port.
fn second_table(mib: &Mib, number: u16, vlan: &VlanConfig) -> Option<Finding>
    ensures { result ≡ second_table mib.now.entities (vlan_instance number vlan.now) }
{
    let port = port_by_table(mib, vlan)?;
    let in_force = another(mib.table_of_port(port), number)?;
    Some(Finding::SecondTable {
        table: number,
        port,
        in_force,
    })
}

/// The port to which a table points, or to whose mapper.
pub(crate) fn port_by_table(mib: &Mib, vlan: &VlanConfig) -> Option<u16>
    ensures { (n : ℕ) → result ≡ port_by_table mib.now.entities (vlan_instance n vlan.now) }
{
    let pointer = vlan.pointer;
    match vlan.association {
        ASSOCIATION_UNI => Some(pointer),
        ASSOCIATION_MAPPER => port_in_force(mib, pointer),
        _ => None,
    }
}

/// The port of a mapper that is in force there.
fn port_in_force(mib: &Mib, number: u16) -> Option<u16>
    ensures { result ≡ port_in_force mib.now.entities number }
{
    let mapper = mib.mapper(number)?;
    let port = port_of_mapper(mapper)?;
    is_number(number, mib.mapper_of_port(port)).then_some(port)
}

/// Its pointer leads to no mapper.
fn missing_mapper(mib: &Mib, number: u16, vlan: &VlanConfig) -> Option<Finding>
    ensures { result ≡ missing_mapper mib.now.entities (vlan_instance number vlan.now) }
{
    let pointer = vlan.pointer;
    let is_missing = vlan.association == ASSOCIATION_MAPPER && mib.mapper(pointer).is_none();
    is_missing.then_some(Finding::MissingMapper {
        table: number,
        pointer,
    })
}

/// What is found of its port, which has no mapper.
fn drops_at_table(mib: &Mib, number: u16, vlan: &VlanConfig) -> Option<Finding>
    ensures { result ≡ drops_at_table mib.now.entities (vlan_instance number vlan.now) }
{
    let port = port_of_table(vlan)?;
    if is_alone_at(mib, number, port) {
        port_drops(mib, port)
    } else {
        None
    }
}

/// Whether it is the table of a port that has no mapper.
fn is_alone_at(mib: &Mib, number: u16, port: u16) -> bool
    ensures { result ≡ is_alone_at mib.now.entities number port }
{
    is_number(number, mib.own_table_of_port(port)) && mib.mapper_of_port(port).is_none()
}

/// Appends the entries that are never used, in the order in which entries are tried.
fn append_unused(
    findings: &mut Vec<Finding>,
    number: u16,
    table: &RuleTable,
) -> Result<(), AllocError>
    ensures { OnOk result (findings.new.items ≡ findings.old.items
        ++ filter_map (unused_entry number table.now) (tried_order table.now)) }
{
    let order = tried_order(table);
    'each: for place in order.as_slice() {
        append(findings, unused_entry(number, table, *place))?;
    }
    Ok(())
}

/// The entry at a place is never used.
fn unused_entry(number: u16, table: &RuleTable, place: usize) -> Option<Finding>
    ensures { result ≡ unused_entry number table.now place }
{
    let shadow = shadow_of(table, place)?;
    Some(Finding::UnusedEntry {
        table: number,
        place,
        shadow,
    })
}
