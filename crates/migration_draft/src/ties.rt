//! Two mappers, or two tables, that name one port.
use crate::draft::MOST_INSTANCES;
use mib_state::{ASSOCIATION_MAPPER, ASSOCIATION_UNI, Mib, TP_TYPE_UNI};

/// Whether a mapper names a port for which another is in force.
fn is_hidden_mapper(mib: &Mib, number: u16) -> bool {
    match mib.mapper(number) {
        Some(mapper) if mapper.tp_type == TP_TYPE_UNI => {
            mib.mapper_of_port(mapper.tp_pointer) != Some(number)
        }
        _ => false,
    }
}

/// The first table that hangs on a mapper.
fn table_of_mapper(mib: &Mib, mapper: u16) -> Option<u16> {
    for place in 0..MOST_INSTANCES {
        let (number, vlan) = mib.vlan_at(place)?;
        if vlan.association == ASSOCIATION_MAPPER && vlan.pointer == mapper {
            return Some(number);
        }
    }
    None
}

/// Whether a table names a port, or a mapper, that another of its kind names under a lesser number.
fn is_hidden_table(mib: &Mib, number: u16) -> bool {
    let Some(vlan) = mib.vlan(number) else {
        return false;
    };
    match vlan.association {
        ASSOCIATION_UNI => mib.own_table_of_port(vlan.pointer) != Some(number),
        ASSOCIATION_MAPPER if vlan.pointer != u16::MAX => {
            table_of_mapper(mib, vlan.pointer) != Some(number)
        }
        _ => false,
    }
}

/// Whether a mapper here names a port for which another is in force, and does so at neither end.
fn has_mapper_tie(before: &Mib, here: &Mib, goal: &Mib) -> bool {
    for place in 0..MOST_INSTANCES {
        let Some((number, _)) = here.mapper_at(place) else {
            break;
        };
        let is_at_end = is_hidden_mapper(before, number) || is_hidden_mapper(goal, number);
        if is_hidden_mapper(here, number) && !is_at_end {
            return true;
        }
    }
    false
}

/// Whether a table here names what another of a lesser number does, and does so at neither end.
fn has_table_tie(before: &Mib, here: &Mib, goal: &Mib) -> bool {
    for place in 0..MOST_INSTANCES {
        let Some((number, _)) = here.vlan_at(place) else {
            break;
        };
        let is_at_end = is_hidden_table(before, number) || is_hidden_table(goal, number);
        if is_hidden_table(here, number) && !is_at_end {
            return true;
        }
    }
    false
}

/// Whether two mappers, or two tables, name one port here, which neither configuration at the ends has so.
pub fn has_tie(before: &Mib, here: &Mib, goal: &Mib) -> bool {
    has_mapper_tie(before, here, goal) || has_table_tie(before, here, goal)
}
