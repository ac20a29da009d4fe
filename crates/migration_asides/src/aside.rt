//! Free numbers, and instances that are made aside.
use arrayvec::ArrayVec;
use explain_findings::named_ports;
use managed_entity::{Class, VlanConfig};
use mib_state::Mib;
use migration_draft::{
    Draft, Temporary, create_gem_port, create_interwork, create_table, has, put, set,
};
use migration_steps::{changed_entries, set_entry};
use omci_msg::Request;
use pmapper::{GemPort, Interwork, Mapper};
use std::alloc::AllocError;
use tag_view::{CUSTOMER_TPID, DscpMap};
use vlan_rule::{RuleTable, TableSettings};

/// The mask of a table's input and output TPID.
const TPIDS: u16 = 0x3000;

/// The mask of a table's DSCP to P-bit mapping.
const MAPPING: u16 = 0x0100;

/// How many entries go and come at most where a new table is filled: no more than two tables have room for.
const MOST_STEPS: u32 = 256;

/// Whether a number is free: no configuration at the ends has it, nor is it held here.
fn is_free(draft: &Draft<'_>, class: Class, number: u16) -> bool {
    !has(&draft.here, class, number)
        && !has(draft.sides.before, class, number)
        && !has(draft.sides.goal, class, number)
}

/// The greatest free number of a class below another.
pub(crate) fn free_below(draft: &Draft<'_>, class: Class, below: u16) -> Option<u16> {
    for step in 1..=512u16 {
        let number = below.checked_sub(step)?;
        if is_free(draft, class, number) {
            return Some(number);
        }
    }
    None
}

/// A free number of a class: below the first that is held, or below all there are.
pub(crate) fn free_number(draft: &Draft<'_>, class: Class) -> Option<u16> {
    let first = draft
        .here
        .next_instance(class.number(), 0)
        .unwrap_or(0x8000);
    match free_below(draft, class, first) {
        Some(number) => Some(number),
        None => free_below(draft, class, 0xffff),
    }
}

/// Takes a request that makes an instance for the time of the way.
pub(crate) fn take_aside(
    draft: &mut Draft<'_>,
    class: Class,
    number: u16,
    request: &Request,
) -> Result<bool, AllocError> {
    if !draft.take(request)? {
        return Ok(false);
    }
    draft.temporaries.push(Temporary::instance(class, number))?;
    Ok(true)
}

/// Whether a pointer of a mapper leads to the same here as in the goal: to an interworking point and a GEM port of the same attributes.
pub(crate) fn is_chain_there(draft: &Draft<'_>, pointer: u16) -> bool {
    let (here, goal) = (&draft.here, draft.sides.goal);
    match (here.interwork(pointer), goal.interwork(pointer)) {
        (Some(held), Some(wanted)) => {
            held.gem_port_pointer == wanted.gem_port_pointer
                && here.gem_port(held.gem_port_pointer) == goal.gem_port(held.gem_port_pointer)
        }
        (None, None) => true,
        _ => false,
    }
}

/// Makes a GEM port like another under a free number, for the time of the way, and gives the number; None where none can be made.
fn gem_port_aside(draft: &mut Draft<'_>, port: &GemPort) -> Result<Option<u16>, AllocError> {
    let Some(number) = free_number(draft, Class::GemPort) else {
        return Ok(None);
    };
    let request = create_gem_port(number, port);
    if !take_aside(draft, Class::GemPort, number, &request)? {
        return Ok(None);
    }
    Ok(Some(number))
}

/// Makes an interworking point like another, but to this GEM port.
fn point_aside(
    draft: &mut Draft<'_>,
    point: &Interwork,
    gem_port: u16,
) -> Result<Option<u16>, AllocError> {
    let Some(number) = free_number(draft, Class::Interwork) else {
        return Ok(None);
    };
    let mut aside = *point;
    aside.gem_port_pointer = gem_port;
    let request = create_interwork(number, &aside);
    if !take_aside(draft, Class::Interwork, number, &request)? {
        return Ok(None);
    }
    Ok(Some(number))
}

/// A pointer that leads here to what a pointer of the goal leads to there: itself, the null pointer, or that of an interworking point and a
/// GEM port that are made for the time of the way. None where none can be made.
pub(crate) fn chain_for(draft: &mut Draft<'_>, pointer: u16) -> Result<Option<u16>, AllocError> {
    if pointer == u16::MAX || is_chain_there(draft, pointer) {
        return Ok(Some(pointer));
    }
    let goal = draft.sides.goal;
    let Some(point) = goal.interwork(pointer) else {
        return Ok(Some(u16::MAX));
    };
    let Some(port) = goal.gem_port(point.gem_port_pointer) else {
        return Ok(Some(u16::MAX));
    };
    match gem_port_aside(draft, port)? {
        Some(gem_port) => point_aside(draft, point, gem_port),
        None => Ok(None),
    }
}

/// Pointers that lead here to what those of a mapper of the goal lead to there. Those that are alike are made once.
pub(crate) fn chains_for(
    draft: &mut Draft<'_>,
    mapper: &Mapper,
) -> Result<Option<[u16; 8]>, AllocError> {
    let mut pointers = mapper.interwork_tp_pointers;
    let mut made: Vec<(u16, u16)> = Vec::new(draft.alloc);
    for pointer in pointers.iter_mut() {
        let known = made
            .iter()
            .find(|pair| pair.0 == *pointer)
            .map(|pair| pair.1);
        let leads = match known {
            Some(leads) => Some(leads),
            None => chain_for(draft, *pointer)?,
        };
        let Some(leads) = leads else {
            return Ok(None);
        };
        made.push((*pointer, leads))?;
        *pointer = leads;
    }
    Ok(Some(pointers))
}

/// Whether a DSCP to P-bit mapping is that of a new instance.
pub(crate) fn is_zero(map: &DscpMap) -> bool {
    map.0 == [0; 24]
}

/// A Set of the DSCP to P-bit mapping of an instance, by its mask.
pub(crate) fn set_mapping(class: Class, instance: u16, mask: u16, map: &DscpMap) -> Request {
    set(class, instance, mask, &map.0)
}

/// Gives a new table the TPIDs of another.
fn set_tpids(
    draft: &mut Draft<'_>,
    number: u16,
    settings: &TableSettings,
) -> Result<bool, AllocError> {
    let mut values: ArrayVec<u8, 4> = ArrayVec::new();
    put(&mut values, &settings.input_tpid.to_be_bytes());
    put(&mut values, &settings.output_tpid.to_be_bytes());
    draft.take(&set(Class::Vlan, number, TPIDS, &values))
}

/// Gives a new table the settings of another.
fn set_settings(
    draft: &mut Draft<'_>,
    number: u16,
    settings: &TableSettings,
) -> Result<bool, AllocError> {
    let are_new = settings.input_tpid == CUSTOMER_TPID && settings.output_tpid == CUSTOMER_TPID;
    if !are_new && !set_tpids(draft, number, settings)? {
        return Ok(false);
    }
    if is_zero(&settings.dscp_map) {
        return Ok(true);
    }
    draft.take(&set_mapping(Class::Vlan, number, MAPPING, &settings.dscp_map))
}

/// Gives a new table the entries of another: at each step one goes, or comes.
fn set_entries(draft: &mut Draft<'_>, number: u16, wanted: &RuleTable) -> Result<bool, AllocError> {
    for _ in 0..MOST_STEPS {
        let Some(held) = draft.here.vlan(number) else {
            return Ok(false);
        };
        let entries = changed_entries(draft.alloc, number, &held.table, wanted, &[])?;
        let Some(entry) = entries.first() else {
            return Ok(true);
        };
        if !draft.take(&set_entry(number, entry))? {
            return Ok(false);
        }
    }
    Ok(false)
}

/// Makes a table for the time of the way, out of force, with the settings and the entries of another.
pub(crate) fn table_aside(
    draft: &mut Draft<'_>,
    number: u16,
    attached: (u8, u16),
    wanted: Option<&VlanConfig>,
) -> Result<bool, AllocError> {
    let request = create_table(number, attached.0, attached.1);
    if !take_aside(draft, Class::Vlan, number, &request)? {
        return Ok(false);
    }
    match wanted {
        Some(wanted) => Ok(
            set_settings(draft, number, &wanted.settings)?
                && set_entries(draft, number, &wanted.table)?,
        ),
        None => Ok(true),
    }
}

/// The ports that the configurations here and of the goal name.
pub(crate) fn ports_of(draft: &Draft<'_>) -> Result<Vec<u16>, AllocError> {
    let mut ports = named_ports(draft.alloc, &draft.here)?;
    let more = named_ports(draft.alloc, draft.sides.goal)?;
    ports.extend_from_slice(&more)?;
    ports.sort_unstable();
    ports.dedup();
    Ok(ports)
}

/// Whether a port's table has the settings and the entries of the goal's already, or neither has one.
pub(crate) fn is_table_there(draft: &Draft<'_>, port: u16) -> Result<bool, AllocError> {
    match (
        table_at(&draft.here, port),
        table_at(draft.sides.goal, port),
    ) {
        (Some(held), Some(wanted)) => {
            let left = changed_entries(draft.alloc, 0, &held.table, &wanted.table, &[])?;
            Ok(held.settings == wanted.settings && left.is_empty())
        }
        (None, None) => Ok(true),
        _ => Ok(false),
    }
}

/// The table of a port, of some managed entities.
pub(crate) fn table_at(mib: &Mib, port: u16) -> Option<&VlanConfig> {
    mib.vlan(mib.table_of_port(port)?)
}
