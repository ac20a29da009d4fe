//! A table aside: filled while it hangs on no mapper, and put in force in one Set.
//!
//! **When it works.** Where several entries, or entries and settings, have to change at once.
//! **Why it is hitless.** A table with association type 1 and pointer 0xFFFF is no port's: no mapper has that number (ITU-T G.988, 9.3.13). One Set of
//! the attributes 1 and 7 puts it in force, under a lesser number than the one in force. That is then changed out of force, and is in force
//! again when the new one is deleted.
//! **What it takes of a unit.** A free number, and that of two tables that name one port the one of least number is in force.
use crate::aside::{
    free_below, free_number, is_table_there, ports_of, table_aside as make_aside, table_at,
};
use crate::mapper_aside::attach_table;
use managed_entity::Class;
use mib_state::ASSOCIATION_UNI;
use migration_draft::{Draft, UNATTACHED};
use migration_steps::changed_entries;
use std::alloc::AllocError;

/// Puts the table of the goal in force at a port, under a free number.
fn at_port(draft: &mut Draft<'_>, port: u16) -> Result<bool, AllocError> {
    let number = match draft.here.own_table_of_port(port) {
        Some(held) => free_below(draft, Class::Vlan, held),
        None => free_number(draft, Class::Vlan),
    };
    let Some(number) = number else {
        return Ok(false);
    };
    let goal = draft.sides.goal;
    if !make_aside(draft, number, UNATTACHED, table_at(goal, port))? {
        return Ok(false);
    }
    attach_table(draft, number, (ASSOCIATION_UNI, port))
}

/// Whether entries of a port's table are still to be changed, which may be without effect on frames.
fn has_entries_left(draft: &Draft<'_>, port: u16) -> Result<bool, AllocError> {
    let goal = draft.sides.goal;
    let Some(number) = draft.here.own_table_of_port(port) else {
        return Ok(false);
    };
    let (Some(held), Some(wanted)) = (draft.here.vlan(number), goal.vlan(number)) else {
        return Ok(false);
    };
    let left = changed_entries(draft.alloc, number, &held.table, &wanted.table, &[])?;
    Ok(!left.is_empty())
}

/// Does so at the ports whose table isn't that of the goal yet.
pub fn make_table_aside(draft: &mut Draft<'_>) -> Result<bool, AllocError> {
    let mut is_done = false;
    for port in &ports_of(draft)? {
        let (count, temporaries) = (draft.plan.len(), draft.temporaries.len());
        let is_left = !is_table_there(draft, *port)? || has_entries_left(draft, *port)?;
        if !is_left {
            continue;
        }
        if at_port(draft, *port)? {
            is_done = true;
        } else if draft.plan.len() > count {
            draft.cut(count, temporaries)?;
        }
    }
    Ok(is_done)
}
