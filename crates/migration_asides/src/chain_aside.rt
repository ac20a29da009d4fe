//! A chain aside: new interworking points and GEM ports under free numbers, and then the pointers of a mapper in one Set.
//!
//! **When it works.** Where what a mapper's pointers lead to has to change in several instances at once.
//! **Why it is hitless.** No frame goes by a point to which no mapper points. One Set writes all eight pointers of the mapper (ITU-T G.988, 9.3.10), so
//! every priority goes from the chain before to the one after at once. Then what the old pointers lead to may be changed, and be pointed to again.
//! **What it takes of a unit.** Free numbers of both classes, and for a moment more GEM ports, two of them with one port-ID.
use crate::aside::{chains_for, ports_of};
use arrayvec::ArrayVec;
use managed_entity::Class;
use migration_draft::{Draft, put, set};
use std::alloc::AllocError;

/// The mask of the eight pointers of a mapper.
const POINTERS: u16 = 0x7f80;

/// Lets the mapper of a port point to what it points to in the goal.
fn at_port(draft: &mut Draft<'_>, port: u16) -> Result<bool, AllocError> {
    let goal = draft.sides.goal;
    let Some(number) = draft.here.mapper_of_port(port) else {
        return Ok(false);
    };
    let Some(wanted) = goal
        .mapper_of_port(port)
        .and_then(|number| goal.mapper(number))
    else {
        return Ok(false);
    };
    let Some(pointers) = chains_for(draft, wanted)? else {
        return Ok(false);
    };
    let is_there = draft
        .here
        .mapper(number)
        .is_some_and(|held| held.interwork_tp_pointers == pointers);
    if is_there {
        return Ok(false);
    }
    let mut values: ArrayVec<u8, 16> = ArrayVec::new();
    for pointer in &pointers {
        put(&mut values, &pointer.to_be_bytes());
    }
    draft.take(&set(Class::Mapper, number, POINTERS, &values))
}

/// Does so at the ports whose mapper leads elsewhere than in the goal.
pub fn make_chain_aside(draft: &mut Draft<'_>) -> Result<bool, AllocError> {
    let mut is_done = false;
    for port in &ports_of(draft)? {
        let (count, temporaries) = (draft.plan.len(), draft.temporaries.len());
        if at_port(draft, *port)? {
            is_done = true;
        } else if draft.plan.len() > count {
            draft.cut(count, temporaries)?;
        }
    }
    Ok(is_done)
}
