//! The findings of an 802.1p mapper service profile (ITU-T G.988, clause 9.3.10).
ghost use Rattle.std.specs.Prelude.{◌≡◌, ◌<◌, ◌++◌, OnOk, map};
ghost use Rattle.managed_entity.specs.Shown.{mapper_instance};
ghost use Rattle.explain_findings.specs.Reach.{priorities, reached};
ghost use Rattle.explain_findings.specs.Findings.{drops_at_mapper, mapper_findings, priority_finding, second_mapper};

use crate::append::{another, append_all, is_number, unreached};
use crate::drops::port_drops;
use crate::finding::Finding;
use crate::reach::{Reach, port_of_mapper};
use frame_meaning::{gem_port_of, pointer_of};
use managed_entity::Class;
use mib_state::Mib;
use pmapper::Mapper;
use std::alloc::AllocError;

/// Appends the findings of a mapper.
#[tactic(auto, unfolding(crate::specs::Reach::reached))]
pub(crate) fn append_mapper(
    findings: &mut Vec<Finding>,
    mib: &Mib,
    reach: &Reach,
    number: u16,
    mapper: &Mapper,
) -> Result<(), AllocError>
    requires { reach.now ≡ reached mib.now.entities }
    ensures { OnOk result (findings.new.items ≡ findings.old.items
        ++ mapper_findings mib.now.entities (mapper_instance number mapper.now)) }
{
    let second = second_mapper(mib, number, mapper);
    let drops = drops_at_mapper(mib, number, mapper);
    let reached = unreached(Class::Mapper, number, &reach.mappers);
    append_all(findings, &[second, drops])?;
    append_all(findings, &priority_findings(mib, number, mapper))?;
    append_all(findings, &[reached])
}

/// Another mapper is in force at its port.
fn second_mapper(mib: &Mib, number: u16, mapper: &Mapper) -> Option<Finding>
    ensures { result ≡ second_mapper mib.now.entities (mapper_instance number mapper.now) }
{
    let port = port_of_mapper(mapper)?;
    let in_force = another(mib.mapper_of_port(port), number)?;
    Some(Finding::SecondMapper {
        mapper: number,
        port,
        in_force,
    })
}

/// What is found of the port at which it is in force.
fn drops_at_mapper(mib: &Mib, number: u16, mapper: &Mapper) -> Option<Finding>
    ensures { result ≡ drops_at_mapper mib.now.entities (mapper_instance number mapper.now) }
{
    let port = port_of_mapper(mapper)?;
    if is_number(number, mib.mapper_of_port(port)) {
        port_drops(mib, port)
    } else {
        None
    }
}

/// What is found of each priority.
fn priority_findings(mib: &Mib, number: u16, mapper: &Mapper) -> [Option<Finding>; 8]
    ensures { result
        ≡ map (priority_finding mib.now.entities (mapper_instance number mapper.now)) priorities }
{
    [
        priority_finding(mib, number, mapper, 0),
        priority_finding(mib, number, mapper, 1),
        priority_finding(mib, number, mapper, 2),
        priority_finding(mib, number, mapper, 3),
        priority_finding(mib, number, mapper, 4),
        priority_finding(mib, number, mapper, 5),
        priority_finding(mib, number, mapper, 6),
        priority_finding(mib, number, mapper, 7),
    ]
}

/// Why the frames of a priority are dropped, if they are.
fn priority_finding(mib: &Mib, number: u16, mapper: &Mapper, priority: u8) -> Option<Finding>
    requires { priority < 8 }
    ensures { result
        ≡ priority_finding mib.now.entities (mapper_instance number mapper.now) priority }
{
    let Some(pointer) = pointer_of(mapper, priority) else {
        return Some(Finding::NullPointer {
            mapper: number,
            priority,
        });
    };
    if mib.interwork(pointer).is_none() {
        return Some(Finding::MissingInterwork {
            mapper: number,
            priority,
            pointer,
        });
    }
    match gem_port_of(mib, mapper, priority) {
        Ok(_) => None,
        Err(reason) => Some(Finding::UncarriedPriority {
            mapper: number,
            priority,
            reason,
        }),
    }
}
