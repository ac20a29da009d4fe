//! The findings of all instances.
ghost use Rattle.std.specs.Prelude.{◌≡◌, ◌++◌, IfOk, OnOk};
ghost use Rattle.explain_findings.specs.Reach.{reached};
ghost use Rattle.explain_findings.specs.Findings.{class_findings, findings, instance_findings};

use crate::finding::Finding;
use crate::gem_port::append_gem_port;
use crate::interwork::append_interwork;
use crate::mapper::append_mapper;
use crate::reach::{Reach, numbers};
use crate::table::append_table;
use managed_entity::Class;
use mib_state::Mib;
use std::alloc::{AllocError, Global};

/// The findings about the managed entities, by ascending class, and those of a class by ascending instance. Those of one instance
/// stand in this order: of a mapper that it stands second, what is found of the port at which it is in force, what is found of
/// each priority, and that it isn't reached; of a table that it stands second, that its mapper is missing, what is found of its
/// port where that has no mapper, the entries that are never used in the order in which entries are tried, and that it isn't
/// reached; of a GEM interworking termination point that its GEM port network CTP is missing, that its 802.1p mapper is, and that it
/// isn't reached; of a GEM port network CTP its direction, that another has its port-ID, and that it isn't reached. It takes memory
/// for lists alone.
#[tactic(auto, unfolding(crate::specs::Findings::findings))]
pub fn findings(alloc: Global, mib: &Mib) -> Result<Vec<Finding>, AllocError>
    ensures { IfOk result (λ list. list.items ≡ findings mib.now.entities) }
{
    let reach = Reach::of(alloc, mib)?;
    let mut list = Vec::new(alloc);
    append_class(alloc, &mut list, mib, &reach, Class::Mapper)?;
    append_class(alloc, &mut list, mib, &reach, Class::Vlan)?;
    append_class(alloc, &mut list, mib, &reach, Class::Interwork)?;
    append_class(alloc, &mut list, mib, &reach, Class::GemPort)?;
    Ok(list)
}

/// Appends the findings of the instances of a class.
#[tactic(auto, unfolding(crate::specs::Findings::class_findings))]
fn append_class(
    alloc: Global,
    findings: &mut Vec<Finding>,
    mib: &Mib,
    reach: &Reach,
    class: Class,
) -> Result<(), AllocError>
    requires { reach.now ≡ reached mib.now.entities }
    ensures { OnOk result (findings.new.items
        ≡ findings.old.items ++ class_findings mib.now.entities class) }
{
    let numbers = numbers(alloc, mib, class)?;
    'each: for number in numbers.as_slice() {
        append_instance(findings, mib, reach, class, *number)?;
    }
    Ok(())
}

/// Appends the findings of the instance of a number.
#[tactic(auto, unfolding(crate::specs::Findings::instance_findings))]
fn append_instance(
    findings: &mut Vec<Finding>,
    mib: &Mib,
    reach: &Reach,
    class: Class,
    number: u16,
) -> Result<(), AllocError>
    requires { reach.now ≡ reached mib.now.entities }
    ensures { OnOk result (findings.new.items
        ≡ findings.old.items ++ instance_findings mib.now.entities class number) }
{
    match class {
        Class::OnuData => Ok(()),
        Class::Mapper => match mib.mapper(number) {
            Some(mapper) => append_mapper(findings, mib, reach, number, mapper),
            None => Ok(()),
        },
        Class::Vlan => match mib.vlan(number) {
            Some(vlan) => append_table(findings, mib, reach, number, vlan),
            None => Ok(()),
        },
        Class::Interwork => match mib.interwork(number) {
            Some(point) => append_interwork(findings, mib, reach, number, point),
            None => Ok(()),
        },
        Class::GemPort => match mib.gem_port(number) {
            Some(gem) => append_gem_port(findings, mib, reach, number, gem),
            None => Ok(()),
        },
    }
}
