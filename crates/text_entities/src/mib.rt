//! What a MIB holds, as text.
use crate::entity::EntityWords;
use crate::rule::RuleWords;
use crate::value::ValueWords;
use managed_entity::{AttributeKind, Class, descriptions_of};
use mib_state::{HeldInstance, Mib, VlanConfig};
use std::alloc::{AllocError, Global};
use std::io::Write;
use text_writing::{TextFault, write_whole};

/// The most instances that a class may have.
const MOST_INSTANCES: usize = 256;

/// Writes what a MIB holds: for each instance a line with its class and its number, by ascending class and number, the first of
/// them ONU data with the MIB data sync; below it a line for each attribute, `name: value`; and below that of a table a line for
/// each entry, with its place, from 0, its rank and its rule in words (ITU-T G.988, clause 9). The text of an instance is made in
/// memory before it is written.
pub fn write_mib<W: Write>(alloc: Global, mib: &Mib, writer: &mut W) -> Result<(), TextFault> {
    for class in Class::ALL {
        write_class(alloc, mib, class.number(), writer)?;
    }
    Ok(())
}

/// Writes the instances of a class.
fn write_class<W: Write>(
    alloc: Global,
    mib: &Mib,
    class: u16,
    writer: &mut W,
) -> Result<(), TextFault> {
    for place in 0..MOST_INSTANCES {
        let Some(held) = mib.instance_at(class, place) else {
            break;
        };
        let mut text = String::new(alloc);
        put_instance(&mut text, mib, &held)?;
        write_whole(writer, text.as_bytes())?;
    }
    Ok(())
}

/// Puts an instance.
fn put_instance(text: &mut String, mib: &Mib, held: &HeldInstance<'_>) -> Result<(), AllocError> {
    let entity = EntityWords {
        class: held.class(),
        instance: held.number(),
    };
    writeln!(text, "{entity}")?;
    let descriptions = descriptions_of(held.class());
    for place in 0..16 {
        let Some(description) = descriptions.get(usize::from(place)) else {
            break;
        };
        let name = description.name;
        if let Some(bytes) = mib.attribute(entity.class, entity.instance, place + 1) {
            let value = ValueWords {
                attribute: description,
                bytes: &bytes,
            };
            writeln!(text, "  {name}: {value}")?;
        } else if description.kind == AttributeKind::Table {
            writeln!(text, "  {name}:")?;
            if let Some(vlan) = mib.vlan(held.number()) {
                put_table(text, vlan)?;
            }
        }
    }
    Ok(())
}

/// Puts the entries of a table.
fn put_table(text: &mut String, vlan: &VlanConfig) -> Result<(), AllocError> {
    for place in 0..vlan.table.len() {
        if let Some(rule) = vlan.table.rule(place) {
            let rank = rule.rank.number();
            let rule = RuleWords(rule);
            writeln!(text, "    {place}, rank {rank}: {rule}")?;
        }
    }
    Ok(())
}
