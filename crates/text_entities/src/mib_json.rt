//! What a MIB holds, as JSON.
use crate::json_text::{FORMAT, JsonText, put_number, put_text};
use crate::rule_json::put_table_entry;
use crate::value::{mapping_of, number_of, value_word};
use json::Writer;
use managed_entity::{AttributeKind, Class, Description, class_name, descriptions_of};
use mib_state::{HeldInstance, Mib, VlanConfig};
use std::alloc::{AllocError, Global};
use std::io::Write;
use text_writing::TextFault;

/// The most instances that a class may have.
const MOST_INSTANCES: usize = 256;

/// Writes what a MIB holds as one object of JSON (RFC 8259): `format`, 1; `mib_data_sync`; and `entities`, an array with an object for each
/// instance on a line of its own, by ascending class and number. Its members are `class`, `class_name`, `instance`,
/// `attributes`, an object whose members are the attributes by their names, and `attribute_words`, the words of those values that
/// have one. A number, a pointer or a TPID is a number, a DSCP to
/// P-bit mapping an array of 64 priorities, and a table an array with an object for each entry: `place` from 0, `rank`, `entry`
/// in hexadecimal, and its rule as [`put_rule`](crate::put_rule) puts it.
pub fn write_mib_json<W: Write>(alloc: Global, mib: &Mib, writer: &mut W) -> Result<(), TextFault> {
    let mut text = JsonText::new(alloc);
    let sync = mib.sync();
    let front = format!(in alloc; "{FORMAT}\"mib_data_sync\":{sync},\"entities\":")?;
    text.begin(writer, &front)?;
    for class in Class::ALL {
        write_class(alloc, mib, class.number(), &mut text, writer)?;
    }
    text.end(writer, "}")
}

/// Writes the instances of a class.
fn write_class<W: Write>(
    alloc: Global,
    mib: &Mib,
    class: u16,
    text: &mut JsonText,
    writer: &mut W,
) -> Result<(), TextFault> {
    for place in 0..MOST_INSTANCES {
        let Some(held) = mib.instance_at(class, place) else {
            break;
        };
        let mut object = text.object()?;
        put_instance(alloc, &mut object, mib, &held)?;
        text.write(writer, object)?;
    }
    Ok(())
}

/// Puts the members of an instance.
fn put_instance(
    alloc: Global,
    object: &mut Writer,
    mib: &Mib,
    held: &HeldInstance<'_>,
) -> Result<(), AllocError> {
    let class = held.class();
    put_number(object, "class", u64::from(class))?;
    if let Some(name) = class_name(class) {
        put_text(object, "class_name", name)?;
    }
    put_number(object, "instance", u64::from(held.number()))?;
    object.key("attributes")?;
    object.begin_object()?;
    let descriptions = descriptions_of(class);
    for place in 0..16 {
        if let Some(description) = descriptions.get(usize::from(place)) {
            put_attribute(alloc, object, mib, held, place + 1, description)?;
        }
    }
    object.end_object()?;
    put_value_words(object, mib, held)
}

/// Puts `attribute_words`, an object with the words of those values that have one, by the attributes' names; nothing where none has.
fn put_value_words(
    object: &mut Writer,
    mib: &Mib,
    held: &HeldInstance<'_>,
) -> Result<(), AllocError> {
    let descriptions = descriptions_of(held.class());
    let mut has_begun = false;
    for place in 0..16 {
        if let Some(description) = descriptions.get(usize::from(place))
            && let Some(bytes) = mib.attribute(held.class(), held.number(), place + 1)
        {
            put_value_word(object, &mut has_begun, description, &bytes)?;
        }
    }
    if has_begun {
        object.end_object()
    } else {
        Ok(())
    }
}

/// Puts the word of an attribute's value, if it has one, into `attribute_words`, which it begins where none stands there yet.
pub fn put_value_word(
    object: &mut Writer,
    has_begun: &mut bool,
    description: &Description,
    bytes: &[u8],
) -> Result<(), AllocError> {
    let Some(word) = value_word(description, bytes) else {
        return Ok(());
    };
    if !*has_begun {
        object.key("attribute_words")?;
        object.begin_object()?;
        *has_begun = true;
    }
    put_text(object, description.name, word)
}

/// Puts an attribute.
fn put_attribute(
    alloc: Global,
    object: &mut Writer,
    mib: &Mib,
    held: &HeldInstance<'_>,
    n: u16,
    description: &Description,
) -> Result<(), AllocError> {
    if let Some(bytes) = mib.attribute(held.class(), held.number(), n) {
        object.key(description.name)?;
        put_value_json(object, description.kind, &bytes)?;
    } else if description.kind == AttributeKind::Table {
        object.key(description.name)?;
        object.begin_array()?;
        if let Some(vlan) = mib.vlan(held.number()) {
            put_table(alloc, object, vlan)?;
        }
        object.end_array()?;
    }
    Ok(())
}

/// Puts the value of an attribute: a number, or a DSCP to P-bit mapping as an array of 64 priorities.
pub fn put_value_json(
    object: &mut Writer,
    kind: AttributeKind,
    bytes: &[u8],
) -> Result<(), AllocError> {
    let (AttributeKind::DscpMapping, Some(map)) = (kind, mapping_of(bytes)) else {
        return object.u64(number_of(bytes));
    };
    object.begin_array()?;
    for dscp in 0..64 {
        object.u64(u64::from(map.get(dscp)))?;
    }
    object.end_array()
}

/// Puts the entries of a table.
fn put_table(alloc: Global, object: &mut Writer, vlan: &VlanConfig) -> Result<(), AllocError> {
    for place in 0..vlan.table.len() {
        object.begin_object()?;
        put_table_entry(alloc, object, &vlan.table, place)?;
        object.end_object()?;
    }
    Ok(())
}
