//! Attributes of a class as members of an object of JSON.
use crate::attributes::{TableValue, width_at};
use json::Writer;
use managed_entity::{AttributeKind, class_name, descriptions_of, names};
use std::alloc::{AllocError, Global};
use text_entities::{
    HexWords, put_entry_json, put_number, put_text, put_value_json, put_value_word, put_words,
    standard_class_name,
};

/// Puts an instance: `class`, `class_name` where the class is a common one, and `instance`.
pub(crate) fn put_instance(
    object: &mut Writer,
    class: u16,
    instance: u16,
) -> Result<(), AllocError> {
    put_number(object, "class", u64::from(class))?;
    if let Some(name) = standard_class_name(class) {
        put_text(object, "class_name", name)?;
    }
    put_number(object, "instance", u64::from(instance))
}

/// Puts `attributes`, an object with the values of those that a mask names, from bytes without gaps; or where the class isn't known, their
/// numbers, `asked`, and `values` in hexadecimal.
pub(crate) fn put_values_json(
    alloc: Global,
    object: &mut Writer,
    class: u16,
    mask: u16,
    table: TableValue,
    bytes: &[u8],
) -> Result<(), AllocError> {
    if class_name(class).is_none() {
        put_names_json(object, "asked", class, mask)?;
        return put_words(alloc, object, "values", &HexWords(bytes));
    }
    object.key("attributes")?;
    object.begin_object()?;
    let mut rest = bytes;
    for place in 0..16 {
        if names(mask, place) {
            rest = put_value(alloc, object, class, place, table, rest)?;
        }
    }
    object.end_object()?;
    put_value_words(object, class, mask, table, bytes)
}

/// Puts `attribute_words`, an object with the words of those values that have one, if one has.
fn put_value_words(
    object: &mut Writer,
    class: u16,
    mask: u16,
    table: TableValue,
    bytes: &[u8],
) -> Result<(), AllocError> {
    let mut rest = bytes;
    let mut has_begun = false;
    for place in 0..16 {
        if names(mask, place)
            && let Some(description) = descriptions_of(class).get(place)
        {
            let width = width_at(class, place, table).unwrap_or(0);
            let (front, behind) = rest.split_at(width.min(rest.len()));
            if front.len() == width {
                put_value_word(object, &mut has_begun, description, front)?;
            }
            rest = behind;
        }
    }
    if has_begun {
        object.end_object()
    } else {
        Ok(())
    }
}

/// Puts the attribute at a place, from the first of the bytes, and gives those behind it. One that isn't whole has no member.
fn put_value<'a>(
    alloc: Global,
    object: &mut Writer,
    class: u16,
    place: usize,
    table: TableValue,
    bytes: &'a [u8],
) -> Result<&'a [u8], AllocError> {
    let (Some(description), Some(width)) = (
        descriptions_of(class).get(place),
        width_at(class, place, table),
    ) else {
        return Ok(bytes);
    };
    if bytes.len() < width {
        return Ok(&[]);
    }
    let (front, rest) = bytes.split_at(width);
    object.key(description.name)?;
    match (description.kind, table) {
        (AttributeKind::Table, TableValue::Entry) => put_entry_json(alloc, object, front)?,
        _ => put_value_json(object, description.kind, front)?,
    }
    Ok(rest)
}

/// Puts an array with the names of the attributes that a mask names, or their numbers where the class hasn't such.
pub(crate) fn put_names_json(
    object: &mut Writer,
    key: &str,
    class: u16,
    mask: u16,
) -> Result<(), AllocError> {
    object.key(key)?;
    object.begin_array()?;
    for place in 0..16 {
        if names(mask, place) {
            match descriptions_of(class).get(place) {
                Some(description) => object.string(description.name)?,
                None => object.u64(place as u64 + 1)?,
            }
        }
    }
    object.end_array()
}
