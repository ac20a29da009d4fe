//! Attributes of a class, by a mask.
use managed_entity::{Access, descriptions_of, layout_of, names};
use std::alloc::AllocError;
use text_entities::{EntryWords, HexWords, ValueWords};
use vlan_rule::Entry;

/// What stands for a table among values.
#[derive(Clone, Copy)]
pub(crate) enum TableValue {
    /// One entry, as in a Set.
    Entry,
    /// Its size in bytes, as in the answer to a Get.
    Size,
}

/// The number of bytes of the attribute at a place of a class, or None where the class hasn't so many.
pub(crate) fn width_at(class: u16, place: usize, table: TableValue) -> Option<usize> {
    let attribute = layout_of(class).get(place)?;
    if attribute.access.is_table() && matches!(table, TableValue::Size) {
        return Some(4);
    }
    Some(usize::from(attribute.width))
}

/// The mask of the attributes that Create is given.
pub(crate) fn given_mask(class: u16) -> u16 {
    let layout = layout_of(class);
    let mut mask = 0;
    for place in 0..layout.len().min(16) {
        if layout[place].access == Access::SetByCreate {
            mask |= 0x8000 >> place;
        }
    }
    mask
}

/// Puts a line for the attribute at a place, from the first of the bytes, and gives those behind it.
fn put_value<'a>(
    text: &mut String,
    class: u16,
    place: usize,
    table: TableValue,
    bytes: &'a [u8],
) -> Result<&'a [u8], AllocError> {
    let (Some(description), Some(width)) = (
        descriptions_of(class).get(place),
        width_at(class, place, table),
    ) else {
        put_foreign(text, place)?;
        return Ok(bytes);
    };
    let name = description.name;
    if bytes.len() < width {
        put_cut(text, name, width)?;
        return Ok(bytes);
    }
    let (front, rest) = bytes.split_at(width);
    let value = ValueWords {
        attribute: description,
        bytes: front,
    };
    writeln!(text, "  {name}: {value}")?;
    Ok(rest)
}

/// Puts a line for an attribute that the class hasn't.
fn put_foreign(text: &mut String, place: usize) -> Result<(), AllocError> {
    let number = place.wrapping_add(1);
    writeln!(text, "  attribute {number}: not of this class")
}

/// Puts a line for an attribute whose bytes end before its value does.
fn put_cut(text: &mut String, name: &str, width: usize) -> Result<(), AllocError> {
    writeln!(text, "  {name}: cut, expected {width} bytes")
}

/// Puts a line for each attribute that a mask names, its value from bytes without gaps, and gives the bytes behind them.
pub(crate) fn put_values<'a>(
    text: &mut String,
    class: u16,
    mask: u16,
    table: TableValue,
    bytes: &'a [u8],
) -> Result<&'a [u8], AllocError> {
    let mut rest = bytes;
    for place in 0..16 {
        if names(mask, place) {
            rest = put_value(text, class, place, table, rest)?;
        }
    }
    Ok(rest)
}

/// Puts a line with the names of the attributes that a mask names, if it names any; their numbers where the class has no
/// attributes that are known.
pub(crate) fn put_names(
    text: &mut String,
    front: &str,
    class: u16,
    mask: u16,
) -> Result<(), AllocError> {
    if mask == 0 {
        return Ok(());
    }
    write!(text, "  {front}: ")?;
    let is_known = !descriptions_of(class).is_empty();
    let mut separator = "";
    for place in 0..16 {
        if names(mask, place) {
            text.push_str(separator)?;
            put_name(text, class, place, is_known)?;
            separator = ", ";
        }
    }
    text.push_str("\n")
}

/// Puts the name of the attribute at a place, or its number where the class hasn't so many, or its attributes aren't known.
fn put_name(text: &mut String, class: u16, place: usize, is_known: bool) -> Result<(), AllocError> {
    let number = place.wrapping_add(1);
    match descriptions_of(class).get(place) {
        Some(description) => text.push_str(description.name),
        None if is_known => write!(text, "attribute {number}"),
        None => write!(text, "{number}"),
    }
}

/// Puts a line for an entry of a table, by its place.
pub(crate) fn put_entry(text: &mut String, place: u32, entry: &Entry) -> Result<(), AllocError> {
    let rule = EntryWords(entry);
    writeln!(text, "    {place}: {rule}")
}

/// Puts the values of attributes that aren't known, where one of their bytes isn't 0.
pub(crate) fn put_unknown_values(text: &mut String, values: &[u8]) -> Result<(), AllocError> {
    if values.iter().all(|byte| *byte == 0) {
        return Ok(());
    }
    let values = HexWords(values);
    writeln!(text, "  values: {values}")
}

/// Puts a line with bytes that aren't understood, where one of them isn't 0.
pub(crate) fn put_rest(text: &mut String, rest: &[u8]) -> Result<(), AllocError> {
    if rest.iter().all(|byte| *byte == 0) {
        return Ok(());
    }
    let rest = HexWords(rest);
    writeln!(text, "  rest: {rest}")
}

/// Puts a line with contents that aren't understood at all.
pub(crate) fn put_contents(text: &mut String, contents: &[u8]) -> Result<(), AllocError> {
    let contents = HexWords(contents);
    writeln!(text, "  contents: {contents}")
}
