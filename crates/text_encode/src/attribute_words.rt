//! The values of attributes in words.
use crate::attributes::FIRST_POINTER;
use managed_entity::{AttributeKind, Class, Description, names};
use std::alloc::AllocError;
use tag_view::DscpMap;

/// The mask of a mapper's eight interwork TP pointers.
const POINTERS: u16 = 0x7f80;

/// The number of one byte or two.
fn number_of(bytes: &[u8]) -> u16 {
    match bytes {
        [only] => u16::from(*only),
        [high, low] => u16::from_be_bytes([*high, *low]),
        _ => 0,
    }
}

/// The mapping that 24 bytes are.
fn mapping_of(bytes: &[u8]) -> Option<DscpMap> {
    if bytes.len() != 24 {
        return None;
    }
    let mut map = [0; 24];
    map.copy_from_slice(bytes);
    Some(DscpMap(map))
}

/// The last DSCP from this one on with the same priority as all from it on.
fn last_alike(map: &DscpMap, first: u8) -> u8 {
    let mut last = first;
    for dscp in first..64 {
        if map.get(dscp) != map.get(first) {
            break;
        }
        last = dscp;
    }
    last
}

/// Puts a mapping: `46:5,8-15:1`, or `0-63:0` where all priorities are 0.
fn put_mapping(text: &mut String, map: &DscpMap) -> Result<(), AllocError> {
    let mut separator = "";
    let mut next = 0;
    for dscp in 0..64 {
        let priority = map.get(dscp);
        if dscp < next || priority == 0 {
            continue;
        }
        let last = last_alike(map, dscp);
        if last == dscp {
            write!(text, "{separator}{dscp}:{priority}")?;
        } else {
            write!(text, "{separator}{dscp}-{last}:{priority}")?;
        }
        next = last.saturating_add(1);
        separator = ",";
    }
    if separator.is_empty() {
        text.push_str("0-63:0")?;
    }
    Ok(())
}

/// What a value is called, if it has a word.
fn named(description: &Description, number: u16) -> Option<&'static str> {
    let named = description.values.iter().find(|it| it.value == number)?;
    Some(named.word)
}

/// Puts a number, or what it is called.
fn put_number(text: &mut String, description: &Description, number: u16) -> Result<(), AllocError> {
    match (named(description, number), description.kind) {
        (Some(word), _) => text.push_str(word),
        (None, AttributeKind::Number) => write!(text, "{number}"),
        (None, _) => write!(text, "0x{number:04x}"),
    }
}

/// Puts ` ATTRIBUTE=VALUE`. Whether it has words: a table has none.
fn put_value(
    text: &mut String,
    description: &Description,
    bytes: &[u8],
) -> Result<bool, AllocError> {
    let (word, number) = (description.word, number_of(bytes));
    write!(text, " {word}=")?;
    match description.kind {
        AttributeKind::Number | AttributeKind::Pointer | AttributeKind::Tpid => {
            put_number(text, description, number)?;
        }
        AttributeKind::DscpMapping => match mapping_of(bytes) {
            Some(map) => put_mapping(text, &map)?,
            None => return Ok(false),
        },
        AttributeKind::Table => return Ok(false),
    }
    Ok(true)
}

/// The value that all eight interwork TP pointers of a mapper have, if a mask names them all and they are alike, and the bytes behind
/// them.
fn alike_pointers(class: Class, mask: u16, bytes: &[u8]) -> Option<(&[u8], &[u8])> {
    if class != Class::Mapper || mask & POINTERS != POINTERS || bytes.len() < 16 {
        return None;
    }
    let (pointers, behind) = bytes.split_at(16);
    let (first, _) = pointers.split_at(2);
    if pointers.chunks(2).all(|pointer| pointer == first) {
        Some((first, behind))
    } else {
        None
    }
}

/// Puts ` p0-7=VALUE`.
fn put_pointers(text: &mut String, class: Class, value: &[u8]) -> Result<(), AllocError> {
    let Some(description) = class.descriptions().get(FIRST_POINTER) else {
        return Ok(());
    };
    text.push_str(" p0-7=")?;
    put_number(text, description, number_of(value))
}

/// Puts ` ATTRIBUTE=VALUE` for each attribute of a mask, from bytes without gaps; at Create not for one that is 0. Whether all of
/// them have words and lie within the bytes.
pub(crate) fn put_values(
    text: &mut String,
    class: Class,
    mask: u16,
    at_create: bool,
    bytes: &[u8],
) -> Result<bool, AllocError> {
    let mut rest = bytes;
    let mut next = 0;
    for (place, attribute) in class.layout().iter().enumerate() {
        if place < next || !names(mask, place) {
            continue;
        }
        if place == FIRST_POINTER {
            if let Some((value, behind)) = alike_pointers(class, mask, rest) {
                if !at_create || value != [0, 0].as_slice() {
                    put_pointers(text, class, value)?;
                }
                rest = behind;
                next = FIRST_POINTER + 8;
                continue;
            }
        }
        let width = usize::from(attribute.width);
        let (Some(description), true) = (class.descriptions().get(place), width <= rest.len())
        else {
            return Ok(false);
        };
        let (value, behind) = rest.split_at(width);
        let is_usual = at_create && value.iter().all(|byte| *byte == 0);
        if !is_usual && !put_value(text, description, value)? {
            return Ok(false);
        }
        rest = behind;
    }
    Ok(true)
}

/// Puts ` ATTRIBUTE` for each attribute of a mask.
pub(crate) fn put_names(text: &mut String, class: Class, mask: u16) -> Result<(), AllocError> {
    for (place, description) in class.descriptions().iter().enumerate() {
        if names(mask, place) {
            write!(text, " {}", description.word)?;
        }
    }
    Ok(())
}
