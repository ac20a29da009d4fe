//! The value of an attribute in words.
use crate::bytes::HexWords;
use crate::dscp::DscpMapWords;
use crate::entry::EntryWords;
use managed_entity::{AttributeKind, Description};
use std::fmt::{self, Display};
use tag_view::DscpMap;
use vlan_rule::Entry;

/// The value of an attribute in words, from its bytes: numbers in decimal, pointers and TPIDs in hexadecimal, each with its word behind
/// it where it has one, as `3 (both)`; a mapping by the DSCPs whose priority isn't 0. Of a table it is one entry, 16 bytes, or its size,
/// four.
#[derive(Clone, Copy)]
pub struct ValueWords<'a> {
    pub attribute: &'a Description,
    pub bytes: &'a [u8],
}

/// The word of an attribute's value, given by its bytes, or None where it has none.
pub fn value_word(attribute: &Description, bytes: &[u8]) -> Option<&'static str> {
    let number = number_of(bytes);
    for named in attribute.values {
        if u64::from(named.value) == number {
            return Some(named.word);
        }
    }
    None
}

impl fmt::Display for ValueWords<'_> {
    fn fmt<W: fmt::Write>(&self, f: &mut fmt::Formatter<W>) -> fmt::Result {
        let number = number_of(self.bytes);
        match self.attribute.kind {
            AttributeKind::Number => write!(f, "{number}")?,
            AttributeKind::Pointer | AttributeKind::Tpid => write!(f, "0x{number:04x}")?,
            AttributeKind::DscpMapping => match mapping_of(self.bytes) {
                Some(map) => DscpMapWords(&map).fmt(f)?,
                None => HexWords(self.bytes).fmt(f)?,
            },
            AttributeKind::Table => match entry_of(self.bytes) {
                Some(entry) => EntryWords(&entry).fmt(f)?,
                None => write!(f, "{number} bytes")?,
            },
        }
        match value_word(self.attribute, self.bytes) {
            Some(word) => write!(f, " ({word})"),
            None => Ok(()),
        }
    }
}

/// The number that bytes spell, the highest first; of more than eight bytes, that of the last eight.
pub(crate) fn number_of(bytes: &[u8]) -> u64 {
    let mut number = 0u64;
    for byte in bytes {
        number = number << 8 | u64::from(*byte);
    }
    number
}

/// The mapping that 24 bytes are.
pub(crate) fn mapping_of(bytes: &[u8]) -> Option<DscpMap> {
    if bytes.len() != 24 {
        return None;
    }
    let mut map = [0; 24];
    map.copy_from_slice(bytes);
    Some(DscpMap(map))
}

/// The entry that 16 bytes are.
pub(crate) fn entry_of(bytes: &[u8]) -> Option<Entry> {
    if bytes.len() != 16 {
        return None;
    }
    let mut entry = [0; 16];
    entry.copy_from_slice(bytes);
    Some(Entry(entry))
}
