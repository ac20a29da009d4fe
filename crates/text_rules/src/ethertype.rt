//! The type of a frame, or the filter of one, in words.
use crate::instead::{TYPES, is_hexadecimal};
use text_words::{Mistake, Why, Word, number_at_most, read_number};
use vlan_rule::EthertypeFilter;

/// The words for what the type behind a frame's tags must be.
const FILTERS: &[&str] = &["any", "ipv4", "pppoe", "arp", "ipv6", "eapol"];

/// The same where a number may stand in their place. The last is no word, since it has blanks; it is said among those that are allowed.
const EXPECTED: &[&str] = &[
    "any",
    "ipv4",
    "pppoe",
    "arp",
    "ipv6",
    "eapol",
    "a number as 0x0800",
];

/// What the type behind a frame's tags is expected to be.
#[derive(Clone, Copy)]
pub enum TypeSaid {
    /// As an entry filters by it.
    Class(EthertypeFilter),
    /// This one.
    Number(u16),
}

/// The filter whose word stands at a place of [`FILTERS`].
fn filter_at(place: usize) -> EthertypeFilter {
    match place {
        0 => EthertypeFilter::Any,
        1 => EthertypeFilter::Ipv4,
        2 => EthertypeFilter::Pppoe,
        3 => EthertypeFilter::Arp,
        4 => EthertypeFilter::Ipv6,
        _ => EthertypeFilter::Eapol,
    }
}

/// What the type behind a frame's tags must be, as an entry filters by it.
pub(crate) fn read_filter(word: Word<'_>) -> Result<EthertypeFilter, Mistake<'_>> {
    if is_hexadecimal(word) {
        return Err(word.mistake(Why::Unexpected {
            found: word.text,
            expected: TYPES,
        }));
    }
    Ok(filter_at(word.one_of(FILTERS)?))
}

/// What the type behind a frame's tags is expected to be, by a word or a number.
pub fn read_type(word: Word<'_>) -> Result<TypeSaid, Mistake<'_>> {
    if read_number(word.text).is_some() {
        return Ok(TypeSaid::Number(number_at_most(word, "a type", u16::MAX)?));
    }
    Ok(TypeSaid::Class(filter_at(word.one_of(EXPECTED)?)))
}

/// The word for what the type behind a frame's tags must be.
pub(crate) fn filter_word(filter: EthertypeFilter) -> &'static str {
    match filter {
        EthertypeFilter::Any => "any",
        EthertypeFilter::Ipv4 => "ipv4",
        EthertypeFilter::Pppoe => "pppoe",
        EthertypeFilter::Arp => "arp",
        EthertypeFilter::Ipv6 => "ipv6",
        EthertypeFilter::Eapol => "eapol",
    }
}
