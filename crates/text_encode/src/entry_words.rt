//! An entry of a VLAN table in words.
use managed_entity::Class;
use std::alloc::AllocError;
use text_rules::{put_filter, put_treatment};
use vlan_rule::{Entry, Rule};

/// The entry with this key that drops frames, by which the filter of a deletion is read.
fn dropping(entry: &Entry) -> Entry {
    let mut bytes = [0; 16];
    bytes[..8].copy_from_slice(&entry.0[..8]);
    bytes[8] = 0xc0;
    Entry(bytes)
}

/// The rule that an entry means, or whose filter a deletion names. None where it has no words: it is refused.
fn rule_in(entry: &Entry) -> Option<Rule> {
    let read = if entry.is_deletion() {
        Rule::read(&dropping(entry))
    } else {
        Rule::read(entry)
    };
    read.ok()
}

/// Puts the words of a set of one entry: `entry CLASS INSTANCE FILTER -> TREATMENT`, or `remove-entry CLASS INSTANCE FILTER`. Whether
/// it has words.
pub(crate) fn put_entry(
    text: &mut String,
    class: Class,
    instance: u16,
    entry: &Entry,
) -> Result<bool, AllocError> {
    let Some(rule) = rule_in(entry) else {
        return Ok(false);
    };
    let (word, is_deletion) = (class.word(), entry.is_deletion());
    let statement = if is_deletion { "remove-entry" } else { "entry" };
    write!(text, "{statement} {word} 0x{instance:04x}")?;
    put_filter(text, &rule)?;
    if !is_deletion {
        text.push_str(" ->")?;
        put_treatment(text, &rule.treatment)?;
    }
    Ok(true)
}
