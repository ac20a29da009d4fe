//! An entry of a VLAN table in words.
use crate::attributes::mask_with;
use crate::entity::{Entity, read_entity};
use crate::header::Header;
use crate::message::{Asked, begun_with};
use managed_entity::{Access, Class};
use omci_msg::Action;
use std::alloc::AllocError;
use text_rules::RuleAsked;
use text_words::{Mistake, Mistakes, Why, Word, Words};
use vlan_rule::{Entry, Rule};

/// The entry that deletes the one with the same filter.
fn deletion_of(entry: Entry) -> Entry {
    let mut bytes = [0xff; 16];
    bytes[..8].copy_from_slice(&entry.0[..8]);
    Entry(bytes)
}

/// The contents of a set of one entry of a table.
fn contents_of(class: Class, entry: Entry) -> [u8; 32] {
    let mut contents = begun_with(mask_with(class, Access::Table));
    contents[2..18].copy_from_slice(&entry.0);
    contents
}

/// That an entity has a table, whose class this word names.
fn check_table(entity: Entity, class: Word<'_>) -> Result<Class, Mistake<'_>> {
    match Class::of(entity.class) {
        Some(Class::Vlan) => Ok(Class::Vlan),
        _ => Err(class.mistake(Why::Rule {
            words: "only the class vlan has a table of entries",
        })),
    }
}

/// The rule of an entry, or that by whose filter one is removed. None where a word before has a mistake. The line ends in front of the
/// column `end`.
fn rule_of<'a>(
    end: usize,
    is_removal: bool,
    asked: &RuleAsked,
    mistakes: &Mistakes,
) -> Result<Option<Rule>, Mistake<'a>> {
    if !mistakes.is_clean() {
        return Ok(None);
    }
    let rule = if is_removal {
        asked.filter_alone(end)?
    } else {
        asked.rule(end)?
    };
    Ok(Some(rule))
}

/// `entry CLASS INSTANCE FILTER -> TREATMENT` or `remove-entry CLASS INSTANCE FILTER`, behind its first word.
pub(crate) fn read_entry(
    first: Word<'_>,
    is_removal: bool,
    words: Words<'_>,
    mistakes: &mut Mistakes,
) -> Result<Option<Asked>, AllocError> {
    let (mut words, mut ahead) = (words, words);
    let named = ahead.next().unwrap_or(first);
    let Some(entity) = read_entity(&mut words, mistakes)? else {
        return Ok(None);
    };
    let class = mistakes.take(check_table(entity, named))?;
    let (mut header, mut asked) = (Header::NEW, RuleAsked::NEW);
    for word in words {
        let taken = header.take(word);
        if mistakes.take(taken)? == Some(false) {
            asked.take(word, mistakes)?;
        }
    }
    let Some(class) = class else {
        return Ok(None);
    };
    let Some(rule) = mistakes
        .take(rule_of(words.end(), is_removal, &asked, mistakes))?
        .flatten()
    else {
        return Ok(None);
    };
    let entry = rule.spell();
    let entry = if is_removal {
        deletion_of(entry)
    } else {
        entry
    };
    Ok(Some(Asked {
        header,
        action: Action::Set,
        entity,
        contents: contents_of(class, entry),
    }))
}
