//! An entry of a VLAN table as members of an object of JSON.
use crate::bytes::HexWords;
use crate::filter::FilterWords;
use crate::json_text::{put_flag, put_number, put_text, put_words};
use crate::part::{Part, TagParts, added_parts, filter_parts, type_word};
use crate::treatment::TreatmentWords;
use crate::value::entry_of;
use json::Writer;
use std::alloc::{AllocError, Global};
use vlan_rule::{AddedTag, Entry, Filter, Retag, Rule, RuleTable, TagFilter, Treatment};

/// Puts the members of the entry at a place of a table: `place`, `rank`, `entry` in hexadecimal, and its rule. Where the table has no such
/// entry, it is the place alone.
pub fn put_table_entry(
    alloc: Global,
    object: &mut Writer,
    table: &RuleTable,
    place: usize,
) -> Result<(), AllocError> {
    put_number(object, "place", place as u64)?;
    let (Some(rule), Some(entry)) = (table.rule(place), table.entry(place)) else {
        return Ok(());
    };
    put_number(object, "rank", u64::from(rule.rank.number()))?;
    put_words(alloc, object, "entry", &HexWords(&entry.0))?;
    put_rule(alloc, object, rule)
}

/// Puts an object for the 16 bytes that are put into a table: `entry` in hexadecimal; and `deletes`, true, of a deletion, its rule of one that
/// is taken, or `fault` and `words`, why it is refused.
pub fn put_entry_json(alloc: Global, object: &mut Writer, bytes: &[u8]) -> Result<(), AllocError> {
    object.begin_object()?;
    put_words(alloc, object, "entry", &HexWords(bytes))?;
    if let Some(entry) = entry_of(bytes) {
        put_entry(alloc, object, &entry)?;
    }
    object.end_object()
}

fn put_entry(alloc: Global, object: &mut Writer, entry: &Entry) -> Result<(), AllocError> {
    if entry.is_deletion() {
        return put_flag(object, "deletes", true);
    }
    match Rule::read(entry) {
        Ok(rule) => put_rule(alloc, object, &rule),
        Err(fault) => {
            put_number(object, "fault", u64::from(fault.code()))?;
            put_words(alloc, object, "words", &fault)
        }
    }
}

/// Puts what a rule says: `filter` and `treatment`, objects, and beside them `filter_words` and `treatment_words`.
///
/// A filter has `tags`, 0 to 2; `default`, true, of one that is used where no other matches; of one or two tags that are filtered `inner`, of
/// two `outer` too; and `type`. A treatment has `drop`, true, or `remove`, and `outer` and `inner` where such a tag is added.
pub fn put_rule(alloc: Global, object: &mut Writer, rule: &Rule) -> Result<(), AllocError> {
    object.key("filter")?;
    object.begin_object()?;
    put_filter(object, &rule.filter)?;
    put_text(object, "type", type_word(rule.ethertype).unwrap_or("any"))?;
    object.end_object()?;
    put_words(alloc, object, "filter_words", &FilterWords(rule))?;
    object.key("treatment")?;
    object.begin_object()?;
    put_treatment(object, &rule.treatment)?;
    object.end_object()?;
    put_words(
        alloc,
        object,
        "treatment_words",
        &TreatmentWords(&rule.treatment),
    )
}

/// Puts which tags a frame must have.
fn put_filter(object: &mut Writer, filter: &Filter) -> Result<(), AllocError> {
    match filter {
        Filter::NoTag => put_number(object, "tags", 0),
        Filter::OneTagDefault => put_default(object, 1),
        Filter::TwoTagDefault => put_default(object, 2),
        Filter::OneTag(inner) => {
            put_number(object, "tags", 1)?;
            put_tag_filter(object, "inner", inner)
        }
        Filter::TwoTag { outer, inner } => {
            put_number(object, "tags", 2)?;
            put_tag_filter(object, "outer", outer)?;
            put_tag_filter(object, "inner", inner)
        }
    }
}

/// Puts so many tags, whatever they are.
fn put_default(object: &mut Writer, tags: u64) -> Result<(), AllocError> {
    put_number(object, "tags", tags)?;
    put_flag(object, "default", true)
}

fn put_tag_filter(object: &mut Writer, key: &str, filter: &TagFilter) -> Result<(), AllocError> {
    object.key(key)?;
    object.begin_object()?;
    put_parts(object, &filter_parts(filter))?;
    object.end_object()
}

/// Puts what becomes of the tags.
fn put_treatment(object: &mut Writer, treatment: &Treatment) -> Result<(), AllocError> {
    match treatment {
        Treatment::Discard => put_flag(object, "drop", true),
        Treatment::Retag(retag) => put_retag(object, retag),
    }
}

fn put_retag(object: &mut Writer, retag: &Retag) -> Result<(), AllocError> {
    put_number(object, "remove", u64::from(retag.remove))?;
    if let Some(outer) = &retag.outer {
        put_added_tag(object, "outer", outer)?;
    }
    if let Some(inner) = &retag.inner {
        put_added_tag(object, "inner", inner)?;
    }
    Ok(())
}

/// Puts an object with where the parts of an added tag come from: `priority`, `vid`, `tpid` and `dei`.
pub fn put_added_tag(object: &mut Writer, key: &str, tag: &AddedTag) -> Result<(), AllocError> {
    object.key(key)?;
    object.begin_object()?;
    put_parts(object, &added_parts(tag))?;
    object.end_object()
}

fn put_parts(object: &mut Writer, parts: &TagParts) -> Result<(), AllocError> {
    put_part(object, "priority", parts.priority)?;
    put_part(object, "vid", parts.vid)?;
    put_part(object, "tpid", parts.tpid)?;
    put_part(object, "dei", parts.dei)
}

/// Puts a number, or the name that stands for one.
fn put_part(object: &mut Writer, key: &str, part: Part) -> Result<(), AllocError> {
    let name = match part {
        Part::Number(number) | Part::Tpid(number) => {
            return put_number(object, key, u64::from(number));
        }
        Part::Any => "any",
        Part::Inner => "inner",
        Part::Outer => "outer",
        Part::Dscp => "dscp",
        Part::Input => "input",
        Part::Output => "output",
    };
    put_text(object, key, name)
}
