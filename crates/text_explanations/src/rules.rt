//! The table in force at a port, as text.
use crate::traced::{PortEntries, Traced};
use crate::words::entity_of;
use arrayvec::ArrayVec;
use explain::{TableInForce, number_of, shadow_of, table_in_force, tried_order};
use managed_entity::Class;
use std::alloc::{AllocError, Global};
use std::fmt::Display;
use std::io::Write;
use text_entities::{ANY_PARTS, TagParts, TpidCell, added_parts, filter_parts, type_word};
use text_writing::{TextFault, write_whole};
use vlan_rule::{AddedTag, Filter, RuleTable, Treatment};

/// What stands above the columns, and their names.
const HEADER: &str = "
                    outer filter     inner filter                  added outer tag        added inner tag
  # place rank tags PCP VID  TPID/DE PCP VID  TPID/DE type  remove PCP   VID   TPID/DE    PCP   VID   TPID/DE    line
";

/// After how many bytes a line of numbers is broken.
const BROKEN: usize = 100;

/// Writes the table in force at a port: a line that names it and says why it is in force, one with its TPIDs, and then a table with a row
/// for each entry, in the order in which entries are tried for a frame: its number in that order and its place in the table, each from 0, its
/// rank, what it filters by, what it removes and adds, and the line of the trace that set it. `*` is any, and `-` what an entry hasn't.
/// Below it stand the entries of which is known that they are used for no frame, with an earlier one that admits all that they admit.
pub fn write_rules<W: Write>(
    alloc: Global,
    traced: &Traced<'_>,
    port: u16,
    writer: &mut W,
) -> Result<(), TextFault> {
    let mut text = String::new(alloc);
    put_force(&mut text, port, table_in_force(traced.mib, port))?;
    if let Some(entries) = PortEntries::at(traced, port) {
        put_tpids(&mut text, traced, &entries)?;
        put_rows(&mut text, &entries)?;
        put_shadows(&mut text, entries.table)?;
    }
    write_whole(writer, text.as_bytes())?;
    Ok(())
}

/// Puts a line with which table is in force at a port, and why.
pub(crate) fn put_force(
    text: &mut String,
    port: u16,
    force: TableInForce,
) -> Result<(), AllocError> {
    match force {
        TableInForce::NoTable => {
            writeln!(
                text,
                "table: none is in force at port {port}, tags stay as they are"
            )
        }
        TableInForce::OfPort(instance) => {
            let entity = entity_of(Class::Vlan, instance);
            writeln!(text, "table: {entity} points to port {port}")
        }
        TableInForce::OfMapper { mapper, instance } => {
            let entity = entity_of(Class::Vlan, instance);
            let mapper = entity_of(Class::Mapper, mapper);
            writeln!(text, "table: {entity} points to {mapper} of port {port}")
        }
    }
}

/// Puts a line with what the input and the output TPID are.
fn put_tpids(
    text: &mut String,
    traced: &Traced<'_>,
    entries: &PortEntries<'_>,
) -> Result<(), AllocError> {
    match traced.mib.vlan(entries.instance) {
        Some(vlan) => writeln!(
            text,
            "input TPID 0x{:04x}, output TPID 0x{:04x}",
            vlan.settings.input_tpid, vlan.settings.output_tpid
        ),
        None => Ok(()),
    }
}

/// Puts the header and a row for each entry.
fn put_rows(text: &mut String, entries: &PortEntries<'_>) -> Result<(), AllocError> {
    text.push_str(HEADER)?;
    for (number, place) in tried_order(entries.table).iter().enumerate() {
        put_row(text, entries, number, *place)?;
    }
    Ok(())
}

/// Puts the row of an entry.
fn put_row(
    text: &mut String,
    entries: &PortEntries<'_>,
    number: usize,
    place: usize,
) -> Result<(), AllocError> {
    let Some(rule) = entries.table.rule(place) else {
        return Ok(());
    };
    let rank = rule.rank.number();
    write!(text, "{number:>3} {place:>5} {rank:>4} ")?;
    put_filter(text, &rule.filter)?;
    put_cell(text, 5, &type_word(rule.ethertype).unwrap_or("*"))?;
    put_treatment(text, &rule.treatment)?;
    match entries.line(place) {
        Some(line) => writeln!(text, "{line}"),
        None => text.push_str("-\n"),
    }
}

/// Puts a cell, with spaces up to its width and one behind it.
fn put_cell<D: Display>(text: &mut String, width: usize, cell: &D) -> Result<(), AllocError> {
    let end = text.len().saturating_add(width);
    write!(text, "{cell}")?;
    for _ in text.len()..end {
        text.push(' ')?;
    }
    text.push(' ')
}

/// Puts the cells for which tags a frame must have.
fn put_filter(text: &mut String, filter: &Filter) -> Result<(), AllocError> {
    let (tags, outer, inner) = match filter {
        Filter::NoTag => (0, None, None),
        Filter::OneTagDefault => (1, None, Some(ANY_PARTS)),
        Filter::TwoTagDefault => (2, Some(ANY_PARTS), Some(ANY_PARTS)),
        Filter::OneTag(inner) => (1, None, Some(filter_parts(inner))),
        Filter::TwoTag { outer, inner } => {
            (2, Some(filter_parts(outer)), Some(filter_parts(inner)))
        }
    };
    write!(text, "{tags:>4} ")?;
    put_tag(text, [3, 4, 7], &outer)?;
    put_tag(text, [3, 4, 7], &inner)
}

/// Puts the cells for a tag, of these widths, or for none.
fn put_tag(
    text: &mut String,
    widths: [usize; 3],
    tag: &Option<TagParts>,
) -> Result<(), AllocError> {
    let [priority, vid, tpid] = widths;
    match tag {
        Some(parts) => {
            put_cell(text, priority, &parts.priority)?;
            put_cell(text, vid, &parts.vid)?;
            put_cell(text, tpid, &TpidCell(parts))
        }
        None => {
            put_cell(text, priority, &"-")?;
            put_cell(text, vid, &"-")?;
            put_cell(text, tpid, &"-")
        }
    }
}

/// Puts the cells for what becomes of the tags.
fn put_treatment(text: &mut String, treatment: &Treatment) -> Result<(), AllocError> {
    let (outer, inner) = match treatment {
        Treatment::Discard => {
            put_cell(text, 6, &"drop")?;
            (None, None)
        }
        Treatment::Retag(retag) => {
            put_cell(text, 6, &retag.remove)?;
            (parts_of(&retag.outer), parts_of(&retag.inner))
        }
    };
    put_tag(text, [5, 5, 10], &outer)?;
    put_tag(text, [5, 5, 10], &inner)
}

fn parts_of(added: &Option<AddedTag>) -> Option<TagParts> {
    match added {
        Some(tag) => Some(added_parts(tag)),
        None => None,
    }
}

/// Puts which entries are known to be used for no frame: a line for each entry that admits all that others admit.
fn put_shadows(text: &mut String, table: &RuleTable) -> Result<(), AllocError> {
    let mut shadows = ArrayVec::<Option<usize>, 128>::new();
    for place in &tried_order(table) {
        let _ = shadows.try_push(shadow_number(table, *place));
    }
    for number in 0..shadows.len() {
        put_shadow(text, &shadows, number)?;
    }
    Ok(())
}

/// Puts the numbers of the entries, if there are such, of which the one of a number is the first that admits all that they admit.
fn put_shadow(
    text: &mut String,
    shadows: &[Option<usize>],
    number: usize,
) -> Result<(), AllocError> {
    let mut start = text.len();
    let mut separator = "";
    for (hidden, shadow) in shadows.iter().enumerate() {
        if *shadow != Some(number) {
            continue;
        }
        if separator.is_empty() {
            write!(
                text,
                "never used, since entry {number} admits all their frames:"
            )?;
        }
        text.push_str(separator)?;
        if text.len().saturating_sub(start) > BROKEN {
            start = text.len();
            text.push_str("\n ")?;
        }
        write!(text, " {hidden}")?;
        separator = ",";
    }
    if separator.is_empty() {
        return Ok(());
    }
    text.push_str("\n")
}

/// The number of an earlier entry that admits all that the one at a place admits.
pub(crate) fn shadow_number(table: &RuleTable, place: usize) -> Option<usize> {
    number_of(table, shadow_of(table, place)?)
}
