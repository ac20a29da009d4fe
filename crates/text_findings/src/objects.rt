//! Findings as JSON.
use crate::entity_finding::{EntityFinding, Found};
use crate::idle::IdleGemPort;
use crate::subject::subject_of;
use crate::words::{FoundWords, entry_number};
use explain_findings::Finding;
use frame_meaning::Reason;
use json::Writer;
use managed_entity::{Class, descriptions_of};
use mib_state::Mib;
use omci_msg::Action;
use std::alloc::{AllocError, Global};
use std::io::Write;
use text_entities::{JsonText, put_number, put_text, put_words, standard_class_name, value_word};
use text_finding_kinds::Kind;
use text_messages::{action_name, result_name};
use text_trace_findings::{Head, Missing, TraceFault, TraceFinding};
use text_writing::TextFault;

/// Writes the findings as one object of JSON (RFC 8259): `format`, which is 1, and `findings`, an array with an object for each, on
/// a line of its own. Of an instance it has `class`, `instance`, `kind`, `severity`, the numbers that the finding names, and `words`;
/// of a line of the trace `line`, `kind`, `severity`, what the finding names, and `words`.
pub fn write_findings_json<W: Write>(
    alloc: Global,
    mib: &Mib,
    findings: &[EntityFinding],
    trace: &[TraceFinding],
    writer: &mut W,
) -> Result<(), TextFault> {
    let mut text = JsonText::new(alloc);
    text.begin(writer, "{\"format\":1,\"findings\":")?;
    for each in findings {
        let mut object = text.object()?;
        put_finding(alloc, &mut object, mib, each)?;
        text.write(writer, object)?;
    }
    for found in trace {
        let mut object = text.object()?;
        put_trace(alloc, &mut object, *found)?;
        text.write(writer, object)?;
    }
    text.end(writer, "}")
}

/// Puts a finding.
fn put_finding(
    alloc: Global,
    object: &mut Writer,
    mib: &Mib,
    each: &EntityFinding,
) -> Result<(), AllocError> {
    let found = each.found;
    let subject = subject_of(mib, found);
    put_number(object, "class", u64::from(subject.class.number()))?;
    put_number(object, "instance", u64::from(subject.instance))?;
    put_kind(object, each.kind)?;
    match found {
        Found::Claimed(finding) => put_numbers(alloc, object, mib, finding)?,
        Found::Idle(idle) => put_idle(object, &idle)?,
    }
    put_words(alloc, object, "words", &FoundWords { mib, found })
}

/// Puts the mapper that leads to a GEM port that no frame comes by, and the priorities by which it does.
fn put_idle(object: &mut Writer, idle: &IdleGemPort) -> Result<(), AllocError> {
    put_number(object, "mapper", u64::from(idle.mapper))?;
    object.key("priorities")?;
    object.begin_array()?;
    for priority in 0..8 {
        if idle.priorities.has(priority) {
            object.u64(u64::from(priority))?;
        }
    }
    object.end_array()
}

/// Puts a pointer: its number, and the name of its attribute, that at a place of a class.
fn put_pointer(
    object: &mut Writer,
    class: Class,
    place: usize,
    pointer: u16,
) -> Result<(), AllocError> {
    put_number(object, "pointer", u64::from(pointer))?;
    match descriptions_of(class.number()).get(place) {
        Some(description) => put_text(object, "attribute", description.name),
        None => Ok(()),
    }
}

/// Puts a kind and its severity.
fn put_kind(object: &mut Writer, kind: Kind) -> Result<(), AllocError> {
    put_text(object, "kind", kind.word)?;
    put_text(object, "severity", kind.severity.word())
}

/// Puts the numbers that a finding names.
fn put_numbers(
    alloc: Global,
    object: &mut Writer,
    mib: &Mib,
    finding: Finding,
) -> Result<(), AllocError> {
    match finding {
        Finding::SecondMapper { port, in_force, .. }
        | Finding::SecondTable { port, in_force, .. } => {
            put_number(object, "port", u64::from(port))?;
            put_number(object, "in_force", u64::from(in_force))
        }
        Finding::PortDrops { port, reason } => {
            put_number(object, "port", u64::from(port))?;
            put_reason(alloc, object, reason)
        }
        Finding::PortCarriesNone { port } => put_number(object, "port", u64::from(port)),
        Finding::MissingMapper { pointer, .. } => put_pointer(object, Class::Vlan, 6, pointer),
        Finding::MissingGemPort { pointer, .. } => put_pointer(
            object,
            Class::Interwork,
            0,
            pointer,
        ),
        Finding::MissingServiceProfile { pointer, .. } => {
            put_pointer(object, Class::Interwork, 2, pointer)
        }
        Finding::NotUpstream { direction, .. } => {
            put_number(object, "direction", u64::from(direction))?;
            put_direction_words(object, direction)
        }
        Finding::SharedPortId { port_id, first, .. } => {
            put_number(object, "port_id", u64::from(port_id))?;
            put_number(object, "first", u64::from(first))
        }
        Finding::UnusedEntry {
            table,
            place,
            shadow,
        } => put_unused(object, mib, table, place, shadow),
        _ => put_priority(alloc, object, finding),
    }
}

/// Puts the reason for which frames are dropped, and it in words.
fn put_reason(alloc: Global, object: &mut Writer, reason: Reason) -> Result<(), AllocError> {
    put_number(object, "reason", u64::from(reason.code()))?;
    put_words(alloc, object, "reason_words", &reason)
}

/// Puts the word of a GEM port network CTP's direction, its third attribute, if it has one.
fn put_direction_words(object: &mut Writer, direction: u8) -> Result<(), AllocError> {
    match descriptions_of(Class::GemPort.number()).get(2) {
        Some(description) => match value_word(description, &[direction]) {
            Some(word) => put_text(object, "direction_words", word),
            None => Ok(()),
        },
        None => Ok(()),
    }
}

/// Puts the numbers of a finding about a priority.
fn put_priority(alloc: Global, object: &mut Writer, finding: Finding) -> Result<(), AllocError> {
    match finding {
        Finding::NullPointer { priority, .. } => {
            put_number(object, "priority", u64::from(priority))?;
            put_reason(alloc, object, Reason::NullPointer)
        }
        Finding::MissingInterwork {
            priority,
            pointer,
            ..
        } => {
            put_number(object, "priority", u64::from(priority))?;
            let place = usize::from(priority).saturating_add(1);
            put_pointer(object, Class::Mapper, place, pointer)?;
            put_reason(alloc, object, Reason::NoInterwork)
        }
        Finding::UncarriedPriority {
            priority,
            reason,
            ..
        } => {
            put_number(object, "priority", u64::from(priority))?;
            put_reason(alloc, object, reason)
        }
        _ => Ok(()),
    }
}

/// Puts an entry that is never used, and the one that admits all that it admits, each by its place and its number.
fn put_unused(
    object: &mut Writer,
    mib: &Mib,
    table: u16,
    place: usize,
    shadow: usize,
) -> Result<(), AllocError> {
    put_number(object, "place", place as u64)?;
    if let Some(number) = entry_number(mib, table, place) {
        put_number(object, "number", number as u64)?;
    }
    match entry_number(mib, table, shadow) {
        Some(number) => put_number(object, "never_used_for", number as u64),
        None => Ok(()),
    }
}

/// Puts a finding of a trace.
fn put_trace(alloc: Global, object: &mut Writer, found: TraceFinding) -> Result<(), AllocError> {
    if let Some(line) = found.line {
        put_number(object, "line", line)?;
    }
    put_kind(object, found.kind())?;
    put_named(alloc, object, found.fault)?;
    put_words(alloc, object, "words", &found.fault)
}

/// Puts what a finding of a trace names.
fn put_named(alloc: Global, object: &mut Writer, fault: TraceFault) -> Result<(), AllocError> {
    match fault {
        TraceFault::Empty => Ok(()),
        TraceFault::Faulty { head, fault } => {
            put_head(object, head)?;
            put_number(object, "fault", u64::from(fault.code()))
        }
        TraceFault::Refused { head, code, why } => {
            put_head(object, head)?;
            put_number(object, "result", u64::from(code))?;
            put_text(object, "result_name", result_name(code))?;
            put_words(alloc, object, "why_words", &why)
        }
        TraceFault::NotModelled { missing, messages } => {
            put_missing(object, missing)?;
            put_number(object, "messages", messages)
        }
        TraceFault::Bridged { mapper, uni } => {
            put_number(object, "mapper", u64::from(mapper))?;
            match uni {
                Some(uni) => put_number(object, "uni", u64::from(uni)),
                None => Ok(()),
            }
        }
        TraceFault::EntryNotHeld { table, key } | TraceFault::CopyOfNoTag { table, key } => {
            put_key(alloc, object, table, key)
        }
        TraceFault::EntryOverwritten { table, key, set_by } => {
            put_key(alloc, object, table, key)?;
            put_number(object, "set_by", set_by)
        }
    }
}

/// Puts what the model doesn't have.
fn put_missing(object: &mut Writer, missing: Missing) -> Result<(), AllocError> {
    match missing {
        Missing::Class(class) => put_class(object, class),
        Missing::Action(action) => put_action(object, action),
    }
}

/// Puts what a message says of itself.
fn put_head(object: &mut Writer, head: Head) -> Result<(), AllocError> {
    if let Some(action) = head.action {
        put_action(object, action)?;
    }
    if let Some(class) = head.class {
        put_class(object, class)?;
    }
    match head.instance {
        Some(instance) => put_number(object, "instance", u64::from(instance)),
        None => Ok(()),
    }
}

/// Puts an action: `action_code`, and `action`, its name, where it has one.
fn put_action(object: &mut Writer, action: Action) -> Result<(), AllocError> {
    put_number(object, "action_code", u64::from(action.code()))?;
    match action_name(action) {
        Some(name) => put_text(object, "action", name),
        None => Ok(()),
    }
}

/// Puts a class, and its name where it is a common one.
fn put_class(object: &mut Writer, class: u16) -> Result<(), AllocError> {
    put_number(object, "class", u64::from(class))?;
    match standard_class_name(class) {
        Some(name) => put_text(object, "class_name", name),
        None => Ok(()),
    }
}

/// Puts a table and a key, in 16 hexadecimal digits.
fn put_key(alloc: Global, object: &mut Writer, table: u16, key: u64) -> Result<(), AllocError> {
    put_number(object, "table", u64::from(table))?;
    let digits = format!(in alloc; "{key:016x}")?;
    put_text(object, "key", &digits)
}
