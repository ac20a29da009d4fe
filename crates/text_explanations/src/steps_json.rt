//! Why a frame goes where it goes, as JSON.
use crate::failures::failures_of;
use crate::steps::{Incoming, dscp_of, is_of_dscp};
use crate::traced::{PortEntries, Traced};
use crate::verdict::{FrameDigits, VerdictWords};
use crate::words::{MismatchWords, OriginWords, direction_word, mismatch_name};
use explain::{OutgoingTag, PriorityOrigin, Step, TableInForce, TagOrigin, explain};
use frame_meaning::Verdict;
use json::Writer;
use managed_entity::Class;
use std::alloc::{AllocError, Global};
use std::io::Write;
use text_entities::{JsonText, put_added_tag, put_number, put_rule, put_text, put_words};
use text_messages::{put_tag_json, put_view_json};
use text_writing::{TextFault, write_whole};

/// What the steps of an explanation are written with.
#[derive(Clone, Copy)]
struct Scene<'a> {
    /// The table in force, if one is.
    entries: Option<PortEntries<'a>>,
    /// The frame's DSCP, if it has one.
    dscp: Option<u8>,
    /// The number of the port's mapper, if it has one.
    mapper: Option<u16>,
}

/// Writes why a frame that comes in at a port goes where it goes as one object of JSON (RFC 8259): `format`, 1; `port`; `failures`, an array
/// of how many entries fail by which field; and `steps`, an array with an object for each step, on a line of its own, whose member `step` is
/// the name of the step: `table`, `read`, `failed`, `used`, `tags`, `mapper`, `priority`, `pointer`, `interworking`, `gem_port` and, always
/// the last, `verdict`. Its other members are what the step says; the verdict has `answer`, the line that a replay answers.
pub fn write_explanation_json<W: Write>(
    alloc: Global,
    traced: &Traced<'_>,
    incoming: &Incoming<'_>,
    writer: &mut W,
) -> Result<(), TextFault> {
    let steps = explain(alloc, traced.mib, incoming.port, incoming.bytes)?;
    let scene = Scene {
        entries: PortEntries::at(traced, incoming.port),
        dscp: dscp_of(&steps),
        mapper: traced.mib.mapper_of_port(incoming.port),
    };
    let mut text = JsonText::new(alloc);
    let port = incoming.port;
    let front = format!(in alloc; "{{\"format\":2,\"port\":{port},\"failures\":")?;
    write_whole(writer, front.as_bytes())?;
    write_failures(alloc, &steps, writer)?;
    text.begin(writer, ",\"steps\":")?;
    for step in &steps {
        write_step(alloc, &mut text, &scene, step, writer)?;
    }
    text.end(writer, "}")
}

/// Writes how many entries fail, by each field by which one does.
fn write_failures<W: Write>(
    alloc: Global,
    steps: &[Step<'_>],
    writer: &mut W,
) -> Result<(), TextFault> {
    let mut array = Writer::new(Vec::new(alloc));
    array.begin_array()?;
    for failures in &failures_of(alloc, steps)? {
        array.begin_object()?;
        put_number(&mut array, "entries", failures.entries as u64)?;
        put_text(&mut array, "field", mismatch_name(failures.field))?;
        put_words(
            alloc,
            &mut array,
            "field_words",
            &MismatchWords(failures.field),
        )?;
        array.end_object()?;
    }
    array.end_array()?;
    write_whole(writer, &array.into_inner())?;
    Ok(())
}

/// Writes a step as an object.
fn write_step<W: Write>(
    alloc: Global,
    text: &mut JsonText,
    scene: &Scene<'_>,
    step: &Step<'_>,
    writer: &mut W,
) -> Result<(), TextFault> {
    let mut object = text.object()?;
    put_text(&mut object, "step", name_of(step))?;
    put_step(alloc, &mut object, scene, step)?;
    text.write(writer, object)
}

/// What a step is called.
fn name_of(step: &Step<'_>) -> &'static str {
    match step {
        Step::Table(_) => "table",
        Step::Read(_) => "read",
        Step::Failed { .. } => "failed",
        Step::Used { .. } => "used",
        Step::Tags(_) => "tags",
        Step::Mapper(_) => "mapper",
        Step::Priority { .. } => "priority",
        Step::Pointer(_) => "pointer",
        Step::Interwork { .. } => "interworking",
        Step::GemPort { .. } => "gem_port",
        Step::Verdict(_) => "verdict",
    }
}

/// Puts what a step says.
fn put_step(
    alloc: Global,
    object: &mut Writer,
    scene: &Scene<'_>,
    step: &Step<'_>,
) -> Result<(), AllocError> {
    match step {
        Step::Table(force) => put_force(object, *force),
        Step::Read(frame) => put_view_json(alloc, object, frame),
        Step::Failed { place, field } => {
            put_entry(object, scene, *place)?;
            put_text(object, "field", mismatch_name(*field))?;
            put_words(alloc, object, "field_words", &MismatchWords(*field))?;
            put_entry_rule(alloc, object, scene, *place)
        }
        Step::Used { place } => {
            put_entry(object, scene, *place)?;
            put_entry_rule(alloc, object, scene, *place)
        }
        Step::Tags(tags) => put_tags(alloc, object, scene, tags.as_slice()),
        Step::Priority { priority, origin } => put_priority(object, scene, *priority, *origin),
        Step::Verdict(verdict) => put_verdict(alloc, object, verdict),
        _ => put_route(object, step),
    }
}

/// Puts which table is in force.
fn put_force(object: &mut Writer, force: TableInForce) -> Result<(), AllocError> {
    match force {
        TableInForce::NoTable => put_text(object, "points_to", "none"),
        TableInForce::OfPort(instance) => {
            put_text(object, "points_to", "port")?;
            put_number(object, "instance", u64::from(instance))
        }
        TableInForce::OfMapper { mapper, instance } => {
            put_text(object, "points_to", "mapper")?;
            put_number(object, "instance", u64::from(instance))?;
            put_number(object, "mapper", u64::from(mapper))
        }
    }
}

/// Puts the number of an entry in the order in which they are tried, its place in the table, and the trace's line that set it.
fn put_entry(object: &mut Writer, scene: &Scene<'_>, place: usize) -> Result<(), AllocError> {
    if let Some(number) = scene.entries.and_then(|entries| entries.number(place)) {
        put_number(object, "number", number as u64)?;
    }
    put_number(object, "place", place as u64)?;
    match scene.entries.and_then(|entries| entries.line(place)) {
        Some(line) => put_number(object, "line", line),
        None => Ok(()),
    }
}

/// Puts the rule of an entry.
fn put_entry_rule(
    alloc: Global,
    object: &mut Writer,
    scene: &Scene<'_>,
    place: usize,
) -> Result<(), AllocError> {
    match scene.entries.and_then(|entries| entries.table.rule(place)) {
        Some(rule) => put_rule(alloc, object, rule),
        None => Ok(()),
    }
}

/// Puts the tags that a frame leaves with.
fn put_tags(
    alloc: Global,
    object: &mut Writer,
    scene: &Scene<'_>,
    tags: &[OutgoingTag],
) -> Result<(), AllocError> {
    object.key("tags")?;
    object.begin_array()?;
    for outgoing in tags {
        object.begin_object()?;
        put_tag_json(object, &outgoing.tag)?;
        put_origin(object, scene, &outgoing.origin)?;
        put_words(
            alloc,
            object,
            "origin_words",
            &OriginWords(&outgoing.origin),
        )?;
        object.end_object()?;
    }
    object.end_array()
}

/// Puts where a tag comes from: `received`, its place among the received ones, or `added`, where its parts come from; and of a priority that is
/// the DSCP's by whose mapping.
fn put_origin(
    object: &mut Writer,
    scene: &Scene<'_>,
    origin: &TagOrigin,
) -> Result<(), AllocError> {
    match origin {
        TagOrigin::Received(place) => put_number(object, "received", u64::from(*place))?,
        TagOrigin::Added(tag) => put_added_tag(object, "added", tag)?,
    }
    if !is_of_dscp(origin) {
        return Ok(());
    }
    let table = match &scene.entries {
        Some(entries) => Some(entries.instance),
        None => None,
    };
    put_mapping(object, scene.dscp, Class::Vlan, table)
}

/// Puts a DSCP, if there is one, and the entity by whose DSCP to P-bit mapping a priority is its.
fn put_mapping(
    object: &mut Writer,
    dscp: Option<u8>,
    class: Class,
    instance: Option<u16>,
) -> Result<(), AllocError> {
    if let Some(dscp) = dscp {
        put_number(object, "dscp", u64::from(dscp))?;
    }
    object.key("mapping_of")?;
    object.begin_object()?;
    put_number(object, "class", u64::from(class.number()))?;
    put_text(object, "class_name", class.name())?;
    if let Some(instance) = instance {
        put_number(object, "instance", u64::from(instance))?;
    }
    object.end_object()
}

/// Puts the priority of a frame and where it comes from.
fn put_priority(
    object: &mut Writer,
    scene: &Scene<'_>,
    priority: u8,
    origin: PriorityOrigin,
) -> Result<(), AllocError> {
    put_number(object, "priority", u64::from(priority))?;
    match origin {
        PriorityOrigin::OutermostTag => put_text(object, "origin", "outermost_tag"),
        PriorityOrigin::Dscp(dscp) => {
            put_text(object, "origin", "dscp")?;
            put_mapping(object, Some(dscp), Class::Mapper, scene.mapper)
        }
        PriorityOrigin::Default => put_text(object, "origin", "default"),
    }
}

/// Puts a step on the way from the mapper to the GEM port.
fn put_route(object: &mut Writer, step: &Step<'_>) -> Result<(), AllocError> {
    match step {
        Step::Mapper(instance) | Step::Pointer(instance) => {
            put_number(object, "instance", u64::from(*instance))
        }
        Step::Interwork {
            instance,
            gem_port_pointer,
        } => {
            put_number(object, "instance", u64::from(*instance))?;
            put_number(object, "gem_port_pointer", u64::from(*gem_port_pointer))
        }
        Step::GemPort {
            instance,
            port_id,
            direction,
        } => {
            put_number(object, "instance", u64::from(*instance))?;
            put_number(object, "port_id", u64::from(*port_id))?;
            put_number(object, "direction", u64::from(*direction))?;
            match direction_word(*direction) {
                Some(word) => put_text(object, "direction_words", word),
                None => Ok(()),
            }
        }
        _ => Ok(()),
    }
}

/// Puts a verdict.
fn put_verdict(
    alloc: Global,
    object: &mut Writer,
    verdict: &Verdict<'_>,
) -> Result<(), AllocError> {
    match verdict {
        Verdict::Forward { gem, frame } => {
            put_text(object, "verdict", "forward")?;
            put_number(object, "gem", u64::from(*gem))?;
            put_words(alloc, object, "frame", &FrameDigits(frame))?;
        }
        Verdict::Drop(reason) => {
            put_text(object, "verdict", "drop")?;
            put_number(object, "reason", u64::from(reason.code()))?;
            put_words(alloc, object, "words", reason)?;
        }
    }
    put_words(alloc, object, "answer", &VerdictWords(verdict))
}
