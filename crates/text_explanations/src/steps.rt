//! Why a frame goes where it goes, as text.
use crate::failures::failures_of;
use crate::rules::put_force;
use crate::traced::{PortEntries, Traced};
use crate::verdict::VerdictWords;
use crate::words::{DirectionWords, MismatchWords, OriginWords, entity_of};
use explain::{OutgoingTag, PriorityOrigin, Step, TagOrigin, explain};
use frame_meaning::Verdict;
use managed_entity::Class;
use std::alloc::{AllocError, Global};
use std::io::Write;
use text_entities::{FilterWords, TagWords, TreatmentWords};
use text_messages::put_view;
use text_writing::{TextFault, write_whole};
use vlan_rule::PrioritySource;

/// A frame that comes in at a port.
#[derive(Clone, Copy)]
pub struct Incoming<'a> {
    pub port: u16,
    pub bytes: &'a [u8],
}

/// What the steps of an explanation are written with.
#[derive(Clone, Copy)]
struct Scene<'a> {
    port: u16,
    /// The table in force, if one is.
    entries: Option<PortEntries<'a>>,
    /// The frame's DSCP, if it has one.
    dscp: Option<u8>,
}

/// Writes why a frame goes where it goes, a line or a small block for each step: the table in force, how the frame is read, how many entries
/// were tried in vain, by the field that they fail by, the one that is used, the tags that it leaves with and where each comes from, the
/// mapper, the priority, its pointer, the GEM interworking termination point and the GEM port network CTP. The last line is the verdict as a
/// replay answers it, and above it, of a dropped frame, stands why it is dropped. With `all` each entry that was tried in vain is written too.
pub fn write_explanation<W: Write>(
    alloc: Global,
    traced: &Traced<'_>,
    incoming: &Incoming<'_>,
    all: bool,
    writer: &mut W,
) -> Result<(), TextFault> {
    let steps = explain(alloc, traced.mib, incoming.port, incoming.bytes)?;
    let scene = Scene {
        port: incoming.port,
        entries: PortEntries::at(traced, incoming.port),
        dscp: dscp_of(&steps),
    };
    let mut is_summed = false;
    for step in &steps {
        let mut text = String::new(alloc);
        if let Step::Failed { .. } = step {
            if !is_summed {
                put_failures(alloc, &mut text, &steps)?;
            }
            is_summed = true;
        }
        put_step(&mut text, &scene, all, step)?;
        write_whole(writer, text.as_bytes())?;
    }
    Ok(())
}

/// The DSCP of the frame that was read.
pub(crate) fn dscp_of(steps: &[Step<'_>]) -> Option<u8> {
    let mut dscp = None;
    for step in steps {
        if let Step::Read(frame) = step {
            dscp = frame.dscp();
        }
    }
    dscp
}

/// Puts how many entries fail, by each field by which one does.
fn put_failures(alloc: Global, text: &mut String, steps: &[Step<'_>]) -> Result<(), AllocError> {
    text.push_str("entries: ")?;
    let mut separator = "";
    for failures in &failures_of(alloc, steps)? {
        let entries = failures.entries;
        let field = MismatchWords(failures.field);
        let fail = match (separator.is_empty(), entries) {
            (false, _) => "",
            (true, 1) => "fails ",
            (true, _) => "fail ",
        };
        write!(text, "{separator}{entries} {fail}by {field}")?;
        separator = ", ";
    }
    text.push_str("\n")
}

/// Puts a step.
fn put_step(
    text: &mut String,
    scene: &Scene<'_>,
    all: bool,
    step: &Step<'_>,
) -> Result<(), AllocError> {
    match step {
        Step::Failed { .. } if !all => Ok(()),
        Step::Failed { place, field } => {
            put_entry(text, scene, *place)?;
            let field = MismatchWords(*field);
            write!(text, "fails by {field}: ")?;
            put_filter(text, scene, *place)
        }
        Step::Used { place } => {
            put_entry(text, scene, *place)?;
            text.push_str("is used:\n")?;
            put_rule(text, scene, *place)
        }
        Step::Read(frame) => {
            text.push_str("frame:\n")?;
            put_view(text, frame)
        }
        Step::Table(force) => put_force(text, scene.port, *force),
        Step::Tags(tags) => put_tags(text, scene, tags.as_slice()),
        Step::Verdict(verdict) => put_verdict(text, verdict),
        _ => put_route(text, step),
    }
}

/// Puts which entry it is: its number in the order in which entries are tried, its place in the table, and the trace's line that set it.
fn put_entry(text: &mut String, scene: &Scene<'_>, place: usize) -> Result<(), AllocError> {
    let Some(entries) = &scene.entries else {
        return write!(text, "the entry at place {place} ");
    };
    match entries.number(place) {
        Some(number) => write!(text, "entry {number} (place {place}")?,
        None => write!(text, "an entry (place {place}")?,
    }
    if let Some(line) = entries.line(place) {
        write!(text, ", set by line {line}")?;
    }
    text.push_str(") ")
}

/// Puts what an entry filters by, in words.
fn put_filter(text: &mut String, scene: &Scene<'_>, place: usize) -> Result<(), AllocError> {
    if let Some(rule) = scene.entries.and_then(|entries| entries.table.rule(place)) {
        let filter = FilterWords(rule);
        write!(text, "{filter}")?;
    }
    writeln!(text)
}

/// Puts the rule of an entry in words.
fn put_rule(text: &mut String, scene: &Scene<'_>, place: usize) -> Result<(), AllocError> {
    let Some(rule) = scene.entries.and_then(|entries| entries.table.rule(place)) else {
        return Ok(());
    };
    let filter = FilterWords(rule);
    let treatment = TreatmentWords(&rule.treatment);
    writeln!(text, "  filter: {filter}\n  treatment: {treatment}")
}

/// Puts the tags that a frame leaves with.
fn put_tags(text: &mut String, scene: &Scene<'_>, tags: &[OutgoingTag]) -> Result<(), AllocError> {
    if tags.is_empty() {
        return text.push_str("leaves without a tag\n");
    }
    text.push_str("leaves with tags:\n")?;
    for outgoing in tags {
        let tag = TagWords(&outgoing.tag);
        let origin = OriginWords(&outgoing.origin);
        writeln!(text, "  tag: {tag}; {origin}")?;
        if is_of_dscp(&outgoing.origin) {
            put_dscp_origin(text, scene, outgoing.tag.pcp())?;
        }
    }
    Ok(())
}

/// Whether a tag is added with the priority of the frame's DSCP.
pub(crate) fn is_of_dscp(origin: &TagOrigin) -> bool {
    match origin {
        TagOrigin::Added(tag) => tag.priority == PrioritySource::Dscp,
        TagOrigin::Received(_) => false,
    }
}

/// Puts of which DSCP the priority of an added tag is, and by whose mapping.
fn put_dscp_origin(text: &mut String, scene: &Scene<'_>, priority: u8) -> Result<(), AllocError> {
    match scene.dscp {
        Some(dscp) => writeln!(
            text,
            "    priority {priority}: that of DSCP {dscp} by the table's DSCP to P-bit mapping"
        ),
        None => writeln!(text, "    priority {priority}: the frame has no DSCP"),
    }
}

/// Puts a step on the way from the mapper to the GEM port.
fn put_route(text: &mut String, step: &Step<'_>) -> Result<(), AllocError> {
    match step {
        Step::Mapper(instance) => {
            let mapper = entity_of(Class::Mapper, *instance);
            writeln!(text, "mapper: {mapper}")
        }
        Step::Priority { priority, origin } => put_priority(text, *priority, *origin),
        Step::Pointer(pointer) => writeln!(text, "interwork TP pointer: 0x{pointer:04x}"),
        Step::Interwork {
            instance,
            gem_port_pointer,
        } => {
            let point = entity_of(Class::Interwork, *instance);
            writeln!(
                text,
                "interworking: {point}, GEM port pointer 0x{gem_port_pointer:04x}"
            )
        }
        Step::GemPort {
            instance,
            port_id,
            direction,
        } => {
            let gem_port = entity_of(Class::GemPort, *instance);
            let direction = DirectionWords(*direction);
            writeln!(text, "GEM port: {gem_port}, port-ID {port_id}, {direction}")
        }
        _ => Ok(()),
    }
}

/// Puts the priority of a frame and where it comes from.
fn put_priority(text: &mut String, priority: u8, origin: PriorityOrigin) -> Result<(), AllocError> {
    match origin {
        PriorityOrigin::OutermostTag => {
            writeln!(text, "priority: {priority}, that of the outermost tag")
        }
        PriorityOrigin::Dscp(dscp) => {
            writeln!(
                text,
                "priority: {priority}, that of DSCP {dscp} by the mapper's DSCP to P-bit mapping"
            )
        }
        PriorityOrigin::Default => {
            writeln!(
                text,
                "priority: {priority}, the mapper's default P-bit assumption"
            )
        }
    }
}

/// Puts a verdict, and of a dropped frame why it is dropped.
fn put_verdict(text: &mut String, verdict: &Verdict<'_>) -> Result<(), AllocError> {
    if let Verdict::Drop(reason) = verdict {
        let number = reason.code();
        writeln!(text, "dropped, reason {number}: {reason}")?;
    }
    let line = VerdictWords(verdict);
    writeln!(text, "{line}")
}
