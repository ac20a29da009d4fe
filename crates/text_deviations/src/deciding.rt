//! What decided what becomes of a frame.
use crate::carried::CarriedOut;
use crate::frame_difference::FrameDifference;
use crate::tag_difference::{FieldDifference, TagsDifference};
use explain::{OutgoingTag, Step, TagOrigin, explain};
use forward_plan::Reason;
use std::alloc::{AllocError, Global};
use std::fmt::{self, Display};
use text_entities::{Part, TagParts, added_parts};
use text_explanations::{PortEntries, Traced};

/// The way of a frame through managed entities, as far as it comes.
#[derive(Clone, Copy)]
struct Way<'s> {
    /// The place of the entry that is used.
    used: Option<usize>,
    /// The tags that it leaves with.
    tags: &'s [OutgoingTag],
    mapper: Option<u16>,
    priority: Option<u8>,
}

/// The way that the steps of an explanation go.
fn way_of<'s>(steps: &'s [Step<'_>]) -> Way<'s> {
    let mut way = Way {
        used: None,
        tags: &[],
        mapper: None,
        priority: None,
    };
    for step in steps {
        match step {
            Step::Used { place } => way.used = Some(*place),
            Step::Tags(tags) => way.tags = tags.as_slice(),
            Step::Mapper(instance) => way.mapper = Some(*instance),
            Step::Priority { priority, .. } => way.priority = Some(*priority),
            _ => {}
        }
    }
    way
}

/// A part of a tag that an entry adds, in words.
#[derive(Clone, Copy)]
struct PartWords(Part);

impl fmt::Display for PartWords {
    fn fmt<W: fmt::Write>(&self, f: &mut fmt::Formatter<W>) -> fmt::Result {
        match self.0 {
            Part::Tpid(tpid) => write!(f, "0x{tpid:04x}"),
            Part::Inner => f.write_str("from inner"),
            Part::Outer => f.write_str("from outer"),
            Part::Dscp => f.write_str("from DSCP"),
            part => part.fmt(f),
        }
    }
}

/// Where a field of a tag comes from.
#[derive(Clone, Copy)]
pub(crate) enum FieldOrigin {
    /// From a received tag, counted from 0, the outermost.
    Received(u8),
    Priority(Part),
    Vid(Part),
    Tpid(Part),
    Dei(Part),
}

impl fmt::Display for FieldOrigin {
    fn fmt<W: fmt::Write>(&self, f: &mut fmt::Formatter<W>) -> fmt::Result {
        match *self {
            FieldOrigin::Received(place) => write!(f, "received tag {place}"),
            FieldOrigin::Priority(part) => {
                let part = PartWords(part);
                write!(f, "priority {part}")
            }
            FieldOrigin::Vid(part) => {
                let part = PartWords(part);
                write!(f, "VID {part}")
            }
            FieldOrigin::Tpid(part) => {
                let part = PartWords(part);
                write!(f, "TPID {part}")
            }
            FieldOrigin::Dei(part) => {
                let part = PartWords(part);
                write!(f, "DEI {part}")
            }
        }
    }
}

/// Where the field of an outgoing tag comes from in which it differs.
fn field_origin(origin: &TagOrigin, field: FieldDifference) -> FieldOrigin {
    let parts: TagParts = match origin {
        TagOrigin::Received(place) => return FieldOrigin::Received(*place),
        TagOrigin::Added(tag) => added_parts(tag),
    };
    match field {
        FieldDifference::Tpid { .. } => FieldOrigin::Tpid(parts.tpid),
        FieldDifference::Pcp { .. } => FieldOrigin::Priority(parts.priority),
        FieldDifference::Dei { .. } => FieldOrigin::Dei(parts.dei),
        FieldDifference::Vid { .. } => FieldOrigin::Vid(parts.vid),
    }
}

/// What decided it: an entry of the table in force, or a mapper's pointer for a priority.
#[derive(Clone, Copy)]
pub(crate) enum Deciding {
    /// The entry of a number in the order in which entries are tried, the line that set it, and where the field comes from in which a tag
    /// differs. The line 0 stands for what was carried out before the first.
    Entry {
        number: usize,
        line: Option<u64>,
        origin: Option<FieldOrigin>,
    },
    Pointer {
        mapper: u16,
        priority: u8,
    },
}

impl fmt::Display for Deciding {
    fn fmt<W: fmt::Write>(&self, f: &mut fmt::Formatter<W>) -> fmt::Result {
        match *self {
            Deciding::Entry {
                number,
                line,
                origin,
            } => {
                write!(f, " (entry {number}")?;
                match line {
                    Some(0) => f.write_str(", set before line 1")?,
                    Some(line) => write!(f, ", set by line {line}")?,
                    None => {}
                }
                if let Some(origin) = origin {
                    write!(f, ": {origin}")?;
                }
                f.write_str(")")
            }
            Deciding::Pointer { mapper, priority } => {
                write!(f, " (priority {priority} of mapper 0x{mapper:04x})")
            }
        }
    }
}

/// The origin of the field in which a tag differs.
fn origin_of(way: &Way<'_>, difference: &FrameDifference) -> Option<FieldOrigin> {
    match difference {
        FrameDifference::Tags(TagsDifference::Other { number, field, .. }) => {
            let outgoing = way.tags.get(*number)?;
            Some(field_origin(&outgoing.origin, *field))
        }
        _ => None,
    }
}

/// The entry that is used on the way of a frame that comes in at a port.
fn entry_of(
    carried: &CarriedOut,
    port: u16,
    way: &Way<'_>,
    difference: &FrameDifference,
) -> Option<Deciding> {
    let traced = Traced {
        mib: &carried.mib,
        accepted: &carried.accepted,
    };
    let entries = PortEntries::at(&traced, port)?;
    let place = way.used?;
    Some(Deciding::Entry {
        number: entries.number(place)?,
        line: entries.line(place),
        origin: origin_of(way, difference),
    })
}

/// The mapper's pointer that a frame's way takes.
fn pointer_of(way: &Way<'_>) -> Option<Deciding> {
    let (mapper, priority) = (way.mapper?, way.priority?);
    Some(Deciding::Pointer { mapper, priority })
}

/// What decided in what a frame that comes in at a port differs from what was seen, by managed entities.
pub(crate) fn decided_in(
    alloc: Global,
    carried: &CarriedOut,
    port: u16,
    bytes: &[u8],
    difference: &FrameDifference,
) -> Result<Option<Deciding>, AllocError> {
    let steps = explain(alloc, &carried.mib, port, bytes)?;
    let way = way_of(&steps);
    Ok(match difference {
        FrameDifference::Gem { .. } => pointer_of(&way),
        FrameDifference::Tags(_)
        | FrameDifference::Leaves { .. }
        | FrameDifference::Dropped(Reason::RuleDiscard) => {
            entry_of(carried, port, &way, difference)
        }
        FrameDifference::Dropped(
            Reason::NullPointer | Reason::NoInterwork | Reason::NoGem | Reason::Direction,
        ) => pointer_of(&way),
        _ => None,
    })
}
