//! Which frames a change treats on its way as neither its beginning nor its end does.
use crate::change::{Change, entities_of};
use crate::frames::Frames;
use crate::watching::Watched;
use mib_state::Touch;
use script_trace::Applied;
use std::alloc::{AllocError, Global};
use std::io::Write;
use text_differences::{Moment, TearList};
use text_writing::TextFault;

/// The ports of a change that are watched.
fn watched_of(
    alloc: Global,
    change: &Change<'_>,
    asked: Option<u16>,
) -> Result<Vec<Watched>, AllocError> {
    let ports = change.ports(alloc, asked)?;
    let mut watched = Vec::with_capacity(alloc, ports.len())?;
    for port in &ports {
        watched.push(Watched::at(alloc, &change.before, change.after, *port)?)?;
    }
    Ok(watched)
}

/// Writes the frames for which a moment is torn, port by port.
fn write_moment<W: Write>(
    alloc: Global,
    moment: &Moment<'_>,
    touch: Touch,
    least: usize,
    watched: &mut [Watched],
    list: &mut TearList,
    writer: &mut W,
) -> Result<(), TextFault> {
    for each in watched.iter_mut() {
        each.follow(alloc, moment, touch, least)?;
        list.port(moment, each.port, &each.tears, writer)?;
    }
    Ok(())
}

/// Writes the frames for which moments of a change are torn, moment by moment. Those of one moment are held.
fn write_moments<W: Write>(
    alloc: Global,
    change: &Change<'_>,
    frames: Frames,
    list: &mut TearList,
    writer: &mut W,
) -> Result<(), TextFault> {
    let mut watched = watched_of(alloc, change, frames.port)?;
    let mut here = entities_of(alloc, change.earlier)?;
    let mut version = change.earlier.len() as u64;
    let between = change.requests.len().saturating_sub(1);
    for each in change.requests.iter().take(between) {
        let touch = here.carry_out(&each.request).touch;
        version = version.saturating_add(1);
        let moment = Moment {
            version,
            line: each.line,
            before: &change.before,
            here: &here,
            after: change.after,
        };
        let least = usize::from(frames.least);
        write_moment(alloc, &moment, touch, least, &mut watched, list, writer)?;
    }
    Ok(())
}

/// Writes for which frames moments of a change are torn, each with what becomes of it as the change begins, then, and as it ends, as lines or
/// as JSON, in many small texts; and gives whether there are none. The change is that from a line, 0 for the first, to the end of a trace that left this.
pub fn write_tears<W: Write>(
    alloc: Global,
    applied: &Applied,
    from: u64,
    frames: Frames,
    is_json: bool,
    writer: &mut W,
) -> Result<bool, TextFault> {
    let change = Change::of(alloc, applied, from)?;
    let mut list = TearList::new(alloc, is_json);
    list.begin(writer)?;
    write_moments(alloc, &change, frames, &mut list, writer)?;
    list.end(writer)?;
    Ok(list.is_empty())
}
