//! From a frame to its explanation: each function appends its step, and goes on to the next.
ghost use Rattle.std.specs.Prelude.{◌≡◌, ◌++◌, ◌<◌, [], ◌∷◌, IfOk, OnOk, IfSome, map, length};
ghost use Rattle.tag_view.specs.Dscp.{dscp_of};
ghost use Rattle.frame_meaning.specs.Meaning.{meaning};
ghost use Rattle.managed_entity.specs.Shown.{gem_port_instance, interwork_instance, mapper_instance};
ghost use Rattle.explain.specs.Steps.{explained, from_gem_port, from_interwork, from_mapper, from_pointer, from_tags, from_table, from_read, dropped};
ghost use Rattle.explain.specs.Ends.{EndsWith};

use crate::entries::append_tries;
use crate::force::table_in_force;
use crate::outgoing::{OutgoingTag, outgoing_by, received};
use crate::priority::priority_origin;
use crate::step::Step;
use arrayvec::ArrayVec;
use frame_meaning::{
    OutFrame, PortTable, Reason, Verdict, input_tpid, mapper_at, pointer_of, port_id_of,
};
use mib_state::Mib;
use pmapper::{GemPort, Interwork, Mapper, priority};
use std::alloc::{AllocError, Global};
use tag_view::{FrameView, Tag, view};

/// Why a frame that comes in at a port goes where it goes, step by step; [`Step`] says which steps there are. The last step is
/// the verdict, as every way of forwarding gives it. It takes memory for the list of steps alone.
pub fn explain<'a>(
    alloc: Global,
    mib: &Mib,
    port: u16,
    bytes: &'a [u8],
) -> Result<Vec<Step<'a>>, AllocError>
    ensures steps { IfOk result (λ steps. steps.items ≡ explained mib.now.entities port bytes.now) }
    ensures last { IfOk result (λ steps.
        EndsWith (meaning mib.now.entities port bytes.now) steps.items) }
{
    let mut steps = Vec::new(alloc);
    steps.push(Step::Table(table_in_force(mib, port)))?;
    let table = PortTable::at(mib, port);
    match view(bytes, input_tpid(&table)) {
        Ok(frame) => append_read(&mut steps, mib, port, &table, frame)?,
        Err(fault) => append_drop(&mut steps, Reason::from(fault))?,
    }
    Ok(steps)
}

/// The frame is dropped.
fn append_drop<'a>(steps: &mut Vec<Step<'a>>, reason: Reason) -> Result<(), AllocError>
    ensures { OnOk result (steps.new.items ≡ steps.old.items ++ dropped reason) }
{
    steps.push(Step::Verdict(Verdict::Drop(reason)))?;
    Ok(())
}

/// The frame was read.
fn append_read<'a>(
    steps: &mut Vec<Step<'a>>,
    mib: &Mib,
    port: u16,
    table: &Option<PortTable>,
    frame: FrameView<'a>,
) -> Result<(), AllocError>
    ensures { OnOk result (steps.new.items
        ≡ steps.old.items ++ from_read mib.now.entities port table.now frame.entry) }
{
    steps.push(Step::Read(frame.clone()?))?;
    match table {
        Some(table) => append_table(steps, mib, port, table, &frame),
        None => append_tags(steps, mib, port, &frame, received(&frame)),
    }
}

/// A table is in force at the port.
fn append_table<'a>(
    steps: &mut Vec<Step<'a>>,
    mib: &Mib,
    port: u16,
    table: &PortTable,
    frame: &FrameView<'a>,
) -> Result<(), AllocError>
    ensures { OnOk result (steps.new.items
        ≡ steps.old.items ++ from_table mib.now.entities port table.now frame.now) }
{
    append_tries(steps, table, frame)?;
    let Some(rule) = table.rule_for(frame) else {
        return append_drop(steps, Reason::NoRule);
    };
    match outgoing_by(rule, &table.settings, frame) {
        Some(tags) => append_tags(steps, mib, port, frame, tags),
        None => append_drop(steps, Reason::RuleDiscard),
    }
}

/// The frame leaves with these tags.
fn append_tags<'a>(
    steps: &mut Vec<Step<'a>>,
    mib: &Mib,
    port: u16,
    frame: &FrameView<'a>,
    tags: ArrayVec<OutgoingTag, 4>,
) -> Result<(), AllocError>
    ensures { OnOk result (steps.new.items
        ≡ steps.old.items ++ from_tags mib.now.entities port frame.now tags.items) }
{
    let leaving = OutFrame::new(frame, plain(&tags));
    steps.push(Step::Tags(tags))?;
    match mapper_at(mib, port) {
        Some((number, mapper)) => append_mapper(steps, mib, leaving, frame.dscp(), number, mapper),
        None => append_drop(steps, Reason::NoMapper),
    }
}

/// The tags without where they come from.
fn plain(outgoing: &ArrayVec<OutgoingTag, 4>) -> ArrayVec<Tag, 4>
    ensures { result.items ≡ map (λ (outgoing : _). outgoing.tag) outgoing.now.items }
{
    let mut tags = ArrayVec::new();
    for tag in outgoing.as_slice() {
        tags.push(tag.tag);
    }
    tags
}

/// The frame, with its DSCP if it has one, comes to a mapper.
fn append_mapper<'a>(
    steps: &mut Vec<Step<'a>>,
    mib: &Mib,
    leaving: OutFrame<'a>,
    dscp: Option<u8>,
    number: u16,
    mapper: &Mapper,
) -> Result<(), AllocError>
    requires { IfSome dscp (λ dscp. dscp < 64) }
    ensures { OnOk result (steps.new.items
        ≡ steps.old.items
        ++ from_mapper mib.now.entities leaving.entry dscp (mapper_instance number mapper.now)) }
{
    steps.push(Step::Mapper(number))?;
    let origin = priority_origin(mapper, leaving.tags(), dscp);
    let priority = priority(mapper, leaving.tags(), dscp);
    steps.push(Step::Priority { priority, origin })?;
    match pointer_of(mapper, priority) {
        Some(pointer) => append_pointer(steps, mib, leaving, pointer),
        None => append_drop(steps, Reason::NullPointer),
    }
}

/// The frame's pointer isn't null.
fn append_pointer<'a>(
    steps: &mut Vec<Step<'a>>,
    mib: &Mib,
    leaving: OutFrame<'a>,
    pointer: u16,
) -> Result<(), AllocError>
    ensures { OnOk result (steps.new.items
        ≡ steps.old.items ++ from_pointer mib.now.entities leaving.entry pointer) }
{
    steps.push(Step::Pointer(pointer))?;
    match mib.interwork(pointer) {
        Some(point) => append_interwork(steps, mib, leaving, pointer, point),
        None => append_drop(steps, Reason::NoInterwork),
    }
}

/// The frame comes to a GEM interworking termination point.
fn append_interwork<'a>(
    steps: &mut Vec<Step<'a>>,
    mib: &Mib,
    leaving: OutFrame<'a>,
    instance: u16,
    point: &Interwork,
) -> Result<(), AllocError>
    ensures { OnOk result (steps.new.items
        ≡ steps.old.items
        ++ from_interwork mib.now.entities leaving.entry (interwork_instance instance point.now)) }
{
    let gem_port_pointer = point.gem_port_pointer;
    steps.push(Step::Interwork {
        instance,
        gem_port_pointer,
    })?;
    match mib.gem_port(gem_port_pointer) {
        Some(gem) => append_gem_port(steps, leaving, gem_port_pointer, gem),
        None => append_drop(steps, Reason::NoGem),
    }
}

/// The frame comes to a GEM port network CTP.
fn append_gem_port<'a>(
    steps: &mut Vec<Step<'a>>,
    leaving: OutFrame<'a>,
    instance: u16,
    gem: &GemPort,
) -> Result<(), AllocError>
    ensures { OnOk result (steps.new.items
        ≡ steps.old.items ++ from_gem_port leaving.entry (gem_port_instance instance gem.now)) }
{
    let (port_id, direction) = (gem.port_id, gem.direction);
    steps.push(Step::GemPort {
        instance,
        port_id,
        direction,
    })?;
    match port_id_of(gem) {
        Ok(gem) => {
            let frame = leaving;
            steps.push(Step::Verdict(Verdict::Forward { gem, frame }))?;
            Ok(())
        }
        Err(reason) => append_drop(steps, reason),
    }
}
