//! Which frames two configurations treat differently.
ghost use Rattle.std.specs.Prelude.{◌≡◌, ◌&&◌, IfOk};
ghost use Rattle.text_every_frame.specs.Same.{IsSaid, IsSaidAt, IsSaidOf};

use crate::frames::Frames;
use crate::ports::ports_of_sides;
use explain_findings::law_of_named_ports;
use frame_classes::differences;
use std::alloc::Global;
use std::io::Write;
use text_differences::{Compared, DifferenceList};
use text_writing::TextFault;

/// Writes what two configurations treat differently at a port, and gives whether that is nothing.
fn write_port<W: Write>(
    alloc: Global,
    compared: &Compared<'_>,
    port: u16,
    least: usize,
    list: &mut DifferenceList,
    writer: &mut W,
) -> Result<bool, TextFault>
    ensures { IfOk result (IsSaidAt compared.now.before.mib.now.entities
        compared.now.after.mib.now.entities least port) }
{
    let (before, after) = (compared.before.mib, compared.after.mib);
    let found = differences(alloc, before, after, port, least)?;
    let shown = found.as_slice();
    list.port(compared, port, shown, writer)?;
    Ok(shown.is_empty())
}

/// Whether both hold.
fn are_both(one: bool, other: bool) -> bool
    ensures { result ≡ (one && other) }
{
    one && other
}

/// Writes what two configurations treat differently at these ports, and gives whether that is nothing.
fn write_ports<W: Write>(
    alloc: Global,
    compared: &Compared<'_>,
    ports: &[u16],
    least: usize,
    list: &mut DifferenceList,
    writer: &mut W,
) -> Result<bool, TextFault>
    ensures { IfOk result (IsSaidOf compared.now.before.mib.now.entities
        compared.now.after.mib.now.entities least ports.now) }
{
    let mut is_same = true;
    for port in ports {
        let is_same_here = write_port(alloc, compared, *port, least, list, writer)?;
        is_same = are_both(is_same, is_same_here);
    }
    Ok(is_same)
}

/// Writes which frames two configurations treat differently, each with what becomes of it, as lines or as JSON, in many small texts. It gives whether
/// they are the same: every frame of at least so many bytes is seen alike by both, at the port that is asked for, or at every port. The differences at
/// one port at a time are held.
pub fn write_differences<W: Write>(
    alloc: Global,
    compared: &Compared<'_>,
    frames: Frames,
    is_json: bool,
    writer: &mut W,
) -> Result<bool, TextFault>
    ensures { IfOk result (IsSaid compared.now.before.mib.now.entities
        compared.now.after.mib.now.entities frames.port frames.least) }
{
    law_of_named_ports();
    let (before, after) = (compared.before.mib, compared.after.mib);
    let ports = ports_of_sides(alloc, before, after, frames.port)?;
    let mut list = DifferenceList::new(alloc, is_json);
    list.begin(writer)?;
    let least = usize::from(frames.least);
    let is_same = write_ports(alloc, compared, &ports, least, &mut list, writer)?;
    list.end(writer)?;
    Ok(is_same)
}
