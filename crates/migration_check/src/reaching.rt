//! Whether a configuration is the one that is to be reached.
ghost use Rattle.std.specs.Prelude.{◌≡◌, All, IfOk, true};
ghost use Rattle.migration_check.specs.Migration.{IsSeenAlike, IsSeenAlikeAt, Reaches};
ghost use Rattle.migration_check.specs.Telling.{Tells};

use crate::aim::Aim;
use crate::ports::ports_of;
use crate::same::hold_the_same;
use crate::telling::are_both;
use explain_findings::law_of_named_ports;
use frame_classes::differences;
use mib_state::Mib;
use std::alloc::{AllocError, Global};

/// Whether two configurations see alike every frame that comes in at a port.
fn are_alike_at(alloc: Global, one: &Mib, other: &Mib, port: u16) -> Result<bool, AllocError>
    ensures { IfOk result (λ is. Tells is
        (IsSeenAlikeAt one.now.entities other.now.entities port)) }
{
    let apart = differences(alloc, one, other, port, 0)?;
    let found = apart.as_slice();
    Ok(found.is_empty())
}

/// Whether they do so at each of these ports.
fn are_alike_at_all(
    alloc: Global,
    one: &Mib,
    other: &Mib,
    ports: &[u16],
) -> Result<bool, AllocError>
    ensures { IfOk result (λ is. Tells is
        (All (IsSeenAlikeAt one.now.entities other.now.entities) ports.now)) }
{
    let mut are_alike = true;
    for port in ports {
        let are_alike_here = are_alike_at(alloc, one, other, *port)?;
        are_alike = are_both(are_alike, are_alike_here);
    }
    Ok(are_alike)
}

/// Whether they do so at every port.
fn are_alike(alloc: Global, one: &Mib, other: &Mib) -> Result<bool, AllocError>
    ensures { IfOk result (λ is. Tells is (IsSeenAlike one.now.entities other.now.entities)) }
{
    law_of_named_ports();
    let ports = ports_of(alloc, one, other)?;
    let are_alike = are_alike_at_all(alloc, one, other, &ports)?;
    Ok(are_alike)
}

/// Whether a configuration is the one that is to be reached.
pub(crate) fn is_reached(alloc: Global, end: &Mib, goal: &Mib, aim: Aim) -> Result<bool, AllocError>
    ensures { IfOk result (λ is. is ≡ true → Reaches aim end.now.entities goal.now.entities) }
{
    match aim {
        Aim::Instances => Ok(hold_the_same(end, goal)),
        Aim::Frames => Ok(are_alike(alloc, end, goal)?),
    }
}
