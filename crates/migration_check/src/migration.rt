//! Whether requests are a migration.
ghost use Rattle.std.specs.Prelude.{◌≡◌, All, IfOk, true};
ghost use Rattle.mib_state.specs.After.{after, after_from};
ghost use Rattle.migration_check.specs.Migration.{AreHitless, AreHitlessAt, DoLead, IsMigration};
ghost use Rattle.migration_check.specs.Telling.{Tells};

use crate::accepting::{carry_out_all, entities_after};
use crate::aim::{Aim, Wanted};
use crate::following::{Moment, follow};
use crate::ports::ports_on_way;
use crate::reaching::is_reached;
use explain_findings::law_of_named_ports;
use frame_rows::Rows;
use mib_state::Mib;
use omci_msg::Request;
use std::alloc::{AllocError, Global};

/// Whether none of the configurations between tears a frame that comes in at a port, where requests are carried out one after the other from the first on.
fn are_hitless_at(
    alloc: Global,
    before: &Mib,
    here: &mut Mib,
    requests: &[Request],
    after: &Mib,
    port: u16,
) -> Result<bool, AllocError>
    requires { here.old.entities ≡ before.now.entities }
    ensures { IfOk result (λ are. Tells are
        (AreHitlessAt before.now.entities requests.now after.now.entities port)) }
{
    let mut last = Rows::of(alloc, before, port)?;
    let between = requests.len().saturating_sub(1);
    for place in 0..between {
        let _ = here.carry_out(&requests[place]);
        let moment = Moment {
            before,
            here,
            after,
            port,
        };
        let Some(next) = follow(alloc, &moment, &last)? else {
            return Ok(false);
        };
        last = next;
    }
    Ok(true)
}

/// The same, where the first is still to be made.
fn are_hitless_from(
    alloc: Global,
    before: &Mib,
    earlier: &[Request],
    requests: &[Request],
    end: &Mib,
    port: u16,
) -> Result<bool, AllocError>
    requires { before.now.entities ≡ after earlier.now }
    ensures { IfOk result (λ are. Tells are
        (AreHitlessAt before.now.entities requests.now end.now.entities port)) }
{
    let mut here = entities_after(alloc, earlier)?;
    are_hitless_at(alloc, before, &mut here, requests, end, port)
}

/// The same at each of these ports.
fn are_hitless_at_all(
    alloc: Global,
    before: &Mib,
    earlier: &[Request],
    requests: &[Request],
    end: &Mib,
    ports: &[u16],
) -> Result<bool, AllocError>
    requires { before.now.entities ≡ after earlier.now }
    ensures { IfOk result (λ are. Tells are
        (All (AreHitlessAt before.now.entities requests.now end.now.entities) ports.now)) }
{
    for place in 0..ports.len() {
        let are_hitless = are_hitless_from(alloc, before, earlier, requests, end, ports[place])?;
        if !are_hitless {
            return Ok(false);
        }
    }
    Ok(true)
}

/// The same at every port.
fn are_hitless(
    alloc: Global,
    before: &Mib,
    earlier: &[Request],
    requests: &[Request],
    end: &Mib,
) -> Result<bool, AllocError>
    requires { before.now.entities ≡ after earlier.now }
    ensures { IfOk result (λ are. Tells are
        (AreHitless before.now.entities requests.now end.now.entities)) }
{
    law_of_named_ports();
    let ports = ports_on_way(alloc, earlier, requests)?;
    let are_hitless = are_hitless_at_all(alloc, before, earlier, requests, end, &ports)?;
    Ok(are_hitless)
}

/// Whether requests, carried out one after the other, are each accepted in its turn and lead to a goal.
fn do_lead(
    alloc: Global,
    end: &mut Mib,
    requests: &[Request],
    goal: &Mib,
    aim: Aim,
) -> Result<bool, AllocError>
    ensures after { end.new.entities ≡ after_from end.old.entities requests.now }
    ensures lead { IfOk result (λ leads. leads ≡ true
        → DoLead aim end.old.entities requests.now goal.now.entities) }
{
    let are_accepted = carry_out_all(end, requests);
    if !are_accepted {
        return Ok(false);
    }
    let is_reached = is_reached(alloc, end, goal, aim)?;
    Ok(is_reached)
}

/// Whether requests are a migration from the configuration before, which is at the end as long as none is carried out.
fn is_way(
    alloc: Global,
    before: &Mib,
    end: &mut Mib,
    earlier: &[Request],
    requests: &[Request],
    wanted: &Wanted<'_>,
) -> Result<bool, AllocError>
    requires before { before.now.entities ≡ after earlier.now }
    requires end { end.old.entities ≡ before.now.entities }
    ensures { IfOk result (λ is. is ≡ true → IsMigration wanted.now.aim before.now.entities
        requests.now wanted.now.goal.now.entities) }
{
    let do_lead = do_lead(alloc, end, requests, wanted.goal, wanted.aim)?;
    if !do_lead {
        return Ok(false);
    }
    let are_hitless = are_hitless(alloc, before, earlier, requests, end)?;
    Ok(are_hitless)
}

/// The same, where what is at the end is still to be made.
fn is_way_from(
    alloc: Global,
    before: &Mib,
    earlier: &[Request],
    requests: &[Request],
    wanted: &Wanted<'_>,
) -> Result<bool, AllocError>
    requires { before.now.entities ≡ after earlier.now }
    ensures { IfOk result (λ is. is ≡ true → IsMigration wanted.now.aim (after earlier.now)
        requests.now wanted.now.goal.now.entities) }
{
    let mut end = entities_after(alloc, earlier)?;
    is_way(alloc, before, &mut end, earlier, requests, wanted)
}

/// Whether requests are a migration from what earlier requests lead to, to a goal: each is accepted in its turn; what they lead to is the goal,
/// by its instances or by what frames see; and no configuration between is torn for any frame at any port. Err only where memory is refused.
///
/// Port by port it looks at the frames that a request may have changed, and at all of them where it changes which entry is tried first.
pub fn is_migration(
    alloc: Global,
    earlier: &[Request],
    requests: &[Request],
    wanted: &Wanted<'_>,
) -> Result<bool, AllocError>
    ensures { IfOk result (λ is. is ≡ true → IsMigration wanted.now.aim (after earlier.now)
        requests.now wanted.now.goal.now.entities) }
{
    let before = entities_after(alloc, earlier)?;
    is_way_from(alloc, &before, earlier, requests, wanted)
}
