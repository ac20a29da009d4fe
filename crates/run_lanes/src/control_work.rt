//! What the control does.
ghost use Rattle.std.specs.Prelude.{◌≡◌, ◌∷◌, [], OnOk, IsErrOf};
ghost use Rattle.plan_publish.specs.Control.{accepted_of};
ghost use Rattle.run_lanes.specs.Control.{Applied};

use crate::fault::LaneFault;
use crate::job::Job;
use frame_batch::Gate;
use omci_msg::Request;
use plan_publish::Control;
use std::sync::Wait;

/// Carries requests out, one after the other. Unless the frames are forwarded after all of them, each accepted one is published at
/// once.
pub(crate) fn apply_requests<G: Gate, R: Wait>(
    rt: &R,
    control: &mut Control,
    requests: &[Request],
    job: &Job<'_, '_>,
    gate: &G,
) -> Result<(), LaneFault>
    ensures applied { OnOk result (Applied control.old control.new requests.now) }
    ensures full { ¬ (IsErrOf result LaneFault.CountFull) }
{
    for request in requests {
        apply_request(rt, control, request, job, gate)?;
    }
    Ok(())
}

/// Carries a request out, and publishes it where it is accepted and isn't left for later.
fn apply_request<G: Gate, R: Wait>(
    rt: &R,
    control: &mut Control,
    request: &Request,
    job: &Job<'_, '_>,
    gate: &G,
) -> Result<(), LaneFault>
    ensures applied { OnOk result (Applied control.old control.new (request.now ∷ [])) }
    ensures full { ¬ (IsErrOf result LaneFault.CountFull) }
{
    let Ok(carried) = control.carry_out(request) else {
        return Err(LaneFault::NoMemory);
    };
    if carried.accepted && !job.settings.after {
        return publish_one(rt, control, job, gate);
    }
    Ok(())
}

/// Publishes what is accepted, and asks the gate, as the lane behind the last one.
fn publish_one<G: Gate, R: Wait>(
    rt: &R,
    control: &mut Control,
    job: &Job<'_, '_>,
    gate: &G,
) -> Result<(), LaneFault>
    ensures published { control.new
        ≡ record control.old { published = accepted_of control.old; pending = [] } }
    ensures full { ¬ (IsErrOf result LaneFault.CountFull) }
{
    let told = control.publish(rt);
    let version = (told.version() & 0xffff_ffff) as u32;
    if gate.pass(job.settings.lanes, version, job.turns) {
        Ok(())
    } else {
        Err(LaneFault::Refused)
    }
}
