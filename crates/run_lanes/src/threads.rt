//! The lanes on threads of their own, and the control beside them.
ghost use Rattle.std.specs.Prelude.{◌≡◌, IfOk, OnOk, IsErrOf, All};
ghost use Rattle.std.specs.List.{AllZip};
ghost use Rattle.std.specs.Option.{ForSome};
ghost use Rattle.run_lanes.specs.Control.{Applied};
ghost use Rattle.run_lanes.specs.Frames.{frames_in};
ghost use Rattle.run_lanes.specs.Work.{Did, IsOut};

use crate::control_work::apply_requests;
use crate::fault::LaneFault;
use crate::job::Job;
use crate::lane_work::lane_batches;
use crate::settling::Done;
use frame_batch::Gate;
use omci_msg::Request;
use plan_publish::{Control, Lane};
use std::alloc::AllocError;
use std::sync::Wait;
use std::thread::{Threads, join_mut, map_vec};

/// A lane's batches. It comes from another thread, and goes back there.
fn lane_work<G: Gate, R: Wait>(rt: &R, lane: Lane, job: &Job<'_, '_>, gate: &G) -> Done
    requires { IsOut lane }
    ensures { Did job.now.settings (frames_in job.now.frames) lane result }
{
    let mut lane = lane;
    let tallies = lane_batches(rt, &mut lane, job, gate);
    Done { lane, tallies }
}

/// All lanes, each on a thread of its own, or in turn where there is none.
pub(crate) fn lanes_work<G: Gate + Sync, R: Threads + Wait + Sync>(
    rt: &R,
    lanes: Vec<Lane>,
    job: &Job<'_, '_>,
    gate: &G,
) -> Result<Vec<Done>, AllocError>
    requires { All IsOut lanes.items }
    ensures { IfOk result (λ all.
        AllZip (Did job.now.settings (frames_in job.now.frames)) lanes.items all.items) }
{
    map_vec(
        rt,
        lanes,
        &|lane: Lane| -> Done
            requires { IsOut lane }
            ensures { Did job.entry.now.settings (frames_in job.entry.now.frames) lane result }
        { lane_work(rt, lane, job, gate) },
    )
}

/// All lanes that wait, or none.
fn waiting_work<G: Gate + Sync, R: Threads + Wait + Sync>(
    rt: &R,
    waiting: &mut Option<Vec<Lane>>,
    job: &Job<'_, '_>,
    gate: &G,
) -> Result<Vec<Done>, AllocError>
    requires { ForSome waiting.old (λ lanes. All IsOut lanes.items) }
    ensures { ForSome waiting.old (λ lanes. IfOk result (λ all.
        AllZip (Did job.now.settings (frames_in job.now.frames)) lanes.items all.items)) }
{
    match waiting.take() {
        Some(lanes) => lanes_work(rt, lanes, job, gate),
        None => Ok(Vec::new(job.alloc)),
    }
}

/// The lanes forward while the control carries the requests out and publishes.
pub(crate) fn work_at_once<G: Gate + Sync, R: Threads + Wait + Sync>(
    rt: &R,
    control: &mut Control,
    lanes: Vec<Lane>,
    requests: &[Request],
    job: &Job<'_, '_>,
    gate: &G,
) -> (Result<Vec<Done>, AllocError>, Result<(), LaneFault>)
    requires { All IsOut lanes.items }
    ensures done { IfOk result.0 (λ all.
        AllZip (Did job.now.settings (frames_in job.now.frames)) lanes.items all.items) }
    ensures applied { OnOk result.1 (Applied control.old control.new requests.now) }
    ensures full { ¬ (IsErrOf result.1 LaneFault.CountFull) }
{
    let mut waiting = Some(lanes);
    join_mut(
        rt,
        &mut || -> Result<Vec<Done>, AllocError>
            requires { ForSome waiting (λ lanes. All IsOut lanes.items) }
            ensures { ForSome waiting.entry (λ lanes.
                IfOk result (λ all.
                AllZip (Did job.entry.now.settings (frames_in job.entry.now.frames)) lanes.items
                all.items)) }
        { waiting_work(rt, &mut waiting, job, gate) },
        &mut || -> Result<(), LaneFault>
            ensures applied { OnOk result
                (Applied control.entry.now control.exit.now requests.entry.now) }
            ensures full { ¬ (IsErrOf result LaneFault.CountFull) }
        { apply_requests(rt, control, requests, job, gate) },
    )
}
