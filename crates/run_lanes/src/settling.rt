//! What is known once the lanes are back.
ghost use Rattle.std.specs.Prelude.{◌≡◌, ◌++◌, ◌⊎◌, Ok, IfOk, IsErrOf, All};
ghost use Rattle.plan_publish.specs.Lane.{home_of, HeldPrefixes};
ghost use Rattle.plan_publish.specs.Told.{told_home, told_list};
ghost use Rattle.run_lanes.specs.Settling.{AllAreFull, Collected, IsSettled, SomeLaneIsFull};

use crate::fault::{LaneFault, gathering};
use frame_batch::{Tally, gather_versions};
use frame_stats::Counts;
use plan_publish::{Lane, Told};
use std::alloc::Global;

/// What a lane's thread gives back.
#[derive(Drop)]
pub(crate) struct Done {
    /// The lane itself.
    pub(crate) lane: Lane,
    /// What is kept of its batches.
    pub(crate) tallies: Result<Vec<Tally>, LaneFault>,
}

/// What is known of all batches.
#[derive(Drop)]
pub(crate) struct Settled {
    /// How many messages are accepted.
    pub(crate) accepted: u64,
    /// The version of each batch, in order.
    pub(crate) versions: Vec<u64>,
    /// The counts of all verdicts.
    pub(crate) counts: Counts,
}

/// Settles what the lanes did: each shows that it holds what was told, and the versions of their batches are put in order.
pub(crate) fn settle(
    alloc: Global,
    all_done: Vec<Done>,
    told: &Told,
    count: u32,
) -> Result<Settled, LaneFault>
    requires { All (λ d. told_home told.now ≡ home_of d.lane) all_done.items }
    ensures settled { IfOk result (IsSettled (told_list told.now) all_done.items count) }
    ensures full { IsErrOf result LaneFault.CountFull
        → SomeLaneIsFull (told_list told.now) all_done.items
        ⊎ AllAreFull (told_list told.now) all_done.items count }
{
    let accepted = told.version();
    let tallies = collect(alloc, all_done, told)?;
    match gather_versions(alloc, tallies.as_slice(), count) {
        Ok(gathered) => Ok(Settled {
            accepted,
            versions: gathered.versions,
            counts: gathered.counts,
        }),
        Err(fault) => Err(gathering(fault)),
    }
}

/// The tallies of a lane, which then holds what was told.
fn confirmed(done: Done, told: &Told) -> Result<Vec<Tally>, LaneFault>
    requires { told_home told.now ≡ home_of done.lane }
    ensures confirmed { IfOk result (λ tallies. (done.tallies ≡ Ok tallies)
        × HeldPrefixes (told_list told.now) done.lane) }
    ensures full { IsErrOf result LaneFault.CountFull
        → IsErrOf done.tallies LaneFault.CountFull
        × HeldPrefixes (told_list told.now) done.lane }
{
    let Done { lane, tallies } = done;
    let mut lane = lane;
    if !lane.confirm(told) {
        return Err(LaneFault::Refused);
    }
    tallies
}

/// The tallies of one lane more.
fn add_tallies(all: Vec<Tally>, more: Vec<Tally>) -> Result<Vec<Tally>, LaneFault>
    ensures added { IfOk result (λ both. both.items ≡ all.items ++ more.items) }
    ensures full { ¬ (IsErrOf result LaneFault.CountFull) }
{
    // The first lane's tallies are all there are so far, and stay where they are.
    if all.is_empty() {
        return Ok(more);
    }
    let mut all = all;
    let mut more = more;
    match all.append(&mut more) {
        Ok(()) => Ok(all),
        Err(_) => Err(LaneFault::NoMemory),
    }
}

/// The tallies of all lanes, each of which then holds what was told.
pub(crate) fn collect(
    alloc: Global,
    all_done: Vec<Done>,
    told: &Told,
) -> Result<Vec<Tally>, LaneFault>
    requires { All (λ d. told_home told.now ≡ home_of d.lane) all_done.items }
    ensures collected { IfOk result (λ all.
        Collected (told_list told.now) all_done.items all.items) }
    ensures full { IsErrOf result LaneFault.CountFull
        → SomeLaneIsFull (told_list told.now) all_done.items }
{
    let mut all = Vec::new(alloc);
    for done in all_done {
        all = add_tallies(all, confirmed(done, told)?)?;
    }
    Ok(all)
}
