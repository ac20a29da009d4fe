//! The way through events from front to back.
ghost use Rattle.std.specs.Prelude.{IfOk};
ghost use Rattle.bench_judge.specs.Terms.{terms_of};
ghost use Rattle.bench_judge.specs.Walk.{AreSound, IsWalk};

use crate::admitting::is_admitted;
use crate::frame::Frame;
use crate::scene::Scene;
use crate::terms::Terms;
use crate::watch::{Stage, Watch};
use bench_answers::Awaited;
use bench_history::Event;
use omci_msg::Request;
use std::alloc::{AllocError, Global};

/// How many lines are walked between two stages that are told.
const LINES_A_STAGE: usize = 65_536;

/// What is known of events up to the first that a right unit can't have shown, whatever becomes of the frames, or of all.
#[derive(Drop)]
pub(crate) struct Walk {
    /// How many events were walked. All are admitted, and where others follow, the next one isn't.
    pub(crate) walked: usize,
    /// The frames that they sent.
    pub(crate) frames: Vec<Frame>,
    /// The accepted requests: first those before the first event.
    pub(crate) requests: Vec<Request>,
    /// How many of them stand before the first event.
    pub(crate) base: usize,
    /// How many replies were compared.
    pub(crate) compared: usize,
    /// The request that the next reply answers, if one waits.
    pub(crate) awaited: Option<Awaited>,
}

/// Tells how many of so many lines are walked, if it is time to.
fn tell<W: Watch>(watch: &mut W, lines: usize, of: usize) {
    if lines % LINES_A_STAGE == 0 {
        watch.reached(Stage::Walking { lines, of });
    }
}

/// Goes through the events of a history once, from front to back, up to the first that isn't admitted: a wrong reply, a stray where none may
/// leave, or a frame that left as none of those that it may be does.
///
/// It takes time and memory in proportion to the events, and once more to the versions for each frame that is one of several, none of
/// which leaves so by the last version.
pub(crate) fn walk_through<W: Watch>(
    alloc: Global,
    events: &[Event<'_>],
    terms: &Terms<'_>,
    watch: &mut W,
) -> Result<Walk, AllocError>
    requires { AreSound events.now }
    ensures { IfOk result (IsWalk (terms_of terms.now) events.now) }
{
    let mut scene = Scene::new(alloc, terms)?;
    let mut latest = None;
    for (place, event) in events.iter().enumerate() {
        tell(watch, place, events.len());
        if !is_admitted(alloc, terms, &scene, events, event, &mut latest)? {
            return Ok(scene.into_walk(place));
        }
        scene.add(place, event)?;
    }
    Ok(scene.into_walk(events.len()))
}
