//! Which events a right unit may have shown by themselves.
ghost use Rattle.std.specs.Prelude.{ℕ, Decides, IfOk, take};
ghost use Rattle.bench_judge.specs.Admitted.{IsAdmitted};
ghost use Rattle.bench_judge.specs.Doubt.{IsLatest};
ghost use Rattle.bench_judge.specs.Scene.{IsScene};
ghost use Rattle.bench_judge.specs.Terms.{terms_of};

use crate::doubt::{Doubtful, Latest, is_one_of};
use crate::frame::Case;
use crate::known::Known;
use crate::scene::Scene;
use crate::terms::Terms;
use bench_history::Event;
use std::alloc::{AllocError, Global};

/// Whether an event by itself is one that a right unit may have shown behind those of a scene.
pub(crate) fn is_admitted(
    alloc: Global,
    terms: &Terms<'_>,
    scene: &Scene<'_>,
    events: &[Event<'_>],
    event: &Event<'_>,
    latest: &mut Option<Latest>,
) -> Result<bool, AllocError>
    requires scene { (place : ℕ) × IsScene (terms_of terms.now) events.now place scene.now }
    requires latest { IsLatest scene.now.answers.asking.requests.items latest.old }
    ensures latest { IsLatest scene.now.answers.asking.requests.items latest.new }
    ensures is { IfOk result (λ is. (place : ℕ) → IsScene (terms_of terms.now) events.now place scene.now
        → Decides is (IsAdmitted (terms_of terms.now) (take place events.now) event.now)) }
{
    match event {
        Event::Replied { reply } => Ok(scene.answers.is_right(reply)),
        Event::Strayed { .. } => Ok(terms.settings.strays),
        Event::LeftOneOf { gem, extent, among } => {
            let case = Case {
                events,
                requests: scene.answers.requests(),
                frames: &scene.frames,
                known: &Known::nothing(alloc),
                padded: terms.settings.padded,
                unordered: terms.settings.unordered,
            };
            let doubtful = Doubtful {
                gem: *gem,
                extent: *extent,
                among,
            };
            is_one_of(alloc, latest, &case, &doubtful)
        }
        _ => Ok(true),
    }
}
