//! Every line that no right unit explains.
ghost use Rattle.std.specs.Prelude.{◌≡◌, IfErr, IfOk, Some, slice_get, slice_set};
ghost use Rattle.bench_history.specs.declared.event.Event.{Event as TheEvent};
ghost use Rattle.bench_judge.specs.Deviations.{AreFindings, IsFindings, taken_back};
ghost use Rattle.bench_judge.specs.Judged.{IsWhyUnjudged};
ghost use Rattle.bench_judge.specs.Terms.{terms_of};
ghost use Rattle.bench_judge.specs.Walk.{AreSound};

use crate::fault::JudgeFault;
use crate::judgement::{Deviations, Findings, Judgement};
use crate::judging::{Judged, judge_events};
use crate::known::Known;
use crate::reading::{events_in, events_of};
use crate::settings::JudgeSettings;
use crate::terms::Terms;
use crate::watch::Watch;
use bench_history::{Event, Pieces};
use omci_msg::Request;
use std::alloc::{AllocError, Global};

/// Takes back what the event at a place claims.
fn take_back(events: &mut Vec<Event<'_>>, place: usize)
    ensures { (event : TheEvent) → slice_get events.old.items place ≡ Some event
        → events.new.items ≡ slice_set events.old.items place (taken_back event) }
{
    if let Some(event) = events.get_mut(place) {
        *event = match event {
            Event::Replied { reply } => Event::Excused {
                reply: reply.copied(),
            },
            _ => Event::Nothing,
        };
    }
}

/// What is found of events, where at most so many deviations are looked for.
fn find_all<'a, W: Watch>(
    alloc: Global,
    events: Vec<Event<'a>>,
    terms: &Terms<'_>,
    most: usize,
    watch: &mut W,
) -> Result<Findings<'a>, AllocError>
    requires { AreSound events.items }
    ensures { IfOk result (IsFindings (terms_of terms.now) most events.entry.items) }
{
    let mut events = events;
    let mut known = Known::nothing(alloc);
    let mut list = Vec::new(alloc);
    'each_deviation: loop {
        let Judged {
            judgement,
            known: next,
            walk: _,
        } = judge_events(alloc, &events, terms, &known, watch)?;
        known = next;
        match judgement {
            Judgement::Explained(explanation) if list.is_empty() => {
                return Ok(Findings::Explained(explanation));
            }
            Judgement::Explained(_) => {
                return Ok(Findings::Deviates(Deviations { list, more: false }));
            }
            Judgement::Deviates(_) if list.len() >= most => {
                return Ok(Findings::Deviates(Deviations { list, more: true }));
            }
            Judgement::Deviates(deviation) => {
                take_back(&mut events, deviation.line - 1);
                list.push(deviation)?;
            }
        }
    }
}

/// Judges a history as [`judge_watched`](crate::judge_watched) does, and goes on behind each deviation: the claim of its line is taken back,
/// and the next deviation is the first of what is left. So the lines ascend.
///
/// A frame whose end was wrong is open, and a stray isn't there. A wrong reply counts as the right one to the first waiting request that has
/// its identifier, action, class and instance, and the requests before that stay unanswered. Where none has these, and a request that was
/// answered or left out before has, the reply isn't there. Else it counts as the reply to the next request.
///
/// The list has at most `most` deviations, and [`Deviations::more`] says whether it was cut. An explained history is
/// [`Findings::Explained`], whatever `most` is. For each deviation the events are walked and the versions gone through as for a judgement,
/// and once more behind the last one; but a frame before the last deviation is not compared again with what was seen of it, where it may
/// have the version that was found for it. Memory is as that of a judgement.
///
/// [`JudgeFault::BadLine`] comes exactly where a line is bad, with the number of the first; [`JudgeFault::NoMemory`] where a request for
/// memory is refused.
pub fn judge_all<'a, W: Watch>(
    alloc: Global,
    start: &[Request],
    history: &'a [u8],
    settings: &JudgeSettings,
    most: usize,
    watch: &mut W,
) -> Result<Findings<'a>, JudgeFault>
    ensures found { IfOk result (AreFindings settings.now start.now most history.now) }
    ensures fault { IfErr result (IsWhyUnjudged history.now) }
{
    let events = events_of(alloc, history, watch)?;
    let terms = Terms {
        settings: *settings,
        start,
    };
    match find_all(alloc, events, &terms, most, watch) {
        Ok(findings) => Ok(findings),
        Err(AllocError) => Err(JudgeFault::NoMemory),
    }
}

/// Does as [`judge_all`] does, for a history in pieces: its text is what they hold.
pub fn judge_all_pieces<'a, W: Watch>(
    alloc: Global,
    start: &[Request],
    history: &'a Pieces,
    settings: &JudgeSettings,
    most: usize,
    watch: &mut W,
) -> Result<Findings<'a>, JudgeFault>
    ensures found { IfOk result (AreFindings settings.now start.now most history.now) }
    ensures fault { IfErr result (IsWhyUnjudged history.now) }
{
    let events = events_in(alloc, history, watch)?;
    let terms = Terms {
        settings: *settings,
        start,
    };
    match find_all(alloc, events, &terms, most, watch) {
        Ok(findings) => Ok(findings),
        Err(AllocError) => Err(JudgeFault::NoMemory),
    }
}
