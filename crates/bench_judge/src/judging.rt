//! The judgement of a history.
ghost use Rattle.std.specs.Prelude.{◌≡◌, ◌+◌, IfErr, IfOk, take};
ghost use Rattle.bench_judge.specs.Course.{IsKeptBeside};
ghost use Rattle.bench_judge.specs.Cut.{HasChoice};
ghost use Rattle.bench_judge.specs.Judged.{IsFound, IsJudgement, IsWhyUnjudged};
ghost use Rattle.bench_judge.specs.Known.{IsKnown};
ghost use Rattle.bench_judge.specs.declared.fault.JudgeFault.TheVariants.{NoMemory};
ghost use Rattle.bench_judge.specs.declared.judgement.Deviation.{Deviation as TheDeviation};
ghost use Rattle.bench_judge.specs.declared.judgement.Judgement.TheVariants.{Deviates as TheDeviates};
ghost use Rattle.bench_judge.specs.Terms.{ground_in, terms_of};
ghost use Rattle.bench_judge.specs.Walk.{AreSound, IsWalk};

use crate::counts::{counts, doubtful};
use crate::cut::choice_until;
use crate::deviation::{wrong_event, wrong_frame};
use crate::evidence::{evidence, is_finished};
use crate::fault::JudgeFault;
use crate::halving::turn;
use crate::judgement::{Deviation, Explanation, Judgement, Wrong};
use crate::known::Known;
use crate::reading::{events_in, events_of};
use crate::settings::JudgeSettings;
use crate::steps::steps;
use crate::terms::Terms;
use crate::walk::{Walk, walk_through};
use crate::watch::{Nobody, Stage, Watch};
use bench_history::{Event, Pieces};
use omci_msg::Request;
use std::alloc::{AllocError, Global};

/// What is found of events, and versions that the frames may have before the first line that isn't explained.
#[derive(Drop)]
pub(crate) struct Judged<'a> {
    pub(crate) judgement: Judgement<'a>,
    pub(crate) known: Known,
    /// What is known of them where all are explained.
    pub(crate) walk: Option<Walk>,
}

/// What is found of events, of which something is known.
pub(crate) fn judge_events<'a, W: Watch>(
    alloc: Global,
    events: &[Event<'a>],
    terms: &Terms<'_>,
    known: &Known,
    watch: &mut W,
) -> Result<Judged<'a>, AllocError>
    requires sound { AreSound events.now }
    requires known { IsKnown (terms_of terms.now) events.now known.now }
    ensures found { IfOk result (λ judged. IsFound (terms_of terms.now) events.now judged.judgement) }
    ensures known { IfOk result (λ judged. IsKnown (terms_of terms.now) events.now judged.known) }
    ensures until { IfOk result (λ judged. (deviation : TheDeviation)
        → judged.judgement ≡ TheDeviates deviation → deviation.line ≡ judged.known.until + 1) }
    ensures kept { IfOk result (λ judged.
        IsKeptBeside (terms_of terms.now) events.now judged.judgement judged.known judged.walk) }
{
    watch.reached(Stage::Read {
        lines: events.len(),
    });
    let walk = walk_through(alloc, events, terms, watch)?;
    watch.reached(Stage::Walked {
        frames: walk.frames.len(),
        requests: walk.requests.len(),
    });
    let end = walk.walked;
    let mut hint = end;
    let Some(versions) = choice_until(alloc, events, &walk, terms, known, end, &mut hint, watch)?
    else {
        return deviates(alloc, events, &walk, terms, known, hint, watch);
    };
    if walk.walked < events.len() {
        return Ok(Judged {
            judgement: Judgement::Deviates(Deviation {
                line: walk.walked + 1,
                wrong: wrong_event(alloc, events, walk, terms)?,
            }),
            known: Known {
                until: end,
                versions,
            },
            walk: None,
        });
    }
    let doubtful = doubtful(alloc, events, walk.frames.len())?;
    let accepted = walk.requests.len() - walk.base;
    let unordered = terms.settings.unordered;
    Ok(Judged {
        judgement: Judgement::Explained(Explanation {
            counts: counts(events, &walk.frames, accepted, doubtful),
            steps: steps(alloc, &walk.frames, &versions, unordered, walk.base)?,
            finished: is_finished(events),
            evidence: evidence(events, &walk.frames, walk.compared),
        }),
        known: Known {
            until: end,
            versions,
        },
        walk: Some(walk),
    })
}

/// What is found of events that were walked, which leave their frames no choice of versions: the first that leaves none.
fn deviates<'a, W: Watch>(
    alloc: Global,
    events: &[Event<'a>],
    walk: &Walk,
    terms: &Terms<'_>,
    known: &Known,
    hint: usize,
    watch: &mut W,
) -> Result<Judged<'a>, AllocError>
    requires sound { AreSound events.now }
    requires walked { IsWalk (terms_of terms.now) events.now walk.now }
    requires known { IsKnown (terms_of terms.now) events.now known.now }
    requires none { ¬ (HasChoice (ground_in (terms_of terms.now)) terms.now.settings.padded
        terms.now.settings.unordered (take walk.now.walked events.now)) }
    ensures found { IfOk result (λ judged. IsFound (terms_of terms.now) events.now judged.judgement) }
    ensures known { IfOk result (λ judged. IsKnown (terms_of terms.now) events.now judged.known) }
    ensures until { IfOk result (λ judged. (deviation : TheDeviation)
        → judged.judgement ≡ TheDeviates deviation → deviation.line ≡ judged.known.until + 1) }
    ensures kept { IfOk result (λ judged.
        IsKeptBeside (terms_of terms.now) events.now judged.judgement judged.known judged.walk) }
{
    let place = turn(alloc, events, walk, terms, known, hint, watch)?;
    let (frame, versions) = wrong_frame(alloc, events, walk, terms, known, place)?;
    Ok(Judged {
        judgement: Judgement::Deviates(Deviation {
            line: place + 1,
            wrong: Wrong::Frame(frame),
        }),
        known: Known {
            until: place,
            versions,
        },
        walk: None,
    })
}

/// What is found of the events of a history.
fn judge_upon<'a, W: Watch>(
    alloc: Global,
    events: &[Event<'a>],
    terms: &Terms<'_>,
    watch: &mut W,
) -> Result<Judgement<'a>, JudgeFault>
    requires { AreSound events.now }
    ensures found { IfOk result (IsFound (terms_of terms.now) events.now) }
    ensures fault { IfErr result (λ fault. fault ≡ NoMemory) }
{
    let nothing = Known::nothing(alloc);
    match judge_events(alloc, events, terms, &nothing, watch) {
        Ok(
            Judged {
                judgement,
                known: _,
                walk: _,
            },
        ) => Ok(judgement),
        Err(AllocError) => Err(JudgeFault::NoMemory),
    }
}

/// Judges a history: whether a right unit may have behaved so while it was configured.
///
/// A unit is right where it answers each request as the model does, and each of its ports is served by one lane, which forwards each frame
/// as the managed entities mean after some of the accepted requests, never after fewer than a frame before it. A history is explained where
/// each reply is the model's, and each frame that is seen to end has a version, a number of accepted requests. By the entities after so
/// many, what was seen is what becomes of the frame. They are no fewer than those that were sent up to the request that is answered by the
/// last reply that a wait above the frame waits for, and no more than those that were sent before the frame was seen to end. The frames
/// before it at its port have no greater versions, unless each frame is judged by itself.
///
/// A stray is explained only where strays are allowed. Where one of several frames left, one of them must have a version of its own by
/// which it leaves so; such *doubtful* frames have no part in the order of their ports. Of a frame of which only a front is known, what
/// leaves of it and what was seen are compared as far as both are known. A front of less than 24 bytes is too short to judge: nothing is
/// said of its frame, and each line that names it among several is explained.
///
/// The requests of `start` were carried out before the first line. They belong to version 0: versions and counts say nothing of them. A
/// reply above all messages that is right for one of them, behind that of the reply before, answers no other request, and is no evidence.
///
/// The settings forgive what they name ([`JudgeSettings`]): contents that the model doesn't have, repeats, the order of frames, strays,
/// padding.
///
/// An explained history says what was judged of it ([`Evidence`](crate::Evidence)), and whether a line ends the observation. A frame that
/// ended is evidence, and so is a line that names several frames, if none of them has too short a front. A reply is evidence only where no
/// frame was sent. [`Explanation::passes`] says whether that is enough to pass the unit.
///
/// Where it isn't explained, the judgement names the first line that isn't with all those before it.
///
/// It takes time in proportion to the events, and to the versions times the ports, and memory in proportion to the text. Where the history
/// isn't explained, it takes that once more for each try of a shorter front: mostly two, and at most 32 more than twice as many as halvings
/// lead to one line. A reply to a repeat takes time in proportion to the requests that wait. Where each frame is judged by itself,
/// each that may not have the last version of its window takes time in proportion to the versions. A line that names several frames takes
/// time in proportion to these, and, where none of them leaves so by the last version, once more for each version.
///
/// [`JudgeFault::BadLine`] comes exactly where a line is bad, with the number of the first; [`JudgeFault::NoMemory`] where a request for
/// memory is refused.
pub fn judge<'a>(
    alloc: Global,
    start: &[Request],
    history: &'a [u8],
    settings: &JudgeSettings,
) -> Result<Judgement<'a>, JudgeFault>
    ensures found { IfOk result (IsJudgement settings.now start.now history.now) }
    ensures fault { IfErr result (IsWhyUnjudged history.now) }
{
    judge_watched(alloc, start, history, settings, &mut Nobody)
}

/// Does as [`judge`] does, and tells meanwhile how far it is.
pub fn judge_watched<'a, W: Watch>(
    alloc: Global,
    start: &[Request],
    history: &'a [u8],
    settings: &JudgeSettings,
    watch: &mut W,
) -> Result<Judgement<'a>, JudgeFault>
    ensures found { IfOk result (IsJudgement settings.now start.now history.now) }
    ensures fault { IfErr result (IsWhyUnjudged history.now) }
{
    let events = events_of(alloc, history, watch)?;
    let terms = Terms {
        settings: *settings,
        start,
    };
    judge_upon(alloc, &events, &terms, watch)
}

/// Does as [`judge_watched`] does, for a history in pieces: its text is what they hold.
pub fn judge_pieces<'a, W: Watch>(
    alloc: Global,
    start: &[Request],
    history: &'a Pieces,
    settings: &JudgeSettings,
    watch: &mut W,
) -> Result<Judgement<'a>, JudgeFault>
    ensures found { IfOk result (IsJudgement settings.now start.now history.now) }
    ensures fault { IfErr result (IsWhyUnjudged history.now) }
{
    let events = events_in(alloc, history, watch)?;
    let terms = Terms {
        settings: *settings,
        start,
    };
    judge_upon(alloc, &events, &terms, watch)
}
