//! The judgement of a history with the course of its frames.
ghost use Rattle.std.specs.Prelude.{◌≡◌, IfErr, IfOk};
ghost use Rattle.bench_judge.specs.Course.{IsFollowed, IsFoundWith};
ghost use Rattle.bench_judge.specs.Judged.{IsWhyUnjudged};
ghost use Rattle.bench_judge.specs.declared.fault.JudgeFault.TheVariants.{NoMemory};
ghost use Rattle.bench_judge.specs.Terms.{terms_of};
ghost use Rattle.bench_judge.specs.Walk.{AreSound};

use crate::course::{Course, course_of};
use crate::fault::JudgeFault;
use crate::judgement::Judgement;
use crate::judging::{Judged, judge_events};
use crate::known::Known;
use crate::reading::{events_in, events_of};
use crate::settings::JudgeSettings;
use crate::terms::Terms;
use crate::watch::Watch;
use bench_history::{Event, Pieces};
use omci_msg::Request;
use std::alloc::{AllocError, Global};

/// What is found of a history, and where it is explained the course of its frames.
#[derive(Drop)]
pub struct Followed<'a> {
    pub judgement: Judgement<'a>,
    pub course: Option<Course<'a>>,
}

/// What is found of events, and their course.
fn follow_events<'a, W: Watch>(
    alloc: Global,
    events: &[Event<'a>],
    terms: &Terms<'_>,
    watch: &mut W,
) -> Result<Followed<'a>, AllocError>
    requires { AreSound events.now }
    ensures { IfOk result (IsFoundWith (terms_of terms.now) events.now) }
{
    let nothing = Known::nothing(alloc);
    let Judged {
        judgement,
        known,
        walk,
    } = judge_events(alloc, events, terms, &nothing, watch)?;
    match walk {
        Some(walk) => {
            let course = course_of(alloc, events, walk, &known)?;
            Ok(Followed {
                judgement,
                course: Some(course),
            })
        }
        None => Ok(Followed {
            judgement,
            course: None,
        }),
    }
}

/// The same, or that memory was refused.
fn follow_upon<'a, W: Watch>(
    alloc: Global,
    events: &[Event<'a>],
    terms: &Terms<'_>,
    watch: &mut W,
) -> Result<Followed<'a>, JudgeFault>
    requires { AreSound events.now }
    ensures found { IfOk result (IsFoundWith (terms_of terms.now) events.now) }
    ensures fault { IfErr result (λ fault. fault ≡ NoMemory) }
{
    match follow_events(alloc, events, terms, watch) {
        Ok(followed) => Ok(followed),
        Err(AllocError) => Err(JudgeFault::NoMemory),
    }
}

/// Judges a history as [`judge_watched`](crate::judge_watched) does, and gives, where it is explained, the course of its frames: each that
/// was judged, with its least version, and the requests that versions count. Where each frame is judged by itself, the versions are some
/// that they may have, and needn't be the least.
///
/// It takes as long as a judgement, and time and memory in proportion to the frames.
pub fn follow<'a, W: Watch>(
    alloc: Global,
    start: &[Request],
    history: &'a [u8],
    settings: &JudgeSettings,
    watch: &mut W,
) -> Result<Followed<'a>, JudgeFault>
    ensures found { IfOk result (IsFollowed settings.now start.now history.now) }
    ensures fault { IfErr result (IsWhyUnjudged history.now) }
{
    let events = events_of(alloc, history, watch)?;
    let terms = Terms {
        settings: *settings,
        start,
    };
    follow_upon(alloc, &events, &terms, watch)
}

/// Does as [`follow`] does, for a history in pieces: its text is what they hold.
pub fn follow_pieces<'a, W: Watch>(
    alloc: Global,
    start: &[Request],
    history: &'a Pieces,
    settings: &JudgeSettings,
    watch: &mut W,
) -> Result<Followed<'a>, JudgeFault>
    ensures found { IfOk result (IsFollowed settings.now start.now history.now) }
    ensures fault { IfErr result (IsWhyUnjudged history.now) }
{
    let events = events_in(alloc, history, watch)?;
    let terms = Terms {
        settings: *settings,
        start,
    };
    follow_upon(alloc, &events, &terms, watch)
}
