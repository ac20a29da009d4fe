//! The course of an explained history: which frames were judged, and by which versions.
ghost use Rattle.std.specs.Prelude.{◌≡◌, ◌++◌, [], IfOk, OnOk, length, slice_index};
ghost use Rattle.std.specs.List.{cons_option};
ghost use Rattle.bench_answers.specs.Ground.{Ground};
ghost use Rattle.bench_judge.specs.Course.{AreJudgedUnder, IsCourse, IsKeptWhole, judged_by};
ghost use Rattle.bench_judge.specs.Terms.{Terms as TheTerms};
ghost use Rattle.bench_judge.specs.Walk.{AreSentBy};

use crate::bounds::version_at;
use crate::frame::Frame;
use crate::known::Known;
use crate::walk::Walk;
use bench_history::{Digits, Event};
use omci_msg::Request;
use std::alloc::{AllocError, Global};

/// A frame that was judged: it ended, and enough of it is known.
#[derive(Drop)]
pub struct JudgedFrame<'a> {
    /// The port that it was sent into.
    pub port: u16,
    /// What is known of it as it was sent: all of it, or a front of at least 24 bytes.
    pub frame: Digits<'a>,
    /// The least version that it may have, a number of accepted requests, without those that were carried out before the first line.
    pub version: usize,
}

/// The course of an explained history.
#[derive(Drop)]
pub struct Course<'a> {
    /// The frames that were judged, in the order in which they were sent.
    pub frames: Vec<JudgedFrame<'a>>,
    /// The accepted requests: first those that were carried out before the first line, which belong to version 0.
    pub requests: Vec<Request>,
    /// How many of them were carried out before the first line.
    pub base: usize,
}

/// What is said of a frame with this version, if it has ended and is judged.
fn judged<'a>(events: &[Event<'a>], frame: &Frame, version: usize) -> Option<JudgedFrame<'a>>
    ensures { result ≡ judged_by events.now frame.now version }
{
    frame.ended?;
    match events.get(frame.sent) {
        Some(Event::Entered { frame: sent, .. }) => Some(JudgedFrame {
            port: frame.port,
            frame: sent.copied(),
            version,
        }),
        _ => None,
    }
}

/// Adds a frame, if there is one.
fn add<'a>(
    list: &mut Vec<JudgedFrame<'a>>,
    frame: Option<JudgedFrame<'a>>,
) -> Result<(), AllocError>
    ensures { OnOk result (list.new.items ≡ list.old.items ++ cons_option frame.entry []) }
{
    if let Some(frame) = frame {
        list.push(frame)?;
        return Ok(());
    }
    Ok(())
}

/// What is said of each frame that has ended and is judged, by its version. So many requests before the first line aren't counted.
fn judged_frames<'a>(
    alloc: Global,
    events: &[Event<'a>],
    frames: &[Frame],
    versions: &[usize],
    base: usize,
) -> Result<Vec<JudgedFrame<'a>>, AllocError>
    ensures { (grounds : Ground) → AreSentBy grounds events.now frames.now
        → IfOk result (λ list. AreJudgedUnder base events.now frames.now
        (slice_index versions.now) (length frames.now) list.items) }
{
    let mut list = Vec::new(alloc);
    for number in 0..frames.len() {
        let version = version_at(versions, number).saturating_sub(base);
        add(&mut list, judged(events, &frames[number], version))?;
    }
    Ok(list)
}

/// The course of events that were walked whole, by their frames' versions.
pub(crate) fn course_of<'a>(
    alloc: Global,
    events: &[Event<'a>],
    walk: Walk,
    known: &Known,
) -> Result<Course<'a>, AllocError>
    ensures { (terms : TheTerms) → IsKeptWhole terms events.now known.now walk
        → IfOk result (IsCourse terms events.now) }
{
    let frames = judged_frames(alloc, events, &walk.frames, &known.versions, walk.base)?;
    let Walk {
        walked: _,
        frames: _,
        requests,
        base,
        compared: _,
        awaited: _,
    } = walk;
    Ok(Course {
        frames,
        requests,
        base,
    })
}
