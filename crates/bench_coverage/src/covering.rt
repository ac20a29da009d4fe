//! Which classes of frames were tried, and which not.
ghost use Rattle.std.specs.Prelude.{◌≡◌, ◌≤◌, ◌<◌, ◌^◌, ◌++◌, ◌∷◌, [], Contains, Decides, IfOk, List, OnOk, Some, slice_get};
ghost use Rattle.std.specs.List.Sorted.{IsNonDecreasingBy};
ghost use Rattle.frame_rows.specs.Class.{class_of};
ghost use Rattle.bench_judge.specs.declared.course.JudgedFrame.{JudgedFrame as TheJudgedFrame};
ghost use Rattle.bench_coverage.specs.Coverage.{IsCoverage};
ghost use Rattle.bench_coverage.specs.Noting.{IsFresh, IsGoing, IsNext, IsNotBehind, IsOf, IsSoFar, IsTurned, IsWhole};
ghost use Rattle.bench_coverage.specs.Passage.{GoesOn, IsReady, entities_in, frame_number};
ghost use Rattle.bench_coverage.specs.Stretches.{entities_by};

use crate::hints::Hints;
use crate::passage::Passage;
use crate::stretch::Stretch;
use bench_judge::{Course, JudgedFrame};
use frame_classes::FrameClass;
use omci_msg::Request;
use script_lines::MOST_SPELLED;
use std::alloc::{AllocError, Global};
use std::mem::replace;

/// A number that grows in the order of ports, and within a port of versions.
fn frame_number(frame: &JudgedFrame<'_>) -> u128
    ensures { result ≡ frame_number frame.now }
{
    u128::from(frame.port) * 0x1_0000_0000_0000_0000 + frame.version as u128
}

/// Whether a stretch is that of a passage.
fn is_of(stretch: &Stretch, passage: &Passage<'_>) -> bool
    ensures { Decides result (IsOf passage.now stretch.now) }
{
    stretch.port == passage.port && stretch.version == passage.first
}

/// The stretch of a passage, of which nothing is tried.
fn fresh_stretch(alloc: Global, passage: &Passage<'_>) -> Result<Stretch, AllocError>
    requires { IsReady passage.now }
    ensures fresh { IfOk result (IsFresh passage.now) }
    ensures whole { IfOk result IsWhole }
{
    let classes = passage.classes(alloc)?;
    let tried = vec![in alloc; false; classes.len()]?;
    Ok(Stretch {
        port: passage.port,
        version: passage.first,
        classes,
        tried,
    })
}

/// What is at hand from frame to frame: the first bytes of one, and where classes were marked last.
#[derive(Drop)]
struct Room {
    buffer: [u8; MOST_SPELLED],
    hints: Hints,
}

/// Makes the last stretch that of a passage. The stretches that are done stand apart.
fn turn_to(
    alloc: Global,
    passage: &Passage<'_>,
    done: &mut Vec<Stretch>,
    last: &mut Stretch,
) -> Result<(), AllocError>
    requires ready { IsReady passage.now }
    requires whole { IsWhole last.old }
    ensures whole { OnOk result (IsWhole last.new) }
    ensures turned { OnOk result (IsTurned passage.now done.old.items last.old done.new.items last.new) }
{
    if is_of(last, passage) {
        return Ok(());
    }
    let next = fresh_stretch(alloc, passage)?;
    done.push(replace(last, next))?;
    Ok(())
}

/// Notes that a frame of this class was judged by the version of a passage.
fn note(
    alloc: Global,
    passage: &Passage<'_>,
    class: &FrameClass,
    hints: &mut Hints,
    done: &mut Vec<Stretch>,
    last: &mut Stretch,
) -> Result<(), AllocError>
    requires ready { IsReady passage.now }
    requires whole { IsWhole last.old }
    ensures whole { OnOk result (IsWhole last.new) }
    ensures so_far { (frames : List TheJudgedFrame) (frame : TheJudgedFrame) → IsNext passage.now class.now frames frame
        → IsSoFar (entities_in passage.now) passage.now.least frames done.old.items last.old
        → OnOk result (IsSoFar (entities_in passage.now) passage.now.least (frames ++ frame ∷ []) done.new.items last.new) }
{
    turn_to(alloc, passage, done, last)?;
    last.mark(class, hints);
    Ok(())
}

/// The first stretch, of a frame of this class that was judged by the version of a passage.
fn first_stretch(
    alloc: Global,
    passage: &Passage<'_>,
    class: &FrameClass,
    hints: &mut Hints,
) -> Result<Stretch, AllocError>
    requires { IsReady passage.now }
    ensures whole { IfOk result IsWhole }
    ensures so_far { (frame : TheJudgedFrame) → IsNext passage.now class.now [] frame
        → IfOk result (IsSoFar (entities_in passage.now) passage.now.least (frame ∷ []) []) }
{
    let mut stretch = fresh_stretch(alloc, passage)?;
    stretch.mark(class, hints);
    Ok(stretch)
}

/// Goes ahead to the version of a frame, and gives its class there. The buffer takes its first bytes.
fn class_next(
    alloc: Global,
    passage: &mut Passage<'_>,
    judged: &JudgedFrame<'_>,
    buffer: &mut [u8; MOST_SPELLED],
) -> Result<FrameClass, AllocError>
    requires ready { IsReady passage.old }
    requires ahead { passage.old.port ≡ judged.now.port → passage.old.version ≤ judged.now.version }
    ensures ready { OnOk result (IsReady passage.new) }
    ensures port { OnOk result (passage.new.port ≡ judged.now.port) }
    ensures version { OnOk result (passage.new.version ≡ judged.now.version) }
    ensures bound { OnOk result (judged.now.version < 2 ^ 64) }
    ensures goes_on { OnOk result (GoesOn passage.old passage.new) }
    ensures class { IfOk result (λ class.
        class ≡ class_of (entities_in passage.new passage.new.version) passage.new.port judged.now.frame) }
{
    let version = judged.version;
    passage.go_to(alloc, judged.port, version)?;
    Ok(passage.class_of(&judged.frame, buffer))
}

/// Goes ahead to the version of a frame, and notes that it was judged by that.
fn note_next(
    alloc: Global,
    passage: &mut Passage<'_>,
    judged: &JudgedFrame<'_>,
    room: &mut Room,
    done: &mut Vec<Stretch>,
    last: &mut Stretch,
) -> Result<(), AllocError>
    requires ready { IsReady passage.old }
    requires ahead { passage.old.port ≡ judged.now.port → passage.old.version ≤ judged.now.version }
    requires whole { IsWhole last.old }
    ensures ready { OnOk result (IsReady passage.new) }
    ensures port { OnOk result (passage.new.port ≡ judged.now.port) }
    ensures version { OnOk result (passage.new.version ≡ judged.now.version) }
    ensures bound { OnOk result (judged.now.version < 2 ^ 64) }
    ensures goes_on { OnOk result (GoesOn passage.old passage.new) }
    ensures whole { OnOk result (IsWhole last.new) }
    ensures so_far { (frames : List TheJudgedFrame)
        → ((j : TheJudgedFrame) → Contains frames j → IsNotBehind j judged.now)
        → IsSoFar (entities_in passage.new) passage.new.least frames done.old.items last.old
        → OnOk result (IsSoFar (entities_in passage.new) passage.new.least (frames ++ judged.now ∷ []) done.new.items last.new) }
{
    let class = class_next(alloc, passage, judged, &mut room.buffer)?;
    note(alloc, passage, &class, &mut room.hints, done, last)?;
    Ok(())
}

/// Notes the frames behind the first one.
fn note_rest(
    alloc: Global,
    passage: &mut Passage<'_>,
    frames: &[JudgedFrame<'_>],
    room: &mut Room,
    done: &mut Vec<Stretch>,
    last: &mut Stretch,
) -> Result<(), AllocError>
    requires sorted { IsNonDecreasingBy frame_number frames.now }
    requires going { IsGoing passage.old.requests.now passage.old.base passage.old.least frames.now passage.old 1
        done.old.items last.old }
    ensures { OnOk result (IsCoverage (entities_in passage.old) passage.old.least frames.now
        (done.new.items ++ last.new ∷ [])) }
{
    for place in 1..frames.len() {
        let judged = &frames[place];
        note_next(alloc, passage, judged, room, done, last)?;
    }
    Ok(())
}

/// The stretches of frames that are in order, by a passage at the version of the first.
fn stretches_along(
    alloc: Global,
    passage: &mut Passage<'_>,
    first: &JudgedFrame<'_>,
    frames: &[JudgedFrame<'_>],
) -> Result<Vec<Stretch>, AllocError>
    requires sorted { IsNonDecreasingBy frame_number frames.now }
    requires first { slice_get frames.now 0 ≡ Some first.now }
    requires ready { IsReady passage.old }
    requires start { passage.old.version ≡ first.now.version }
    ensures { IfOk result (λ stretches.
        IsCoverage (entities_in passage.old) passage.old.least frames.now stretches.items) }
{
    let mut room = Room {
        buffer: [0; MOST_SPELLED],
        hints: Hints::new(),
    };
    let class = class_next(alloc, passage, first, &mut room.buffer)?;
    let mut last = first_stretch(alloc, passage, &class, &mut room.hints)?;
    let mut done = Vec::new(alloc);
    note_rest(alloc, passage, frames, &mut room, &mut done, &mut last)?;
    done.push(last)?;
    Ok(done)
}

/// The stretches of frames that are in order.
fn stretches_of(
    alloc: Global,
    requests: &[Request],
    base: usize,
    frames: &[JudgedFrame<'_>],
    least: usize,
) -> Result<Vec<Stretch>, AllocError>
    requires { IsNonDecreasingBy frame_number frames.now }
    ensures { IfOk result (λ stretches.
        IsCoverage (entities_by requests.now base) least frames.now stretches.items) }
{
    let Some(first) = frames.first() else {
        return Ok(Vec::new(alloc));
    };
    let (port, version) = (first.port, first.version);
    let mut passage = Passage::to(alloc, requests, base, port, least, version)?;
    stretches_along(alloc, &mut passage, first, frames)
}

/// The coverage of the course of an explained history: for each port, and each stretch of its versions that holds the version of a judged
/// frame there, the classes of the frames of at least `least` bytes that come in at the port, each with a frame that has it, and which of
/// them a judged frame of the stretch has. They stand in order, by the port and then by the first version.
///
/// Versions in a row are one stretch where by all of them every frame of at least `least` bytes has the same class at the port and is seen
/// alike there. A judged frame counts whatever its length: it has a listed class, or one that only shorter frames have.
///
/// It takes time in proportion to the frames, to the ports times the versions, and for each stretch that of its classes. Err only where
/// memory is refused.
pub fn coverage(alloc: Global, course: Course<'_>, least: usize) -> Result<Vec<Stretch>, AllocError>
    ensures { IfOk result (λ stretches. IsCoverage (entities_by course.entry.requests.items course.entry.base) least
        course.entry.frames.items stretches.items) }
{
    let Course {
        mut frames,
        requests,
        base,
    } = course;
    frames.sort_by_key(|frame| frame_number(frame))?;
    stretches_of(alloc, &requests, base, &frames, least)
}
