//! The versions that other frames leave to one.
ghost use Rattle.std.specs.Prelude.{◌≡◌, ◌<◌, Decides, IfOk, is_some, length, slice_index, true};
ghost use Rattle.bench_judge.specs.Bounds.{IsFirstOf, IsLastOf, IsLeastLeft, IsMostLeft};
ghost use Rattle.bench_judge.specs.Frames.{AreWithin, Fits};

use crate::frame::{Case, Frame};
use crate::halving::greatest_version;
use std::alloc::{AllocError, Global};

/// The number at a place, 0 past the end.
pub(crate) fn version_at(versions: &[usize], number: usize) -> usize
    ensures { result ≡ slice_index versions.now number }
{
    match versions.get(number) {
        Some(version) => *version,
        None => 0,
    }
}

/// Whether a frame has ended, at a port.
fn has_ended_at(frame: &Frame, port: u16) -> bool
    ensures { Decides result ((is_some frame.now.ended ≡ true) × (frame.now.port ≡ port)) }
{
    frame.ended.is_some() && frame.port == port
}

/// The number of the last ended frame of a port before another.
fn last_before(frames: &[Frame], port: u16, number: usize) -> Option<usize>
    requires { number < length frames.now }
    ensures { IsLastOf frames.now port number result }
{
    let mut last = None;
    for before in 0..number {
        if has_ended_at(&frames[before], port) {
            last = Some(before);
        }
    }
    last
}

/// The number of the first ended frame of a port behind another.
fn first_behind(frames: &[Frame], port: u16, number: usize) -> Option<usize>
    requires { number < length frames.now }
    ensures { IsFirstOf frames.now port number result }
{
    for behind in number + 1..frames.len() {
        if has_ended_at(&frames[behind], port) {
            return Some(behind);
        }
    }
    None
}

/// The least version that the frames before one leave to it, by their least versions.
pub(crate) fn at_least(
    case: &Case<'_, '_>,
    versions: &[usize],
    frame: &Frame,
    number: usize,
) -> usize
    requires { number < length case.now.frames.now }
    ensures { IsLeastLeft case.now.unordered case.now.frames.now (slice_index versions.now)
        frame.now.port number frame.now.least result }
{
    if case.unordered {
        return frame.least;
    }
    match last_before(case.frames, frame.port, number) {
        Some(before) => frame.least.max(version_at(versions, before)),
        None => frame.least,
    }
}

/// The greatest version that the frames behind one leave to it, of which some versions fit.
pub(crate) fn at_most(
    alloc: Global,
    case: &Case<'_, '_>,
    versions: &[usize],
    frame: &Frame,
    number: usize,
) -> Result<usize, AllocError>
    requires number { number < length case.now.frames.now }
    requires within { AreWithin case.now.requests.now case.now.frames.now }
    requires fits { Fits case.now.padded case.now.unordered case.now.events.now case.now.requests.now
        case.now.frames.now (slice_index versions.now) }
    ensures { IfOk result (IsMostLeft case.now.padded case.now.unordered case.now.events.now case.now.requests.now
        case.now.frames.now frame.now.port number frame.now.most) }
{
    if case.unordered {
        return Ok(frame.most);
    }
    match first_behind(case.frames, frame.port, number) {
        Some(behind) => {
            let some = version_at(versions, behind);
            Ok(frame.most.min(greatest_version(alloc, case, behind, some)?))
        }
        None => Ok(frame.most),
    }
}
