//! Lines that name several frames, of which one left. A unit seldom lags behind what it was told, so the last version is tried first, and
//! only where none of the frames may have that one all versions are gone through.
ghost use Rattle.std.specs.Prelude.{Some, Decides, IfOk};
ghost use Rattle.bench_history.specs.declared.event.Event.TheVariants.{Left as TheLeft};
ghost use Rattle.bench_judge.specs.Doubt.{IsLatest, IsSomeAt, IsSomeOf, MayBeAt};

use crate::fitting::advance;
use crate::frame::Case;
use crate::seeing::leaves_so;
use bench_history::{Among, Event, Extent, SeenGem};
use bench_sight::Buffers;
use forward_plan::Live;
use std::alloc::{AllocError, Global};

/// The last version that was asked for.
#[derive(Drop)]
pub(crate) struct Latest {
    // The entities after so many requests.
    pub(crate) live: Live,
    pub(crate) applied: usize,
    buffers: Buffers,
}

/// A frame that was seen to leave, and that is one of several.
#[derive(Drop)]
pub(crate) struct Doubtful<'e, 'a> {
    pub(crate) gem: SeenGem,
    pub(crate) extent: Extent,
    pub(crate) among: &'e Among<'a>,
}

/// Whether the frame of a number may be the one that was seen, by a version and its entities.
fn may_be(
    live: &Live,
    case: &Case<'_, '_>,
    version: usize,
    number: u32,
    doubtful: &Doubtful<'_, '_>,
    buffers: &mut Buffers,
) -> bool
    ensures { Decides result (MayBeAt case.now.padded case.now.events.now case.now.frames.now number
        (TheLeft doubtful.now.gem doubtful.now.extent number doubtful.now.among.now.frame) version
        live.now) }
{
    let Some(frame) = case.frames.get(number as usize) else {
        return false;
    };
    if !frame.is_enough {
        return true;
    }
    let seen = Event::Left {
        gem: doubtful.gem,
        extent: doubtful.extent,
        number,
        frame: doubtful.among.frame(),
    };
    frame.least <= version && leaves_so(live, case.padded, case.events, frame, &seen, buffers)
}

/// Whether one of the frames may, by a version and its entities.
fn some_may_be(
    live: &Live,
    case: &Case<'_, '_>,
    version: usize,
    doubtful: &Doubtful<'_, '_>,
    buffers: &mut Buffers,
) -> bool
    ensures { Decides result (IsSomeAt case.now.padded case.now.events.now case.now.frames.now
        doubtful.now.gem doubtful.now.extent doubtful.now.among.now version live.now) }
{
    let mut numbers = doubtful.among.numbers();
    'each_number: while let Some(number) = numbers.take_least() {
        if may_be(live, case, version, number, doubtful, buffers) {
            return true;
        }
    }
    false
}

/// Whether one of the frames may, by some version: all are gone through.
fn some_version(
    alloc: Global,
    case: &Case<'_, '_>,
    doubtful: &Doubtful<'_, '_>,
    buffers: &mut Buffers,
) -> Result<bool, AllocError>
    ensures { IfOk result (λ is. Decides is (IsSomeOf case.now.padded case.now.events.now
        case.now.requests.now case.now.frames.now doubtful.now.gem doubtful.now.extent
        doubtful.now.among.now)) }
{
    let mut live = Live::new(alloc)?;
    if some_may_be(&live, case, 0, doubtful, buffers) {
        return Ok(true);
    }
    for (before, request) in case.requests.iter().enumerate() {
        live.apply(request);
        if some_may_be(&live, case, before + 1, doubtful, buffers) {
            return Ok(true);
        }
    }
    Ok(false)
}

impl Latest {
    /// Whether one of the frames may be the one that was seen, by some version.
    fn is_one_of(
        &mut self,
        alloc: Global,
        case: &Case<'_, '_>,
        doubtful: &Doubtful<'_, '_>,
    ) -> Result<bool, AllocError>
        requires { IsLatest case.now.requests.now (Some self.old) }
        ensures latest { IsLatest case.now.requests.now (Some self.new) }
        ensures is { IfOk result (λ is. Decides is (IsSomeOf case.now.padded case.now.events.now
            case.now.requests.now case.now.frames.now doubtful.now.gem doubtful.now.extent
            doubtful.now.among.now)) }
    {
        let count = case.requests.len();
        self.applied = advance(&mut self.live, case.requests, self.applied, count);
        if some_may_be(&self.live, case, self.applied, doubtful, &mut self.buffers) {
            return Ok(true);
        }
        some_version(alloc, case, doubtful, &mut self.buffers)
    }
}

/// Whether one of the frames may be the one that was seen, by some version. What is kept of the last version begins with the first call.
pub(crate) fn is_one_of(
    alloc: Global,
    latest: &mut Option<Latest>,
    case: &Case<'_, '_>,
    doubtful: &Doubtful<'_, '_>,
) -> Result<bool, AllocError>
    requires { IsLatest case.now.requests.now latest.old }
    ensures latest { IsLatest case.now.requests.now latest.new }
    ensures is { IfOk result (λ is. Decides is (IsSomeOf case.now.padded case.now.events.now
        case.now.requests.now case.now.frames.now doubtful.now.gem doubtful.now.extent
        doubtful.now.among.now)) }
{
    if let Some(latest) = latest {
        return latest.is_one_of(alloc, case, doubtful);
    }
    let mut begun = Latest {
        live: Live::new(alloc)?,
        applied: 0,
        buffers: Buffers::new(),
    };
    let is = begun.is_one_of(alloc, case, doubtful)?;
    *latest = Some(begun);
    Ok(is)
}
