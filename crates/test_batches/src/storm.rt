//! A storm: messages that are published one by one while lanes forward batches, and then a second look at each verdict.
ghost use Rattle.std.specs.Prelude.{◌≡◌, Some, All};
ghost use Rattle.std.specs.Option.{ForSome};
ghost use Rattle.plan_publish.specs.Lane.{home_of};
ghost use Rattle.plan_publish.specs.Told.{told_home};

use forward_plan::{Reason, Verdict, plain_walk};
use frame_batch::{Batch, BatchFault, Gate, Report, run_batch};
use mib_state::Mib;
use omci_msg::{Request, write_request};
use plan_publish::{Control, Held, Lane, OpenFault, Told, open};
use std::alloc::{AllocError, Global};
use std::marker::{Brand, PhantomData};
use std::sync::Wait;
use std::sync::atomic::{AtomicU64, Ordering};
use std::thread::{Threads, join_mut, map_indices, map_vec, yield_now};
use tag_view::Tag;
use test_draws::Draws;

/// What comes in a storm.
#[derive(Drop)]
pub(crate) struct Storm<'s, 'f> {
    /// What memory is taken from.
    pub alloc: Global,
    /// What the control is sent before lanes work, and publishes all at once.
    pub first: &'s [Request],
    /// What it is sent while they work; each accepted request is published by itself.
    pub beside: &'s [Request],
    /// The ports that frames come in at, in turn.
    pub ports: &'s [u16],
    /// The frames of batches, in turn.
    pub lists: &'s [Vec<&'f [u8]>],
    /// How many batches a lane forwards while the control is sent messages. It forwards one more at the end.
    pub batches: u32,
    /// How many messages the control was sent beside the lanes, so that they keep pace: 0 before the storm.
    pub sent: AtomicU64,
}

impl<'f> Storm<'_, 'f> {
    /// The port of a lane's batch.
    fn port(&self, lane: u16, batch: u32) -> u16 {
        let turn = (batch as usize).saturating_add(usize::from(lane));
        match self.ports.get(turn % self.ports.len().max(1)) {
            Some(port) => *port,
            None => 0,
        }
    }

    /// The frames of a lane's batch.
    fn frames(&self, lane: u16, batch: u32) -> Option<&[&'f [u8]]> {
        let turn = (batch as usize).saturating_add(usize::from(lane));
        let list = self.lists.get(turn % self.lists.len().max(1))?;
        Some(list.as_slice())
    }

    /// A lane's batch.
    fn batch(&self, lane: u16, number: u32) -> Option<Batch<'_, 'f>> {
        Some(Batch {
            number,
            port: self.port(lane, number),
            frames: self.frames(lane, number)?,
        })
    }

    /// Waits until the control was sent a batch's share of the messages, though not for ever. So the batches of a lane are of many
    /// versions, however fast it is.
    fn keep_pace(&self, batch: u32) {
        let all = u64::from(batch).saturating_mul(self.beside.len() as u64);
        let share = all / u64::from(self.batches.max(1));
        for _ in 0..TURNS {
            if self.sent.load(Ordering::SeqCst) >= share {
                return;
            }
            yield_now();
        }
    }
}

/// How often a lane looks where the control is before it goes on in any case.
const TURNS: u32 = 1_000_000;

/// How many messages a storm is drawn.
const MESSAGES: u32 = 2_000;

/// How many lists of frames it is drawn.
const LISTS: usize = 16;

/// How many frames of a list are whole. It has one more.
const WHOLE: usize = 63;

/// What a storm is made of.
#[derive(Drop)]
pub(crate) struct Drawn {
    pub requests: Vec<Request>,
    pub lists: Vec<Vec<Vec<u8>>>,
}

impl Drawn {
    /// What is drawn next.
    pub(crate) fn next(alloc: Global, draws: &mut Draws) -> Result<Self, AllocError> {
        let mut requests = Vec::new(alloc);
        for _ in 0..MESSAGES {
            requests.push(draws.request())?;
        }
        let mut lists = Vec::new(alloc);
        for list in 0..LISTS {
            lists.push(draws.frames(alloc, WHOLE, list)?)?;
        }
        Ok(Drawn { requests, lists })
    }

    /// The frames of each list.
    pub(crate) fn frames(&self, alloc: Global) -> Result<Vec<Vec<&[u8]>>, AllocError> {
        let mut all = Vec::new(alloc);
        for list in &self.lists {
            all.push(frames_of(alloc, list)?)?;
        }
        Ok(all)
    }
}

/// The frames of a list.
fn frames_of(alloc: Global, list: &[Vec<u8>]) -> Result<Vec<&[u8]>, AllocError> {
    let mut frames = Vec::new(alloc);
    for frame in list {
        frames.push(frame.as_slice())?;
    }
    Ok(frames)
}

/// Why a storm has not come to its end.
#[derive(Clone, Copy, Debug, PartialEq, Eq)]
pub(crate) enum Fault {
    /// There is no control.
    Open(OpenFault),
    /// There is no memory for what the storm is made of.
    NoMemory,
    /// There are no frames.
    NoFrames,
    /// A lane couldn't enter.
    Shut,
    /// A batch wasn't forwarded for this reason, or in spite of a gate that answers false.
    Batch(Option<BatchFault>),
}

impl From<AllocError> for Fault {
    fn from(_: AllocError) -> Fault {
        Fault::NoMemory
    }
}

impl From<BatchFault> for Fault {
    fn from(fault: BatchFault) -> Fault {
        Fault::Batch(Some(fault))
    }
}

impl From<OpenFault> for Fault {
    fn from(fault: OpenFault) -> Fault {
        Fault::Open(fault)
    }
}

/// What a storm has left so far.
#[derive(Drop)]
pub(crate) struct Ran<'f> {
    /// The accepted requests.
    pub accepted: Vec<Request>,
    /// The number of the version that was published last.
    pub told: u64,
    /// The reports of each lane.
    pub lanes: Vec<Vec<Report<'f>>>,
}

/// A gate that answers this.
#[derive(Drop)]
struct Answers(bool);

impl Gate for Answers {
    fn pass(&self, _lane: u16, _batch: u32, _turns: u32) -> bool {
        self.0
    }
}

/// Which history a storm is of. Each storm picks it.
trait Origin {
    ghost use Rattle.std.specs.Prelude.{Option};
    ghost use Rattle.plan_publish.specs.History.{Home};

    ghost home: { Option Home };
}

impl Origin for Brand {
    ghost use Rattle.std.specs.Prelude.{None};

    ghost home = { None };
}

/// What is told in the storm.
#[derive(Drop)]
struct Token<O: Origin> {
    told: Told,
    of: PhantomData<O>,
    ghost at_home: { Some (told_home told) ≡ O.home },
}

/// A lane that has worked, with its reports so far.
#[derive(Drop)]
struct Done<'f, O: Origin> {
    lane: Lane,
    reports: Vec<Report<'f>>,
    /// Whether each of its batches has a report.
    worked: Result<(), Fault>,
    of: PhantomData<O>,
    ghost at_home: { Some (home_of lane) ≡ O.home },
}

/// A lane's batch by what it holds. Every second batch of lane 0 meets a gate first that answers false.
fn run_held<'f>(held: &Held<'_>, storm: &Storm<'_, 'f>, number: u32) -> Result<Report<'f>, Fault> {
    let Some(batch) = storm.batch(held.lane(), number) else {
        return Err(Fault::NoFrames);
    };
    if held.lane() == 0 && number % 2 == 1 {
        match run_batch(storm.alloc, held, batch, 1, &Answers(false)) {
            Err(BatchFault::Stalled) => {}
            Err(fault) => return Err(Fault::Batch(Some(fault))),
            Ok(_) => return Err(Fault::Batch(None)),
        }
    }
    Ok(run_batch(storm.alloc, held, batch, 1, &Answers(true))?)
}

/// A lane's batch, for which it enters, is put to its reports.
fn forward_batch<'f>(
    lane: &mut Lane,
    storm: &Storm<'_, 'f>,
    batch: u32,
    reports: &mut Vec<Report<'f>>,
) -> Result<(), Fault>
    ensures { home_of lane.new ≡ home_of lane.old }
{
    let Some(held) = lane.enter() else {
        return Err(Fault::Shut);
    };
    let report = run_held(&held, storm, batch);
    held.leave();
    match reports.push(report?) {
        Ok(()) => Ok(()),
        Err(_) => Err(Fault::NoMemory),
    }
}

/// All batches of a lane but the last.
fn forward_batches<'f>(
    lane: &mut Lane,
    storm: &Storm<'_, 'f>,
    reports: &mut Vec<Report<'f>>,
) -> Result<(), Fault>
    ensures { home_of lane.new ≡ home_of lane.old }
{
    for batch in 0..storm.batches {
        storm.keep_pace(batch);
        forward_batch(lane, storm, batch, reports)?;
    }
    Ok(())
}

/// What a lane does on its thread.
fn work<'f, O: Origin>(mut lane: Lane, first: &Token<O>, storm: &Storm<'_, 'f>) -> Done<'f, O>
    requires { Some (home_of lane) ≡ O.home }
{
    lane.learn(&first.told);
    let mut reports = Vec::new(storm.alloc);
    let worked = forward_batches(&mut lane, storm, &mut reports);
    Done {
        lane,
        reports,
        worked,
        of: PhantomData,
    }
}

/// All that wait work, each on a thread of its own.
fn work_all<'f, O: Origin + Send + Sync, R: Threads + Sync>(
    rt: &R,
    waiting: &mut Option<Vec<Lane>>,
    first: &Token<O>,
    storm: &Storm<'_, 'f>,
) -> Result<Vec<Done<'f, O>>, AllocError>
    requires { ForSome waiting.old (λ lanes. All (λ l. Some (home_of l) ≡ O.home) lanes.items) }
{
    match waiting.take() {
        Some(lanes) => map_vec(
            rt,
            lanes,
            &|lane: Lane| -> Done<'_, O>
                requires { Some (home_of lane) ≡ O.home }
            { work(lane, first, storm) },
        ),
        None => Ok(Vec::new(storm.alloc)),
    }
}

/// Sends a request. One that is accepted is kept, and published where it is counted how many were sent.
fn send<R: Wait>(
    rt: &R,
    control: &mut Control,
    request: &Request,
    sent: Option<&AtomicU64>,
    accepted: &mut Vec<Request>,
)
    ensures { control.new.home ≡ control.old.home }
{
    let before = control.accepted();
    let _ = control.message(&write_request(request));
    let is_accepted = control.accepted() != before;
    if is_accepted {
        // There is room, and the second look would miss it.
        let _ = accepted.push(*request);
    }
    if let Some(sent) = sent {
        if is_accepted {
            let _ = control.publish(rt);
        }
        let _ = sent.fetch_add(1, Ordering::SeqCst);
    }
}

/// Sends requests, and keeps those that are accepted. Where it is counted how many were sent, each of these is published by itself.
fn send_all<R: Wait>(
    rt: &R,
    control: &mut Control,
    requests: &[Request],
    sent: Option<&AtomicU64>,
    accepted: &mut Vec<Request>,
)
    ensures { control.new.home ≡ control.old.home }
{
    for request in requests {
        send(rt, control, request, sent, accepted);
    }
}

/// A lane learns what was published last, and forwards its last batch. Its reports are put to those of other lanes.
fn settle<'f, O: Origin>(
    done: Done<'f, O>,
    last: &Token<O>,
    storm: &Storm<'_, 'f>,
    lanes: &mut Vec<Vec<Report<'f>>>,
) -> Result<(), Fault> {
    let Done {
        mut lane,
        mut reports,
        worked,
        of: _,
    } = done;
    lane.learn(&last.told);
    let settled = match worked {
        Ok(()) => forward_batch(&mut lane, storm, storm.batches, &mut reports),
        Err(fault) => Err(fault),
    };
    match lanes.push(reports) {
        Ok(()) => settled,
        Err(_) => Err(Fault::NoMemory),
    }
}

/// The reports of all lanes, each of which forwards its last batch.
fn settle_all<'f, O: Origin>(
    all: Result<Vec<Done<'f, O>>, AllocError>,
    last: &Token<O>,
    storm: &Storm<'_, 'f>,
    lanes: &mut Vec<Vec<Report<'f>>>,
) -> Result<(), Fault> {
    for done in all? {
        settle(done, last, storm, lanes)?;
    }
    Ok(())
}

/// The lanes work while the control is sent messages, of which the accepted ones are kept.
fn work_beside<'f, O: Origin + Send + Sync, R: Threads + Wait + Sync>(
    rt: &R,
    control: &mut Control,
    lanes: Vec<Lane>,
    first: &Token<O>,
    storm: &Storm<'_, 'f>,
    accepted: &mut Vec<Request>,
) -> Result<Vec<Done<'f, O>>, AllocError>
    requires { All (λ l. Some (home_of l) ≡ O.home) lanes.items }
    ensures { control.new.home ≡ control.old.home }
{
    let mut waiting = Some(lanes);
    let (done, ()) = join_mut(
        rt,
        &mut || -> Result<Vec<Done<'_, O>>, AllocError>
            requires { ForSome waiting (λ lanes. All (λ l. Some (home_of l) ≡ O.home) lanes.items) }
        { work_all(rt, &mut waiting, first, storm) },
        &mut || -> ()
            ensures { control.exit.now.home ≡ control.entry.now.home }
        { send_all(rt, control, storm.beside, Some(&storm.sent), accepted) },
    );
    done
}

/// The storm, of the history that is picked.
fn run_as<'f, O: Origin + Send + Sync, R: Threads + Wait + Sync>(
    rt: &R,
    control: &mut Control,
    lanes: Vec<Lane>,
    storm: &Storm<'_, 'f>,
    ran: &mut Ran<'f>,
) -> Result<(), Fault>
    requires control { Some control.old.home ≡ O.home }
    requires lanes { All (λ l. Some (home_of l) ≡ O.home) lanes.items }
{
    send_all(rt, control, storm.first, None, &mut ran.accepted);
    let first: Token<O> = Token {
        told: control.publish(rt),
        of: PhantomData,
    };
    let done = work_beside(rt, control, lanes, &first, storm, &mut ran.accepted);
    let last = Token {
        told: control.publish(rt),
        of: PhantomData,
    };
    ran.told = last.told.version();
    settle_all(done, &last, storm, &mut ran.lanes)
}

/// Opens a control with so many lanes for a storm, and closes it at the end.
fn run_open<'f, R: Threads + Wait + Sync>(
    rt: &R,
    lanes: u16,
    storm: &Storm<'_, 'f>,
    left: &mut Ran<'f>,
) -> Result<(), Fault> {
    let (mut control, lanes) = open(rt, storm.alloc, lanes)?;
    let ran = run_as::<Brand, R>(rt, &mut control, lanes, storm, left);
    control.close(rt);
    ran
}

/// What a storm with so many lanes leaves.
pub(crate) fn run<'f, R: Threads + Wait + Sync>(
    rt: &R,
    lanes: u16,
    storm: &Storm<'_, 'f>,
) -> Result<Ran<'f>, Fault> {
    let room = storm.first.len().saturating_add(storm.beside.len());
    let mut ran = Ran {
        accepted: Vec::with_capacity(storm.alloc, room)?,
        told: 0,
        lanes: Vec::new(storm.alloc),
    };
    run_open(rt, lanes, storm, &mut ran)?;
    Ok(ran)
}

/// What isn't as it has to be after a storm.
#[derive(Clone, Copy, Debug, PartialEq, Eq)]
pub(crate) enum Wrong {
    /// There is no memory for the second look.
    NoMemory,
    /// A report at this place isn't that of its lane's batch, or there are so many of a lane.
    Reports(usize),
    /// The version that was told last isn't the number of accepted messages.
    Told(u64),
    /// A lane's version falls, or is of more messages than were accepted, or isn't the last at the end.
    Version {
        lane: u16,
        batch: u32,
        version: u64,
    },
    /// A verdict, at this place of its batch, isn't that of the plain walk.
    Verdict {
        lane: u16,
        batch: u32,
        version: u64,
        place: usize,
    },
}

impl From<AllocError> for Wrong {
    fn from(_: AllocError) -> Wrong {
        Wrong::NoMemory
    }
}

/// The GEM port of a frame that leaves, its addresses, its tags and what follows them, or the reason to drop it.
type Parts<'v> = Result<(u16, &'v [u8], &'v [Tag], &'v [u8]), Reason>;

fn parts<'v>(verdict: &'v Verdict<'_>) -> Parts<'v> {
    match verdict {
        Verdict::Forward { gem, frame } => {
            Ok((*gem, frame.addresses(), frame.tags(), frame.rest()))
        }
        Verdict::Drop(reason) => Err(*reason),
    }
}

/// The place of the first verdict that isn't that of the plain walk.
fn first_other(mib: &Mib, port: u16, frames: &[&[u8]], verdicts: &[Verdict<'_>]) -> Option<usize> {
    for (place, (frame, verdict)) in frames.iter().zip(verdicts).enumerate() {
        if parts(&plain_walk(mib, port, frame)) != parts(verdict) {
            return Some(place);
        }
    }
    None
}

/// The entities after the first so many accepted requests.
#[derive(Drop)]
struct Walk<'r> {
    mib: Mib,
    version: u64,
    rest: &'r [Request],
}

impl Walk<'_> {
    /// Goes on to a later version, and says whether there is one.
    fn reach(&mut self, version: u64) -> bool {
        let Some(more) = version.checked_sub(self.version) else {
            return false;
        };
        let Some((next, rest)) = self.rest.split_at_checked(more as usize) else {
            return false;
        };
        for request in next {
            let _ = self.mib.step(request);
        }
        self.version = version;
        self.rest = rest;
        true
    }
}

/// Looks at the verdicts of a report again.
fn check_report(mib: &Mib, storm: &Storm<'_, '_>, report: &Report<'_>) -> Result<(), Wrong> {
    let port = storm.port(report.lane, report.batch);
    let frames = match storm.frames(report.lane, report.batch) {
        Some(frames) if frames.len() == report.verdicts.len() => frames,
        _ => return Err(Wrong::Reports(report.verdicts.len())),
    };
    match first_other(mib, port, frames, &report.verdicts) {
        Some(place) => Err(Wrong::Verdict {
            lane: report.lane,
            batch: report.batch,
            version: report.version,
            place,
        }),
        None => Ok(()),
    }
}

/// Looks at the reports of a lane again, which are those of its batches in order; the last one is of the last version.
fn check_lane(
    storm: &Storm<'_, '_>,
    accepted: &[Request],
    lane: usize,
    reports: &[Report<'_>],
) -> Result<(), Wrong> {
    if reports.len() != (storm.batches as usize).saturating_add(1) {
        return Err(Wrong::Reports(reports.len()));
    }
    let mut walk = Walk {
        mib: Mib::new(storm.alloc)?,
        version: 0,
        rest: accepted,
    };
    walk_reports(storm, &mut walk, lane, reports)
}

/// Goes on to the version of each report, and looks at its verdicts again.
fn walk_reports(
    storm: &Storm<'_, '_>,
    walk: &mut Walk<'_>,
    lane: usize,
    reports: &[Report<'_>],
) -> Result<(), Wrong> {
    for (place, report) in reports.iter().enumerate() {
        if usize::from(report.lane) != lane || report.batch as usize != place {
            return Err(Wrong::Reports(place));
        }
        let is_last = report.batch == storm.batches;
        if !walk.reach(report.version) || (is_last && !walk.rest.is_empty()) {
            return Err(Wrong::Version {
                lane: report.lane,
                batch: report.batch,
                version: report.version,
            });
        }
        check_report(&walk.mib, storm, report)?;
    }
    Ok(())
}

/// Looks at all reports of a storm again, those of each lane on a thread of their own.
pub(crate) fn check<R: Threads + Sync>(
    rt: &R,
    storm: &Storm<'_, '_>,
    ran: &Ran<'_>,
) -> Result<(), Wrong> {
    if ran.told != ran.accepted.len() as u64 {
        return Err(Wrong::Told(ran.told));
    }
    let all = map_indices(
        rt,
        storm.alloc,
        ran.lanes.len(),
        &|lane| -> Result<(), Wrong> {
            match ran.lanes.get(lane) {
                Some(reports) => check_lane(storm, &ran.accepted, lane, reports),
                None => Err(Wrong::Reports(lane)),
            }
        },
    )?;
    for one in &all {
        (*one)?;
    }
    Ok(())
}
