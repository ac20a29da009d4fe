//! One batch, by what a lane holds.
ghost use Rattle.frame_stats.specs.Figures.{AreCountsOf};
ghost use Rattle.std.specs.Prelude.{◌≡◌, ◌<◌, ◌↔◌, ◌≤◌, ◌⊎◌, ℕ, [], IfOk, OnOk, OnErr, IsErrOf, length, true, false};
ghost use Rattle.frame_stats.specs.Figures.{SomePasses};
ghost use Rattle.batch_reports.specs.Batches.{meanings, most_frames};

use crate::fault::BatchFault;
use forward_plan::{Live, Verdict};
use frame_stats::{CountFault, Counts};
use std::alloc::{AllocError, Global};

/// How many frames a batch has at most.
pub const MOST_FRAMES: usize = 65_536;

/// Lets batches pass, or not. Who runs batches in step, or means to stop them, implements it, and may say what it may answer to a
/// lane, a batch and a number of turns.
pub trait Gate {
    ghost use Rattle.std.specs.Prelude.{ℕ, Bool, ⊤};

    ghost may_answer: { Self → ℕ → ℕ → ℕ → Bool → Type 0 } = { λ _ _ _ _ _. ⊤ };

    /// Whether a lane's batch passes. It is asked once, and may look up to `turns` times for what it waits for.
    fn pass(&self, lane: u16, batch: u32, turns: u32) -> bool
        ensures { may_answer self.now lane batch turns result };
}

/// The frames of one batch, which came in at one port.
#[derive(Clone, Copy)]
pub struct Batch<'f, 'a> {
    /// The number of the batch.
    pub number: u32,
    /// The port that the frames came in at.
    pub port: u16,
    /// The frames, in order.
    pub frames: &'f [&'a [u8]],
}

/// What a lane holds, by which it forwards a batch.
#[derive(Clone, Copy)]
pub struct LaneView<'l> {
    /// The number of the lane.
    pub lane: u16,
    /// The number of the version that it holds.
    pub version: u64,
    /// The entities of that version, with their plan.
    pub live: &'l Live,
}

/// The verdicts on the frames of one batch, in order, with their counts, which are always those of the verdicts, by the type.
#[derive(Drop)]
pub struct Report<'a> {
    /// The number of the lane that forwarded them.
    pub lane: u16,
    /// The number of the batch.
    pub batch: u32,
    /// The number of the version that the lane held.
    pub version: u64,
    /// What became of each frame. It borrows the frames alone.
    pub verdicts: Vec<Verdict<'a>>,
    /// The counts of these verdicts.
    pub counts: Counts,
    ghost exact: { AreCountsOf verdicts.items counts },
}

impl<'a> Report<'a> {
    ghost use Rattle.std.specs.Prelude.{◌≡◌, [], IfOk, OnOk, OnErr, IsErrOf};
    ghost use Rattle.frame_stats.specs.Figures.{AreCountsOf, SomePasses};
    ghost use Rattle.batch_reports.specs.Batches.{meanings};

    /// The report of no frames, by lane 0 and version 0, with the number 0. A lane has it for [`report_batch_into`]. It takes no memory.
    pub fn empty(alloc: Global) -> Self
        ensures lane { result.lane ≡ 0 }
        ensures number { result.batch ≡ 0 }
        ensures version { result.version ≡ 0 }
        ensures verdicts { result.verdicts.items ≡ [] }
    {
        Report {
            lane: 0,
            batch: 0,
            version: 0,
            verdicts: Vec::new(alloc),
            counts: Counts::zero(alloc),
        }
    }

    /// The report without its verdicts, whose memory is given back.
    pub fn tally(self) -> Tally
        ensures { result
            ≡ record {
              lane = self.entry.lane;
              batch = self.entry.batch;
              version = self.entry.version;
              counts = self.entry.counts;
            } }
    {
        let Self {
            lane,
            batch,
            version,
            verdicts: _,
            counts,
        } = self;
        Tally {
            lane,
            batch,
            version,
            counts,
        }
    }

    /// What [`tally`](Report::tally) gives, of a report that is kept. It takes memory for the GEM ports that had to give up their
    /// places to others.
    pub fn copy_tally(&self, alloc: Global) -> Result<Tally, AllocError>
        ensures lane { IfOk result (λ tally. tally.lane ≡ self.now.lane) }
        ensures number { IfOk result (λ tally. tally.batch ≡ self.now.batch) }
        ensures version { IfOk result (λ tally. tally.version ≡ self.now.version) }
        ensures counts { IfOk result (λ tally. AreCountsOf self.now.verdicts.items tally.counts) }
    {
        let counts = self.counts.copy(alloc)?;
        Ok(Tally {
            lane: self.lane,
            batch: self.batch,
            version: self.version,
            counts,
        })
    }

    /// Puts what becomes of frames in place of the verdicts, with their counts. On a fault there is nothing in it.
    fn refill(&mut self, live: &Live, port: u16, frames: &[&'a [u8]]) -> Result<(), CountFault>
        ensures verdicts { OnOk result
            (self.new.verdicts.items ≡ meanings live.now port frames.now) }
        ensures nothing { OnErr result (self.new.verdicts.items ≡ []) }
        ensures kept { (self.new.lane ≡ self.old.lane) × (self.new.batch ≡ self.old.batch)
            × (self.new.version ≡ self.old.version) }
        ensures full { IsErrOf result CountFault.CountFull
            → SomePasses (meanings live.now port frames.now) }
    {
        self.verdicts.clear();
        let Ok(()) = self.verdicts.reserve_exact(frames.len()) else {
            self.counts.clear();
            return Err(CountFault::NoMemory);
        };
        live.port(port).push_all(frames, &mut self.verdicts);
        match self.counts.recount(self.verdicts.as_slice()) {
            Ok(()) => Ok(()),
            Err(fault) => {
                self.verdicts.clear();
                Err(fault)
            }
        }
    }
}

/// What is kept of a report where its verdicts aren't: some 400 bytes, whatever the batch's size.
#[derive(Drop)]
pub struct Tally {
    /// The number of the lane that forwarded the batch.
    pub lane: u16,
    /// The number of the batch.
    pub batch: u32,
    /// The number of the version that the lane held.
    pub version: u64,
    /// The counts of the batch's verdicts.
    pub counts: Counts,
}

/// Forwards the frames of a batch by what a lane holds, and counts what becomes of them. It runs on its caller's thread and waits for
/// nobody but the gate, which is asked once and may look up to `turns` times.
///
/// [`BatchFault::TooMany`] where there are more than 65,536 frames; then [`BatchFault::Stalled`] where the gate answers false; then
/// [`BatchFault::NoMemory`] where there is no memory for the verdicts; then, verdict by verdict, [`BatchFault::CountFull`] where a
/// sum passes 64 bits, and [`BatchFault::NoMemory`] where there is no memory for the count of a GEM port.
pub fn report_batch<'a, G: Gate>(
    alloc: Global,
    view: LaneView<'_>,
    batch: Batch<'_, 'a>,
    turns: u32,
    gate: &G,
) -> Result<Report<'a>, BatchFault>
    ensures lane { IfOk result (λ report. report.lane ≡ view.entry.lane) }
    ensures number { IfOk result (λ report. report.batch ≡ batch.entry.number) }
    ensures version { IfOk result (λ report. report.version ≡ view.entry.version) }
    ensures verdicts { IfOk result (λ report. report.verdicts.items
        ≡ meanings view.entry.live.now batch.entry.port batch.entry.frames.now) }
    ensures too_many { (n : ℕ) → IsErrOf result (BatchFault.TooMany n)
        ↔ ((n ≡ length batch.entry.frames.now) × (most_frames < n)) }
    ensures passed { IfOk result (λ _.
        G.may_answer gate.now view.entry.lane batch.entry.number turns true) }
    ensures stalled { IsErrOf result BatchFault.Stalled
        → G.may_answer gate.now view.entry.lane batch.entry.number turns false }
    ensures behind { IsErrOf result BatchFault.NoMemory ⊎ IsErrOf result BatchFault.CountFull
        → G.may_answer gate.now view.entry.lane batch.entry.number turns true }
    ensures full { IsErrOf result BatchFault.CountFull
        → SomePasses (meanings view.entry.live.now batch.entry.port batch.entry.frames.now) }
{
    let mut report = Report::empty(alloc);
    match report_batch_into(&mut report, view, batch, turns, gate) {
        Ok(()) => Ok(report),
        Err(fault) => Err(fault),
    }
}

/// Forwards the frames of a batch as [`report_batch`] does, and puts what becomes of them in place of what a report says. A lane that
/// has one report for all its batches takes memory for the longest alone, and counts faster.
///
/// The faults are those of [`report_batch`], in the same order. A batch with too many frames, or one that the gate stops, leaves the
/// report as it was. Otherwise a fault leaves it without verdicts, and with lane, batch and version as they were.
pub fn report_batch_into<'a, G: Gate>(
    report: &mut Report<'a>,
    view: LaneView<'_>,
    batch: Batch<'_, 'a>,
    turns: u32,
    gate: &G,
) -> Result<(), BatchFault>
    ensures lane { OnOk result (report.new.lane ≡ view.entry.lane) }
    ensures number { OnOk result (report.new.batch ≡ batch.entry.number) }
    ensures version { OnOk result (report.new.version ≡ view.entry.version) }
    ensures verdicts { OnOk result (report.new.verdicts.items
        ≡ meanings view.entry.live.now batch.entry.port batch.entry.frames.now) }
    ensures too_many { (n : ℕ) → IsErrOf result (BatchFault.TooMany n)
        ↔ ((n ≡ length batch.entry.frames.now) × (most_frames < n)) }
    ensures passed { OnOk result
        (G.may_answer gate.now view.entry.lane batch.entry.number turns true) }
    ensures stalled { IsErrOf result BatchFault.Stalled
        → G.may_answer gate.now view.entry.lane batch.entry.number turns false }
    ensures behind { IsErrOf result BatchFault.NoMemory ⊎ IsErrOf result BatchFault.CountFull
        → G.may_answer gate.now view.entry.lane batch.entry.number turns true }
    ensures full { IsErrOf result BatchFault.CountFull
        → SomePasses (meanings view.entry.live.now batch.entry.port batch.entry.frames.now) }
    ensures unchanged { ((n : ℕ) → IsErrOf result (BatchFault.TooMany n) → report.new ≡ report.old)
        × (IsErrOf result BatchFault.Stalled → report.new ≡ report.old) }
    ensures nothing { IsErrOf result BatchFault.NoMemory ⊎ IsErrOf result BatchFault.CountFull
        → report.new.verdicts.items ≡ [] }
    ensures kept { OnErr result ((report.new.lane ≡ report.old.lane)
        × (report.new.batch ≡ report.old.batch) × (report.new.version ≡ report.old.version)) }
{
    let Batch {
        number,
        port,
        frames,
    } = batch;
    if frames.len() > MOST_FRAMES {
        return Err(BatchFault::TooMany(frames.len()));
    }
    if !gate.pass(view.lane, number, turns) {
        return Err(BatchFault::Stalled);
    }
    match report.refill(view.live, port, frames) {
        Ok(()) => {
            report.lane = view.lane;
            report.batch = number;
            report.version = view.version;
            Ok(())
        }
        Err(CountFault::CountFull) => Err(BatchFault::CountFull),
        Err(CountFault::NoMemory) => Err(BatchFault::NoMemory),
    }
}
