//! One batch, by the lane that is in.
ghost use Rattle.std.specs.Prelude.{◌≡◌, ◌<◌, ◌↔◌, ◌⊎◌, ℕ, [], IfOk, OnOk, OnErr, IsErrOf, length, true, false};
ghost use Rattle.frame_stats.specs.Figures.{SomePasses};
ghost use Rattle.plan_publish.specs.Lane.{number_of};
ghost use Rattle.plan_publish.specs.Held.{held_entities, held_lane, held_version};
ghost use Rattle.batch_reports.specs.Batches.{meanings, most_frames};

use batch_reports::{Batch, BatchFault, Gate, LaneView, Report, report_batch, report_batch_into};
use plan_publish::Held;
use std::alloc::Global;

/// What the lane that is in holds.
fn view_of<'h>(held: &'h Held<'_>) -> LaneView<'h>
    ensures lane { result.lane ≡ number_of (held_lane held.now) }
    ensures version { result.version ≡ held_version held.now }
    ensures entities { result.live.now ≡ held_entities held.now }
{
    LaneView {
        lane: held.lane(),
        version: held.version(),
        live: held.live(),
    }
}

/// Forwards the frames of a batch by the held version, and counts what becomes of them. It runs on its caller's thread and waits for
/// nobody but the gate, which is asked once and may look up to `turns` times. One lane a thread is the fast way to use several
/// processors.
///
/// [`BatchFault::TooMany`] where there are more than 65,536 frames; then [`BatchFault::Stalled`] where the gate answers false; then
/// [`BatchFault::NoMemory`] where there is no memory for the verdicts; then, verdict by verdict, [`BatchFault::CountFull`] where a
/// sum passes 64 bits, and [`BatchFault::NoMemory`] where there is no memory for the count of a GEM port.
pub fn run_batch<'a, G: Gate>(
    alloc: Global,
    held: &Held<'_>,
    batch: Batch<'_, 'a>,
    turns: u32,
    gate: &G,
) -> Result<Report<'a>, BatchFault>
    ensures lane { IfOk result (λ report. report.lane ≡ number_of (held_lane held.now)) }
    ensures number { IfOk result (λ report. report.batch ≡ batch.entry.number) }
    ensures version { IfOk result (λ report. report.version ≡ held_version held.now) }
    ensures verdicts { IfOk result (λ report. report.verdicts.items
        ≡ meanings (held_entities held.now) batch.entry.port batch.entry.frames.now) }
    ensures too_many { (n : ℕ) → IsErrOf result (BatchFault.TooMany n)
        ↔ ((n ≡ length batch.entry.frames.now) × (most_frames < n)) }
    ensures passed { IfOk result (λ _.
        G.may_answer gate.now (number_of (held_lane held.now)) batch.entry.number turns true) }
    ensures stalled { IsErrOf result BatchFault.Stalled
        → G.may_answer gate.now (number_of (held_lane held.now)) batch.entry.number turns false }
    ensures behind { IsErrOf result BatchFault.NoMemory ⊎ IsErrOf result BatchFault.CountFull
        → G.may_answer gate.now (number_of (held_lane held.now)) batch.entry.number turns true }
    ensures full { IsErrOf result BatchFault.CountFull
        → SomePasses (meanings (held_entities held.now) batch.entry.port batch.entry.frames.now) }
{
    report_batch(alloc, view_of(held), batch, turns, gate)
}

/// Forwards the frames of a batch as [`run_batch`] does, and puts what becomes of them in place of what a report says. A lane that
/// has one report for all its batches takes memory for the longest alone, and counts faster.
///
/// The faults are those of [`run_batch`], in the same order. A batch with too many frames, or one that the gate stops, leaves the
/// report as it was. Otherwise a fault leaves it without verdicts, and with lane, batch and version as they were.
pub fn run_batch_into<'a, G: Gate>(
    report: &mut Report<'a>,
    held: &Held<'_>,
    batch: Batch<'_, 'a>,
    turns: u32,
    gate: &G,
) -> Result<(), BatchFault>
    ensures lane { OnOk result (report.new.lane ≡ number_of (held_lane held.now)) }
    ensures number { OnOk result (report.new.batch ≡ batch.entry.number) }
    ensures version { OnOk result (report.new.version ≡ held_version held.now) }
    ensures verdicts { OnOk result (report.new.verdicts.items
        ≡ meanings (held_entities held.now) batch.entry.port batch.entry.frames.now) }
    ensures too_many { (n : ℕ) → IsErrOf result (BatchFault.TooMany n)
        ↔ ((n ≡ length batch.entry.frames.now) × (most_frames < n)) }
    ensures passed { OnOk result
        (G.may_answer gate.now (number_of (held_lane held.now)) batch.entry.number turns true) }
    ensures stalled { IsErrOf result BatchFault.Stalled
        → G.may_answer gate.now (number_of (held_lane held.now)) batch.entry.number turns false }
    ensures behind { IsErrOf result BatchFault.NoMemory ⊎ IsErrOf result BatchFault.CountFull
        → G.may_answer gate.now (number_of (held_lane held.now)) batch.entry.number turns true }
    ensures full { IsErrOf result BatchFault.CountFull
        → SomePasses (meanings (held_entities held.now) batch.entry.port batch.entry.frames.now) }
    ensures unchanged { ((n : ℕ) → IsErrOf result (BatchFault.TooMany n) → report.new ≡ report.old)
        × (IsErrOf result BatchFault.Stalled → report.new ≡ report.old) }
    ensures nothing { IsErrOf result BatchFault.NoMemory ⊎ IsErrOf result BatchFault.CountFull
        → report.new.verdicts.items ≡ [] }
    ensures kept { OnErr result ((report.new.lane ≡ report.old.lane)
        × (report.new.batch ≡ report.old.batch) × (report.new.version ≡ report.old.version)) }
{
    report_batch_into(report, view_of(held), batch, turns, gate)
}
