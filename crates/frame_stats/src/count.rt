//! Counts of a list of verdicts.
ghost use Rattle.std.specs.Prelude.{◌≡◌, ◌+◌, ◌-◌, ◌≤◌, ◌<◌, ◌^◌, ℕ, IfOk, OnOk, IsErrOf, MatchOption, length, slice_index};
ghost use Rattle.tag_view.specs.Frame.{frame_bytes};
ghost use Rattle.frame_meaning.specs.Reason.{number_of_reason};
ghost use Rattle.frame_meaning.specs.declared.reason.Reason.{Reason};
ghost use Rattle.frame_stats.specs.Figures.{AreCountsOf, at_port, Bytes, DropsFor, figure, FramesTo, NamesPort, SomePasses};
ghost use Rattle.frame_stats.specs.Tallies.{weight};

use crate::counts::Counts;
use crate::fault::CountFault;
use crate::port_counts::PortCounts;
use frame_meaning::{OutFrame, Reason, Verdict};
use std::alloc::Global;

/// The counts of these verdicts. It takes memory for the GEM ports that have to give up their places to others.
///
/// [`CountFault::CountFull`] where a sum passes 64 bits, [`CountFault::NoMemory`] where there is no memory for such a port. Verdict
/// by verdict, the sums are looked at before memory is asked for.
pub fn count_of(alloc: Global, verdicts: &[Verdict<'_>]) -> Result<Counts, CountFault>
    ensures counts { IfOk result (λ c. AreCountsOf verdicts.now c) }
    ensures full { IsErrOf result CountFault.CountFull → SomePasses verdicts.now }
    ensures memory { IsErrOf result CountFault.NoMemory
        → (place : ℕ) × NamesPort verdicts.now place }
{
    let mut counts = Counts::zero(alloc);
    match counts.recount(verdicts) {
        Ok(()) => Ok(counts),
        Err(fault) => Err(fault),
    }
}

impl Counts {
    ghost use Rattle.std.specs.Prelude.{ℕ, OnOk, OnErr, IsErrOf};
    ghost use Rattle.frame_stats.specs.Books.{IsZero};
    ghost use Rattle.frame_stats.specs.Figures.{AreCountsOf, NamesPort, SomePasses};

    /// Counts these verdicts in place of what was counted before. GEM ports keep their places, so lists that leave by the same
    /// ports are counted faster one after another than each by itself.
    ///
    /// The faults are those of [`count_of`]. Nothing is counted then.
    pub fn recount(&mut self, verdicts: &[Verdict<'_>]) -> Result<(), CountFault>
        ensures counts { OnOk result (AreCountsOf verdicts.now self.new) }
        ensures zero { OnErr result (IsZero self.new) }
        ensures full { IsErrOf result CountFault.CountFull → SomePasses verdicts.now }
        ensures memory { IsErrOf result CountFault.NoMemory
            → (place : ℕ) × NamesPort verdicts.now place }
    {
        self.clear();
        match note_all(verdicts, &mut self.drops, &mut self.ports) {
            Ok(bytes) => {
                self.frames = verdicts.len() as u64;
                self.bytes = bytes;
                Ok(())
            }
            Err(fault) => {
                self.clear();
                Err(fault)
            }
        }
    }
}

/// Counts verdicts in drops and in frames of GEM ports, of which there are none yet, and gives the bytes that leave.
// In a lane's loop its sums would have no registers of their own.
#[inline(never)]
fn note_all(
    verdicts: &[Verdict<'_>],
    drops: &mut [u64; Reason::COUNT],
    ports: &mut PortCounts,
) -> Result<u64, CountFault>
    requires no_drops { (reason : Reason) → slice_index drops.old (number_of_reason reason - 1) ≡ 0 }
    requires no_frames { (port : ℕ) → at_port ports.old port ≡ 0 }
    ensures bytes { IfOk result (λ bytes. bytes ≡ figure Bytes verdicts.now) }
    ensures drops { OnOk result ((reason : Reason)
        → slice_index drops.new (number_of_reason reason - 1)
        ≡ figure (DropsFor reason) verdicts.now) }
    ensures ports { OnOk result ((port : ℕ)
        → at_port ports.new port ≡ figure (FramesTo port) verdicts.now) }
    ensures full { IsErrOf result CountFault.CountFull → SomePasses verdicts.now }
    ensures memory { IsErrOf result CountFault.NoMemory
        → (place : ℕ) × NamesPort verdicts.now place }
{
    let mut bytes = 0;
    for verdict in verdicts {
        if let Err(fault) = note(verdict, &mut bytes, drops, ports) {
            return Err(fault);
        }
    }
    Ok(bytes)
}

/// Counts a verdict in the bytes, the drops and the frames of GEM ports.
#[inline(always)]
fn note(
    verdict: &Verdict<'_>,
    bytes: &mut u64,
    drops: &mut [u64; Reason::COUNT],
    ports: &mut PortCounts,
) -> Result<(), CountFault>
    requires few_drops { (reason : Reason)
        → slice_index drops.old (number_of_reason reason - 1) + 1 < 2 ^ 64 }
    requires few_frames { (port : ℕ) → at_port ports.old port + 1 < 2 ^ 64 }
    ensures bytes { OnOk result (bytes.new ≡ bytes.old + weight Bytes verdict.now) }
    ensures fits { OnOk result (bytes.new < 2 ^ 64) }
    ensures drops { OnOk result ((reason : Reason)
        → slice_index drops.new (number_of_reason reason - 1)
        ≡ slice_index drops.old (number_of_reason reason - 1)
        + weight (DropsFor reason) verdict.now) }
    ensures ports { OnOk result ((port : ℕ)
        → at_port ports.new port
        ≡ at_port ports.old port + weight (FramesTo port) verdict.now) }
    ensures full { IsErrOf result CountFault.CountFull
        → 2 ^ 64 ≤ bytes.old + weight Bytes verdict.now }
    ensures memory { IsErrOf result CountFault.NoMemory
        → (port : ℕ) × (0 < at_port ports.old port) }
{
    let so_far = *bytes;
    match verdict {
        Verdict::Forward { gem, frame } => {
            let Some(sum) = with_frame(so_far, frame) else {
                return Err(CountFault::CountFull);
            };
            *bytes = sum;
            match ports.add(*gem, 1) {
                Ok(()) => Ok(()),
                Err(_) => Err(CountFault::NoMemory),
            }
        }
        Verdict::Drop(reason) => {
            drops[usize::from(reason.code() - 1)] += 1;
            Ok(())
        }
    }
}

/// The bytes so far and those of a frame, if the sum has 64 bits.
#[inline(always)]
#[tactic(auto, using(frame_meaning::proofs::Spellings::spelled_lengths))]
fn with_frame(bytes: u64, frame: &OutFrame<'_>) -> Option<u64>
    ensures { MatchOption result
        (2 ^ 64 ≤ bytes + length (frame_bytes frame.now))
        (λ sum. sum ≡ bytes + length (frame_bytes frame.now)) }
{
    let len = frame.addresses().len() + 4 * frame.tags().len() + frame.rest().len();
    bytes.checked_add(len as u64)
}
