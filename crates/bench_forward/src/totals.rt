//! What is counted of the frames of a capture.
ghost use Rattle.std.specs.Prelude.{◌≡◌, ◌≤◌, ◌<◌, ◌+◌, ◌^◌, if◌then◌else◌};
ghost use Rattle.frame_meaning.specs.Reason.{number_of_reason, reason_count};
ghost use Rattle.frame_stats.specs.Figures.{Bytes, gem_ports};
ghost use Rattle.frame_stats.specs.Tallies.{weight};
ghost use Rattle.bench_forward.specs.Rows.{AreWithin, DropsAreWithin};

use crate::dropped::Dropped;
use crate::packet::leaving_length;
use frame_meaning::{Reason, Verdict};
use frame_stats::GEM_PORTS;
use std::alloc::{AllocError, Global};

/// What is counted of the frames of a capture. Frames are numbered from 1. All memory is taken at the start, so that none is taken
/// for a frame.
#[derive(Drop)]
pub struct Totals {
    pub(crate) frames: u64,
    pub(crate) forwarded: u64,
    pub(crate) bytes: u64,
    pub(crate) cut: u64,
    // The reason of number r is at place r - 1.
    pub(crate) drops: [Dropped; Reason::COUNT],
    // By the port-ID of a GEM port.
    pub(crate) gems: Vec<u64>,
    ghost few_forwarded: { forwarded ≤ frames },
    ghost few_cut: { cut ≤ frames },
    ghost few_drops: { DropsAreWithin frames drops },
    ghost few_gems: { AreWithin gem_ports frames gems.items },
}

/// The place of a reason.
#[inline(always)]
pub(crate) fn place_of(reason: Reason) -> usize
    ensures value { result + 1 ≡ number_of_reason reason }
    ensures few { result < reason_count }
{
    usize::from(reason.code() - 1)
}

/// 1 where a condition holds, and else 0.
#[inline(always)]
fn one_if(holds: bool) -> u64
    ensures { result ≡ (if holds then 1 else 0) }
{
    if holds { 1 } else { 0 }
}

/// The bytes that leave with a verdict.
#[inline(always)]
fn bytes_leaving(verdict: &Verdict<'_>) -> u64
    requires { weight Bytes verdict.now < 2 ^ 63 + 64 }
    ensures { result ≡ weight Bytes verdict.now }
{
    match verdict {
        Verdict::Forward { frame, .. } => leaving_length(frame) as u64,
        Verdict::Drop(_) => 0,
    }
}

impl Totals {
    ghost use Rattle.std.specs.Prelude.{◌≡◌, ◌<◌, ◌+◌, ◌^◌, [], IfOk, MatchBool, length};
    ghost use Rattle.frame_meaning.specs.declared.verdict.Verdict.TheVariants.{Forward, Drop};
    ghost use Rattle.tag_view.specs.Frame.{Reading, frame_bytes};
    ghost use Rattle.frame_meaning.specs.Reason.{number_of_reason};
    ghost use Rattle.frame_stats.specs.Figures.{Bytes};
    ghost use Rattle.frame_stats.specs.Tallies.{weight};
    ghost use Rattle.bench_forward.specs.Totals.{AreTotals, CountsOneMore, Fits, SomeSumPasses};

    /// Nothing is counted yet.
    pub fn new(alloc: Global) -> Result<Totals, AllocError>
        ensures { IfOk result (λ totals. AreTotals [] 0 totals) }
    {
        Ok(Totals {
            frames: 0,
            forwarded: 0,
            bytes: 0,
            cut: 0,
            drops: [Dropped::NONE; Reason::COUNT],
            gems: vec![in alloc; 0; GEM_PORTS]?,
        })
    }

    /// Whether no sum passes 64 bits with one frame more.
    #[inline(always)]
    pub(crate) fn has_room(&self, verdict: &Verdict<'_>) -> bool
        requires { weight Bytes verdict.now < 2 ^ 63 + 64 }
        ensures { MatchBool result
            (Fits self.now verdict.now) (SomeSumPasses self.now verdict.now) }
    {
        if self.frames == u64::MAX {
            return false;
        }
        self.bytes <= u64::MAX - bytes_leaving(verdict)
    }

    /// Counts one frame more, which is cut or isn't.
    pub(crate) fn count(&mut self, verdict: &Verdict<'_>, is_cut: bool)
        requires fits { Fits self.old verdict.now }
        requires few { weight Bytes verdict.now < 2 ^ 63 + 64 }
        ensures { CountsOneMore self.old verdict.now is_cut self.new }
    {
        match verdict {
            Verdict::Forward { gem, frame } => {
                self.count_leaving(*gem, leaving_length(frame) as u64, is_cut)
            }
            Verdict::Drop(reason) => self.count_dropped(*reason, is_cut),
        }
    }

    /// Counts one frame more that leaves by this GEM port with so many bytes, and is cut or isn't.
    #[inline(always)]
    pub(crate) fn count_leaving(&mut self, gem: u16, bytes: u64, is_cut: bool)
        requires frames { self.old.frames + 1 < 2 ^ 64 }
        requires bytes { self.old.bytes + bytes < 2 ^ 64 }
        ensures counts { (frame : Reading) → bytes ≡ length (frame_bytes frame)
            → CountsOneMore self.old (Forward gem frame) is_cut self.new }
        ensures frames { self.new.frames ≡ self.old.frames + 1 }
    {
        self.frames += 1;
        self.cut += one_if(is_cut);
        self.forwarded += 1;
        self.bytes += bytes;
        self.gems[usize::from(gem)] += 1;
    }

    /// Counts one frame more that is dropped for this reason, and is cut or isn't.
    #[inline(always)]
    pub(crate) fn count_dropped(&mut self, reason: Reason, is_cut: bool)
        requires { self.old.frames + 1 < 2 ^ 64 }
        ensures counts { CountsOneMore self.old (Drop reason) is_cut self.new }
        ensures frames { self.new.frames ≡ self.old.frames + 1 }
    {
        self.frames += 1;
        self.cut += one_if(is_cut);
        let number = self.frames;
        self.drops[place_of(reason)].note(number);
    }
}
