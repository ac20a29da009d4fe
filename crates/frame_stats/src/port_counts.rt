//! Frames by GEM port.
ghost use Rattle.frame_stats.specs.Ports.{AllFit, ArePlaced, NoneIsZero};

use crate::ports::{add_all, add_frames, end_runs};
use crate::run::{RUNS, Run, end_frames, place_of};
use std::alloc::{AllocError, Global};
use std::collections::BTreeMap;

/// How many GEM ports there may be: a port-ID has 16 bits.
pub const GEM_PORTS: usize = 65_536;

/// How many frames left by each GEM port.
///
/// The frames of a port are in one of 16 places, which its number chooses. Where another port takes that place, they go to a map. So
/// counts take memory only where two ports have the same place. Up to 15 ports that follow one another have places of their own.
#[derive(Drop)]
pub struct PortCounts {
    others: BTreeMap<u16, u64>,
    // The run of a port is at `place_of` it.
    runs: [Run; RUNS],
    ghost no_zeros: { NoneIsZero others },
    ghost fits: { AllFit others runs },
    ghost placed: { ArePlaced runs },
}

impl PortCounts {
    ghost use Rattle.std.specs.Prelude.{◌≡◌, ◌+◌, ◌≤◌, ◌<◌, ◌^◌, ℕ, IfOk, OnOk, OnErr, MatchBool};
    ghost use Rattle.frame_stats.specs.Figures.{AddsFrames, at_port};
    ghost use Rattle.frame_stats.specs.Ports.{in_map};
    ghost use Rattle.frame_stats.specs.Runs.{in_runs};

    pub(crate) fn new(alloc: Global) -> PortCounts
        ensures { (port : ℕ) → at_port result port ≡ 0 }
    {
        PortCounts {
            others: BTreeMap::new(alloc),
            runs: [Run { port: 0, frames: 0 }; RUNS],
        }
    }

    /// The frames that left by the GEM port of this port-ID.
    pub fn frames(&self, gem: u16) -> u64
        ensures { result ≡ at_port self.now gem }
    {
        let run = self.runs[place_of(gem)];
        let others = self.others.get(&gem).copied().unwrap_or(0);
        if run.port == gem {
            others + run.frames
        } else {
            others
        }
    }

    /// The ports by which frames left, by ascending port-ID, with their frames. It takes memory for an entry each.
    pub fn in_order(&self, alloc: Global) -> Result<BTreeMap<u16, u64>, AllocError>
        ensures counted { IfOk result (λ ports. (port : ℕ) → in_map ports port ≡ at_port self.now port) }
        ensures no_zeros { IfOk result NoneIsZero }
    {
        let mut ports = BTreeMap::new(alloc);
        add_all(&mut ports, &self.others)?;
        end_runs(&mut ports, &self.runs)?;
        Ok(ports)
    }

    /// Counts frames of a GEM port. It takes memory only where the run of another port has the place.
    #[inline(always)]
    pub(crate) fn add(&mut self, gem: u16, frames: u64) -> Result<(), AllocError>
        requires { at_port self.old gem + frames < 2 ^ 64 }
        ensures added { OnOk result (AddsFrames gem frames self.old self.new) }
        ensures memory { OnErr result ((port : ℕ) × (0 < at_port self.old port)) }
    {
        let place = place_of(gem);
        if self.runs[place].port != gem {
            return self.begin_run(gem, frames);
        }
        self.runs[place].frames += frames;
        Ok(())
    }

    /// Counts frames of a GEM port in place of the run of another, whose frames go to the map if it has some.
    #[cold]
    #[inline(never)]
    fn begin_run(&mut self, gem: u16, frames: u64) -> Result<(), AllocError>
        requires { at_port self.old gem + frames < 2 ^ 64 }
        ensures added { OnOk result (AddsFrames gem frames self.old self.new) }
        ensures memory { OnErr result ((port : ℕ) × (0 < at_port self.old port)) }
    {
        let place = place_of(gem);
        let ended = self.runs[place];
        let Ok(()) = add_frames(&mut self.others, ended.port, ended.frames) else {
            return Err(AllocError);
        };
        self.runs[place] = Run { port: gem, frames };
        Ok(())
    }

    /// No frames any more. Each place keeps its port, so the next frames of this port begin no run.
    pub(crate) fn clear(&mut self)
        ensures { (port : ℕ) → at_port self.new port ≡ 0 }
    {
        self.others.clear();
        end_frames(&mut self.runs);
    }

    /// The same counts again. It takes memory for the ports of the map.
    pub(crate) fn copy(&self, alloc: Global) -> Result<PortCounts, AllocError>
        ensures { IfOk result (λ ports. (port : ℕ) → at_port ports port ≡ at_port self.now port) }
    {
        let mut others = BTreeMap::new(alloc);
        add_all(&mut others, &self.others)?;
        Ok(PortCounts {
            others,
            runs: self.runs,
        })
    }

    /// Adds the frames of each port of others.
    pub(crate) fn add_all(&mut self, more: &PortCounts) -> Result<(), AllocError>
        requires { (port : ℕ) → at_port self.old port + at_port more.now port < 2 ^ 64 }
        ensures { OnOk result ((port : ℕ)
            → at_port self.new port ≡ at_port self.old port + at_port more.now port) }
    {
        self.add_entries(&more.others)?;
        self.add_runs(&more.runs)
    }

    /// Adds the frames of each port of a map.
    fn add_entries(&mut self, entries: &BTreeMap<u16, u64>) -> Result<(), AllocError>
        requires { (port : ℕ) → at_port self.old port + in_map entries.now port < 2 ^ 64 }
        ensures { OnOk result ((port : ℕ)
            → at_port self.new port ≡ at_port self.old port + in_map entries.now port) }
    {
        for (gem, frames) in entries {
            self.add(*gem, *frames)?;
        }
        Ok(())
    }

    /// Adds the frames of runs.
    fn add_runs(&mut self, runs: &[Run]) -> Result<(), AllocError>
        requires { (port : ℕ) → at_port self.old port + in_runs port runs.now < 2 ^ 64 }
        ensures { OnOk result ((port : ℕ)
            → at_port self.new port ≡ at_port self.old port + in_runs port runs.now) }
    {
        for run in runs {
            // A run without frames has no port of its own, so it takes no place.
            if run.frames != 0 {
                self.add(run.port, run.frames)?;
            }
        }
        Ok(())
    }

    /// Whether the sums with the frames of each port of others have 64 bits.
    pub(crate) fn fit(&self, more: &PortCounts) -> bool
        ensures { MatchBool result
            ((port : ℕ) → 0 < at_port more.now port
            → at_port self.now port + at_port more.now port < 2 ^ 64)
            ((port : ℕ) × (2 ^ 64 ≤ at_port self.now port + at_port more.now port)) }
    {
        self.entries_fit(more) && self.runs_fit(more)
    }

    /// The same for the ports of the map.
    fn entries_fit(&self, more: &PortCounts) -> bool
        ensures { MatchBool result
            ((port : ℕ) → 0 < in_map more.now.others port
            → at_port self.now port + at_port more.now port < 2 ^ 64)
            ((port : ℕ) × (2 ^ 64 ≤ at_port self.now port + at_port more.now port)) }
    {
        for (gem, _) in &more.others {
            if !self.port_fits(more, *gem) {
                return false;
            }
        }
        true
    }

    /// The same for the ports of the runs.
    fn runs_fit(&self, more: &PortCounts) -> bool
        ensures { MatchBool result
            ((port : ℕ) → 0 < in_runs port more.now.runs
            → at_port self.now port + at_port more.now port < 2 ^ 64)
            ((port : ℕ) × (2 ^ 64 ≤ at_port self.now port + at_port more.now port)) }
    {
        for run in &more.runs {
            if run.frames != 0 && !self.port_fits(more, run.port) {
                return false;
            }
        }
        true
    }

    /// The same for one port.
    fn port_fits(&self, more: &PortCounts, gem: u16) -> bool
        ensures { MatchBool result
            (at_port self.now gem + at_port more.now gem < 2 ^ 64)
            (2 ^ 64 ≤ at_port self.now gem + at_port more.now gem) }
    {
        self.frames(gem).checked_add(more.frames(gem)).is_some()
    }
}
