//! Frames of GEM ports, in a map.
ghost use Rattle.std.specs.Prelude.{◌≡◌, ◌+◌, ◌<◌, ◌^◌, ℕ, OnOk, OnErr, IsSome};
ghost use Rattle.std.specs.Ordering.{nat_cmp};
ghost use Rattle.std.specs.BTreeMap.{get};
ghost use Rattle.frame_stats.specs.Ports.{AddsInMap, in_map, NoneIsZero};
ghost use Rattle.frame_stats.specs.Runs.{in_runs};

use crate::run::Run;
use std::alloc::AllocError;
use std::collections::BTreeMap;

/// Adds frames of a port. Only the first of a port take memory; where there is none, the ports stay as they are.
#[inline(always)]
pub(crate) fn add_frames(
    ports: &mut BTreeMap<u16, u64>,
    gem: u16,
    frames: u64,
) -> Result<(), AllocError>
    requires { in_map ports.old gem + frames < 2 ^ 64 }
    ensures added { OnOk result (AddsInMap gem frames ports.old ports.new) }
    ensures unchanged { OnErr result ((port : ℕ) → in_map ports.new port ≡ in_map ports.old port) }
    ensures some { OnErr result (0 < frames) }
    ensures no_zeros { NoneIsZero ports.old → NoneIsZero ports.new }
{
    if frames == 0 {
        return Ok(());
    }
    add_some(ports, gem, frames)
}

/// Adds some frames of a port, with one look at the map where they are the first.
#[inline(never)]
fn add_some(ports: &mut BTreeMap<u16, u64>, gem: u16, frames: u64) -> Result<(), AllocError>
    requires some { 0 < frames }
    requires fits { in_map ports.old gem + frames < 2 ^ 64 }
    ensures added { OnOk result (AddsInMap gem frames ports.old ports.new) }
    ensures unchanged { OnErr result ((port : ℕ) → in_map ports.new port ≡ in_map ports.old port) }
    ensures no_zeros { NoneIsZero ports.old → NoneIsZero ports.new }
{
    match ports.insert(gem, frames) {
        Ok(None) => Ok(()),
        Ok(Some(before)) => {
            add_before(ports, gem, before);
            Ok(())
        }
        Err(_) => Err(AllocError),
    }
}

/// Adds the frames that a port of the map had before.
#[cold]
#[inline(never)]
fn add_before(ports: &mut BTreeMap<u16, u64>, gem: u16, before: u64)
    requires there { IsSome (get nat_cmp ports.old gem) }
    requires fits { in_map ports.old gem + before < 2 ^ 64 }
    ensures added { AddsInMap gem before ports.old ports.new }
    ensures no_zeros { NoneIsZero ports.old → NoneIsZero ports.new }
{
    *ports.get_mut(&gem).unwrap() += before;
}

/// Adds all frames of other ports.
pub(crate) fn add_all(
    ports: &mut BTreeMap<u16, u64>,
    others: &BTreeMap<u16, u64>,
) -> Result<(), AllocError>
    requires { (port : ℕ) → in_map ports.old port + in_map others.now port < 2 ^ 64 }
    ensures added { OnOk result ((port : ℕ)
        → in_map ports.new port ≡ in_map ports.old port + in_map others.now port) }
    ensures no_zeros { NoneIsZero ports.old → NoneIsZero ports.new }
{
    for (gem, frames) in others {
        add_frames(ports, *gem, *frames)?;
    }
    Ok(())
}

/// Adds the frames of all runs.
#[inline(never)]
pub(crate) fn end_runs(ports: &mut BTreeMap<u16, u64>, runs: &[Run]) -> Result<(), AllocError>
    requires { (port : ℕ) → in_map ports.old port + in_runs port runs.now < 2 ^ 64 }
    ensures added { OnOk result ((port : ℕ)
        → in_map ports.new port ≡ in_map ports.old port + in_runs port runs.now) }
    ensures no_zeros { NoneIsZero ports.old → NoneIsZero ports.new }
{
    for run in runs {
        add_frames(ports, run.port, run.frames)?;
    }
    Ok(())
}
