//! Frames that left by one GEM port.
ghost use Rattle.std.specs.Prelude.{◌≡◌, ◌<◌, ℕ, get_or};
ghost use Rattle.frame_stats.specs.Ports.{no_run, place};

/// Frames that left by a GEM port. Without frames it is that of any port.
#[derive(Clone, Copy, Debug)]
pub(crate) struct Run {
    pub(crate) port: u16,
    pub(crate) frames: u64,
}

/// How many runs there are.
pub(crate) const RUNS: usize = 16;

/// The place of a port's run. Up to 15 ports that follow one another, or are 16 or 256 apart, have places of their own.
#[inline(always)]
pub(crate) fn place_of(port: u16) -> usize
    ensures value { result ≡ place port }
    ensures inside { result < 16 }
{
    (u32::from(port) * 0x111 / 256 % 16) as usize
}

/// Takes the frames of all runs away. Their ports stay.
pub(crate) fn end_frames(runs: &mut [Run; RUNS])
    ensures { (k : ℕ) → (get_or runs.new k no_run).frames ≡ 0 }
{
    for place in 0..RUNS {
        runs[place].frames = 0;
    }
}
