//! What is to be done.
ghost use Rattle.std.specs.Prelude.{◌≡◌, ◌<◌, ◌^◌, length};
ghost use Rattle.run_settings.specs.Settings.{CanRun};
ghost use Rattle.run_lanes.specs.Frames.{IsCutFor, frames_in};
ghost use Rattle.run_lanes.specs.Run.{batches_in};

use crate::frames::RunFrames;
use frame_stats::StatBook;
use run_settings::RunSettings;
use std::alloc::Global;
use std::sync::Mutex;

/// What all lanes and the control share.
#[derive(Drop)]
pub(crate) struct Job<'f, 'a> {
    pub(crate) alloc: Global,
    pub(crate) settings: RunSettings,
    /// How many batches the frames make.
    pub(crate) count: u32,
    /// How often a gate may look for what it waits for.
    pub(crate) turns: u32,
    pub(crate) frames: RunFrames<'f, 'a>,
    pub(crate) book: &'f Mutex<StatBook>,
    ghost can_run: { CanRun settings },
    ghost counted: { count ≡ batches_in settings.batch (length (frames_in frames)) },
    ghost few: { count < 2 ^ 32 },
    ghost cut: { IsCutFor settings.batch frames },
}
