//! How far a run is, and a line that shows it.
use frame_batch::Gate;
use run_settings::RunSettings;
use std::io::Write;
use std::rt::Clock;
use std::sync::atomic::{AtomicU64, Ordering};
use std::thread::sleep;
use std::time::Duration;
use text_writing::ProgressLine;

/// How many milliseconds the end of a run may go unseen.
const STEP: u64 = 20;

/// After how many steps the line is written anew.
const STEPS: u64 = 25;

/// How far a run is. The numbers are for looking at, and may be a batch behind.
#[derive(Drop)]
pub(crate) struct Progress {
    frames: AtomicU64,
    asked: AtomicU64,
    applied: AtomicU64,
    ended: AtomicU64,
}

impl Progress {
    /// Of a run that hasn't begun.
    pub(crate) fn new() -> Progress {
        Progress {
            frames: AtomicU64::new(0),
            asked: AtomicU64::new(0),
            applied: AtomicU64::new(0),
            ended: AtomicU64::new(0),
        }
    }

    /// The capture was read, and has so many frames.
    pub(crate) fn begin(&self, frames: usize) {
        self.frames.store(frames as u64, Ordering::Relaxed);
    }

    /// The run has ended, in whatever way.
    pub(crate) fn end(&self) {
        self.ended.store(1, Ordering::Relaxed);
    }

    fn has_ended(&self) -> bool {
        self.ended.load(Ordering::Relaxed) != 0
    }
}

/// Lets each batch pass at once, and notes how far the run is.
#[derive(Drop)]
pub(crate) struct Watched<'p> {
    pub progress: &'p Progress,
    pub lanes: u16,
}

impl Gate for Watched<'_> {
    fn pass(&self, lane: u16, batch: u32, _turns: u32) -> bool {
        if lane == self.lanes {
            let applied = &self.progress.applied;
            applied.store(u64::from(batch), Ordering::Relaxed);
        } else {
            self.progress.asked.fetch_add(1, Ordering::Relaxed);
        }
        true
    }
}

/// Writes how many frames were given to lanes, which ask twice for a batch. Where the trace is published first, the line says so
/// until a lane asks; else it says how many messages are published beside the lanes.
fn write_text<E: Write>(progress: &Progress, settings: &RunSettings, err: &mut E) {
    let asked = progress.asked.load(Ordering::Relaxed);
    if settings.after && asked == 0 {
        let _ = err.write_all(b"publishing");
        return;
    }
    let frames = progress.frames.load(Ordering::Relaxed);
    let given = (asked / 2).saturating_mul(u64::from(settings.batch));
    let _ = write!(err, "{} of {frames} frames forwarded", given.min(frames));
    if !settings.after {
        let applied = progress.applied.load(Ordering::Relaxed);
        let _ = write!(err, ", {applied} messages applied");
    }
}

/// Shows how far a run is, on one line that is written anew about twice a second, until the run has ended. Then the line is gone.
pub(crate) fn show<R: Clock, E: Write>(
    rt: &R,
    progress: &Progress,
    settings: &RunSettings,
    err: &mut E,
) {
    let mut line = ProgressLine::new();
    for step in 1..u64::MAX {
        if progress.has_ended() {
            break;
        }
        if step % STEPS == 0 {
            line.begin(err);
            write_text(progress, settings, err);
            line.end(err);
        }
        sleep(rt, Duration::from_millis(STEP));
    }
    line.remove(err);
}
