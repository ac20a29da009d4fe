//! The settings of a run.
ghost use Rattle.std.specs.Prelude.{◌≡◌, IfNone, IfSome};
ghost use Rattle.run_settings.specs.Settings.{AreInLimits, CanRun};

/// The most lanes of a run.
pub const LANE_LIMIT: u16 = 16;

/// The most frames of a batch.
pub const BATCH_LIMIT: u32 = 65_536;

/// The lanes of a run that says none: as many as the threads that read a large capture.
pub const DEFAULT_LANES: u16 = 4;

/// The frames of a batch of a run that says none.
pub const DEFAULT_BATCH: u32 = 1024;

/// How frames are forwarded. Who asks for a run may ask for what none can have: [`RunSettings::can_run`] is the one test of that.
#[derive(Clone, Copy, Debug, PartialEq, Eq)]
pub struct RunSettings {
    /// The port at which the frames come in.
    pub port: u16,
    /// How many lanes there are, 1 to [`LANE_LIMIT`].
    pub lanes: u16,
    /// How many frames a batch has, 1 to [`BATCH_LIMIT`]. The last one may have fewer.
    pub batch: u32,
    /// Whether the frames are forwarded after the whole trace, and not while it is applied.
    pub after: bool,
}

impl RunSettings {
    ghost use Rattle.run_settings.specs.Settings.{can_run};

    /// Settings that a run can have; None where lanes or batch are out of their ranges.
    pub fn new(port: u16, lanes: u16, batch: u32, after: bool) -> Option<RunSettings>
        ensures value { IfSome result (λ settings.
            settings ≡ record { port = port; lanes = lanes; batch = batch; after = after }) }
        ensures range { IfSome result CanRun }
        ensures none { IfNone result (¬ AreInLimits lanes batch) }
    {
        let settings = RunSettings {
            port,
            lanes,
            batch,
            after,
        };
        settings.can_run().then_some(settings)
    }

    /// Whether lanes and batch are in their ranges.
    pub fn can_run(&self) -> bool
        ensures { result ≡ can_run self.now }
    {
        (1..=LANE_LIMIT).contains(&self.lanes) && (1..=BATCH_LIMIT).contains(&self.batch)
    }
}
