//! Counts of verdicts.
use crate::port_counts::PortCounts;
use frame_meaning::Reason;
use std::alloc::{AllocError, Global};

/// What is counted of verdicts on frames.
#[derive(Drop)]
pub struct Counts {
    /// How many verdicts there are.
    pub frames: u64,
    /// The bytes of the frames that are forwarded, as they leave.
    pub bytes: u64,
    /// The frames that are dropped: those for the reason of number r at place r - 1.
    pub drops: [u64; Reason::COUNT],
    /// The frames that are forwarded, by the port-ID of the GEM port.
    pub ports: PortCounts,
}

impl Counts {
    ghost use Rattle.std.specs.Prelude.{◌≡◌, IfOk};
    ghost use Rattle.frame_stats.specs.Books.{IsZero};
    ghost use Rattle.frame_stats.specs.Figures.{Figure, counted};

    /// Nothing is counted. It takes no memory.
    pub fn zero(alloc: Global) -> Counts
        ensures zero { IsZero result }
    {
        Counts {
            frames: 0,
            bytes: 0,
            drops: [0; Reason::COUNT],
            ports: PortCounts::new(alloc),
        }
    }

    /// Nothing is counted any more. GEM ports keep their places.
    pub fn clear(&mut self)
        ensures zero { IsZero self.new }
    {
        self.frames = 0;
        self.bytes = 0;
        self.drops = [0; Reason::COUNT];
        self.ports.clear();
    }

    /// The same counts again. It takes memory for the GEM ports that had to give up their places to others.
    pub fn copy(&self, alloc: Global) -> Result<Counts, AllocError>
        ensures same { IfOk result (λ c. (f : Figure) → counted c f ≡ counted self.now f) }
    {
        let ports = self.ports.copy(alloc)?;
        Ok(Counts {
            frames: self.frames,
            bytes: self.bytes,
            drops: self.drops,
            ports,
        })
    }
}
