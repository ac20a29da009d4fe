//! What totals show.
use crate::dropped::Dropped;
use crate::totals::{Totals, place_of};
use frame_meaning::Reason;

impl Totals {
    ghost use Rattle.std.specs.Prelude.{◌≡◌};
    ghost use Rattle.frame_stats.specs.Figures.{FramesTo};
    ghost use Rattle.bench_forward.specs.Totals.{dropped_at, shown};

    /// How many frames there are.
    pub fn frames(&self) -> u64
        ensures { result ≡ self.now.frames }
    {
        self.frames
    }

    /// How many of them leave.
    pub fn forwarded(&self) -> u64
        ensures { result ≡ self.now.forwarded }
    {
        self.forwarded
    }

    /// The bytes of those, as they leave.
    pub fn bytes(&self) -> u64
        ensures { result ≡ self.now.bytes }
    {
        self.bytes
    }

    /// How many frames are cut: the capture stores fewer bytes than they had.
    pub fn cut(&self) -> u64
        ensures { result ≡ self.now.cut }
    {
        self.cut
    }

    /// How many frames are dropped for a reason, and the numbers of the first ten.
    pub fn dropped(&self, reason: Reason) -> &Dropped
        ensures { result.now ≡ dropped_at self.now reason }
    {
        &self.drops[place_of(reason)]
    }

    /// How many frames leave by a GEM port.
    pub fn leaving_by(&self, gem: u16) -> u64
        ensures { result ≡ shown self.now (FramesTo gem) }
    {
        self.gems[usize::from(gem)]
    }
}
