//! What is gathered.
use crate::batch::{Report, Tally};
use frame_stats::Counts;

/// What has the number of a batch, and counts.
pub(crate) trait Numbered: Drop {
    ghost use Rattle.std.specs.Prelude.{◌≡◌, ℕ};
    ghost use Rattle.frame_stats.specs.declared.counts.Counts.{Counts};

    ghost number: { Self → ℕ };

    ghost counts_of: { Self → Counts };

    /// The number of the batch.
    fn batch(&self) -> u32
        ensures { result ≡ number self.now };

    /// Its counts.
    fn counts(&self) -> &Counts
        ensures { result.now ≡ counts_of self.now };
}

impl Numbered for Report<'_> {
    ghost number = { λ report. report.batch };

    ghost counts_of = { λ report. report.counts };

    fn batch(&self) -> u32 {
        self.batch
    }

    fn counts(&self) -> &Counts {
        &self.counts
    }
}

impl Numbered for Tally {
    ghost number = { λ tally. tally.batch };

    ghost counts_of = { λ tally. tally.counts };

    fn batch(&self) -> u32 {
        self.batch
    }

    fn counts(&self) -> &Counts {
        &self.counts
    }
}

impl Numbered for &Tally {
    ghost number = { λ tally. tally.now.batch };

    ghost counts_of = { λ tally. tally.now.counts };

    fn batch(&self) -> u32 {
        self.batch
    }

    fn counts(&self) -> &Counts {
        &self.counts
    }
}
