//! The frames that are dropped for one reason.
ghost use Rattle.std.specs.Prelude.{◌≡◌, ◌≤◌, ◌<◌, ◌+◌, ◌^◌, ◌++◌, [], ◌∷◌, take};
ghost use Rattle.bench_forward.specs.Dropped.{numbers_of};

/// How many frames are named.
const NAMED: usize = 10;

/// How many frames are dropped for a reason, and the numbers of the first ten.
#[derive(Clone, Copy)]
pub struct Dropped {
    pub(crate) frames: u64,
    // Those that there are, and zeros behind them.
    pub(crate) first: [u64; NAMED],
}

impl Dropped {
    /// No frame is dropped.
    pub(crate) const NONE: Dropped = Dropped {
        frames: 0,
        first: [0; NAMED],
    };

    /// How many frames there are.
    pub fn frames(&self) -> u64
        ensures { result ≡ self.now.frames }
    {
        self.frames
    }

    /// The numbers, from 1, of the first ten frames, or of all where there are fewer.
    pub fn first(&self) -> &[u64]
        ensures { result.now ≡ numbers_of self.now }
    {
        let count = self.frames.min(NAMED as u64) as usize;
        &self.first[..count]
    }

    /// Counts the frame of this number.
    pub(crate) fn note(&mut self, number: u64)
        requires { self.old.frames + 1 < 2 ^ 64 }
        ensures frames { self.new.frames ≡ self.old.frames + 1 }
        ensures first { numbers_of self.new ≡ take 10 (numbers_of self.old ++ number ∷ []) }
    {
        if self.frames < NAMED as u64 {
            self.first[self.frames as usize] = number;
        }
        self.frames += 1;
    }
}
