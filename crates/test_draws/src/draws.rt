//! What draws.
ghost use Rattle.std.specs.Prelude.{◌<◌, length};

/// The types that begin the drawn tags.
pub(crate) const TPIDS: [u16; 4] = [0x8100, 0x8100, 0x88a8, 0x9100];

/// What draws: numbers without an evident order, the same in each run.
#[derive(Drop)]
pub struct Draws {
    state: u64,
}

impl Draws {
    /// The first draw of each is the same, and so is each further one.
    pub fn new() -> Self {
        Draws {
            state: 0x2545f4914f6cdd1d,
        }
    }

    pub(crate) fn next(&mut self) -> u64 {
        self.state ^= self.state << 13;
        self.state ^= self.state >> 7;
        self.state ^= self.state << 17;
        self.state
    }

    /// One of some choices.
    pub fn of<T: Copy>(&mut self, choices: &[T]) -> T
        requires { 0 < length choices.now }
    {
        choices[(self.next() % choices.len() as u64) as usize]
    }

    /// A number under a bound, or 0 where the bound is 0.
    pub fn under(&mut self, bound: usize) -> usize {
        if bound == 0 {
            return 0;
        }
        (self.next() % bound as u64) as usize
    }
}
