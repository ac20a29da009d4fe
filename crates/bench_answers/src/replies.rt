//! What the replies so far have answered.

use crate::standing::Standing;
use std::alloc::{AllocError, Global};

/// What replies have answered. A count stops at its greatest value, which no history has lines for.
#[derive(Clone, Copy)]
pub(crate) struct Counts {
    /// How many requests of the events are answered or left out.
    pub(crate) next: usize,
    /// How many replies answered a repeat of the last of them.
    pub(crate) repeated: usize,
    /// The same as `next`, of the requests before the first event.
    pub(crate) start_next: usize,
    /// How many replies didn't answer requests before the first event.
    pub(crate) compared: usize,
}

/// What is kept of the replies so far.
#[derive(Drop)]
pub(crate) struct Replies {
    /// What they have answered.
    pub(crate) counts: Counts,
    /// How many requests of the events were answered or left out with each reply.
    pub(crate) reached: Vec<usize>,
}

impl Counts {
    ghost use Rattle.std.specs.Prelude.{◌≡◌};
    ghost use Rattle.bench_answers.specs.Kept.{counted_with};

    /// The same with one reply more.
    fn with(self, standing: Standing) -> Self
        ensures { result ≡ counted_with self standing }
    {
        let compared = self.compared.saturating_add(1);
        match standing {
            Standing::Answers(number) => Counts {
                next: number.saturating_add(1),
                repeated: 0,
                compared,
                ..self
            },
            Standing::Repeats(_) => Counts {
                repeated: self.repeated.saturating_add(1),
                compared,
                ..self
            },
            Standing::OfStart(number) => Counts {
                start_next: number.saturating_add(1),
                ..self
            },
            Standing::Absent => Counts { compared, ..self },
        }
    }
}

impl Replies {
    ghost use Rattle.std.specs.Prelude.{◌≡◌, ◌++◌, ◌∷◌, [], IfOk, List};
    ghost use Rattle.bench_answers.specs.Kept.{AreReplies, IsNextOf};
    ghost use Rattle.bench_answers.specs.Standing.{reached_by};
    ghost use Rattle.bench_answers.specs.declared.standing.Standing.{Standing};

    /// What no reply leaves.
    pub(crate) fn new(alloc: Global) -> Self
        ensures { AreReplies [] result }
    {
        Replies {
            counts: Counts {
                next: 0,
                repeated: 0,
                start_next: 0,
                compared: 0,
            },
            reached: Vec::new(alloc),
        }
    }

    /// Takes a reply by what it stands for.
    pub(crate) fn add(&mut self, standing: Standing) -> Result<(), AllocError>
        ensures { (seen : List Standing) → IsNextOf seen standing → AreReplies seen self.old
            → IfOk result (λ _. AreReplies (seen ++ standing ∷ []) self.new) }
    {
        self.counts = self.counts.with(standing);
        self.reached.push(self.counts.next)?;
        Ok(())
    }

    /// How many requests are answered or left out with the first so many replies, or with all.
    pub(crate) fn reached_by(&self, replies: Option<u32>) -> usize
        ensures { (seen : List Standing) → AreReplies seen self.now
            → result ≡ reached_by replies seen }
    {
        match replies {
            None => self.counts.next,
            Some(0) => 0,
            Some(count) => match self.reached.get(count as usize - 1) {
                Some(reached) => *reached,
                None => self.counts.next,
            },
        }
    }
}
