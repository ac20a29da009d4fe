//! Lanes that are in.
ghost use Rattle.std.specs.Prelude.{◌≡◌, Some};
ghost use Rattle.left_right.specs.Sides.{view};
ghost use Rattle.plan_publish.specs.History.{key_of};
ghost use Rattle.frame_meaning.specs.Meaning.{meaning};
ghost use Rattle.frame_meaning.specs.Size.{LeavesLittleMore};

use crate::edition::Edition;
use crate::lane::Lane;
use crate::rule::{Published, View};
use forward_plan::{Live, Verdict};
use left_right::reader::{Reader, Reading};

/// What a lane has while it is in.
pub trait Entered {
    ghost use Rattle.std.specs.Prelude.{ℕ};
    ghost use Rattle.mib_state.specs.Entities.{Entities};
    ghost use Rattle.plan_publish.specs.declared.rule.View.{View};

    ghost entities: { Self → Entities };

    ghost version: { Self → ℕ };

    ghost knows: { Self → View };

    /// The reader, which has left.
    fn back(self) -> Reader<Edition, View, Published>
        ensures { view result.place ≡ knows self };
}

impl Entered for Reading<Edition, View, Published> {
    ghost entities = { λ r. r.part.value.live };

    ghost version = { λ r. r.part.value.version };

    ghost knows = { λ r. view r.place };

    fn back(self) -> Reader<Edition, View, Published> {
        self.leave()
    }
}

/// A lane that is in, with what it holds. Its one kind is [`Held`].
pub struct Guard<'l, G: Entered> {
    pub(crate) lane: &'l mut Lane,
    pub(crate) reading: G,
    ghost at_home: { (G.knows reading).home ≡ Some (key_of lane.now.learnt.seen.book) },
}

/// A lane that is in, with the version that it holds. It borrows its lane; dropping it leaves.
pub type Held<'l> = Guard<'l, Reading<Edition, View, Published>>;

impl Guard<'_, Reading<Edition, View, Published>> {
    ghost use Rattle.std.specs.Prelude.{ℕ};
    ghost use Rattle.plan_publish.specs.Held.{held_entities, held_version};
    ghost use Rattle.plan_publish.specs.World.{World, answer, Decided, Forward};
    ghost use Rattle.plan_publish.specs.Shown.{ShowsHeld};

    /// The entities of the held version, with their plan.
    pub fn live(&self) -> &Live
        ensures { result.now ≡ held_entities self.now }
    {
        &self.reading.get().live
    }

    /// What becomes of a frame that comes in at a port, by the held version. It waits for nobody and takes no memory, and the
    /// verdict borrows the frame alone.
    #[inline(always)]
    pub fn forward<'a>(&self, port: u16, bytes: &'a [u8]) -> Verdict<'a>
        ensures verdict { result ≡ meaning (held_entities self.now) port bytes.now }
        ensures size { LeavesLittleMore bytes.now result }
        ensures event { (w : World) (l : ℕ) → ShowsHeld (held_entities self.now) l w
            → answer w (Forward l port bytes.now) ≡ Decided result }
    {
        self.reading.get().live.forward(port, bytes)
    }

    /// How many requests were accepted before the held version was published, or 2^64 - 1 where there are more.
    pub fn version(&self) -> u64
        ensures { result ≡ held_version self.now }
    {
        self.reading.get().version
    }
}

impl<G: Entered> Guard<'_, G> {
    ghost use Rattle.plan_publish.specs.Lane.{held_by, number_of, IsSameLane};
    ghost use Rattle.plan_publish.specs.Held.{held_lane, held_lists};

    /// The number of the lane.
    pub fn lane(&self) -> u16
        ensures { result ≡ number_of (held_lane self.now) }
    {
        self.lane.number()
    }

    /// Leaves, as a drop does.
    pub fn leave(self)
        ensures lane { IsSameLane (held_lane self.entry) self.exit.0.now }
        ensures lists { held_by self.exit.0.now ≡ Some (held_lists self.entry) }
    {
        drop(self);
    }
}

impl<G: Entered> Drop for Guard<'_, G> {
    ghost use Rattle.plan_publish.specs.Lane.{held_by, IsSameLane};
    ghost use Rattle.plan_publish.specs.Held.{held_lane, held_lists};

    fn drop(self)
        ensures lane { IsSameLane (held_lane self.entry) self.exit.0.now }
        ensures lists { held_by self.exit.0.now ≡ Some (held_lists self.entry) }
    {
        let Self { lane, reading } = self;
        lane.reader = Some(reading.back());
    }
}
