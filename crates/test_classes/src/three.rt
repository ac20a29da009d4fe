//! What is asked of the tears that are listed of a configuration between two others.
use crate::plainly::{class_of, place_of};
use crate::sight::{is_torn, is_walked};
use forward_plan::{Live, Verdict};
use frame_classes::{FrameClass, Tear};
use std::alloc::{AllocError, Global};
use std::process::Abort;
use test_fixtures::holds;

/// Three configurations, and what is listed of a port's frames of at least `least` bytes.
#[derive(Clone, Copy)]
pub(crate) struct Three<'l> {
    pub(crate) before: &'l Live,
    pub(crate) here: &'l Live,
    pub(crate) after: &'l Live,
    pub(crate) port: u16,
    pub(crate) least: usize,
    pub(crate) list: &'l [Tear],
}

/// What three configurations make of a frame.
#[derive(Drop)]
struct Verdicts<'a> {
    before: Verdict<'a>,
    here: Verdict<'a>,
    after: Verdict<'a>,
}

impl Verdicts<'_> {
    /// Whether the frame is torn.
    fn are_torn(&self, alloc: Global) -> Result<bool, AllocError> {
        is_torn(alloc, &self.before, &self.here, &self.after)
    }

    /// How the frame is torn: dropped here alone, let through here alone, or otherwise by all three or by two.
    fn kind_of_tear(&self) -> usize {
        match (&self.before, &self.here, &self.after) {
            (_, Verdict::Drop(_), _) => 0,
            (Verdict::Drop(_), _, Verdict::Drop(_)) => 1,
            (Verdict::Forward { .. }, _, Verdict::Forward { .. }) => 2,
            _ => 3,
        }
    }

    /// Whether the frame is dropped by all, and here for a reason of its own.
    fn differ_in_reasons(&self) -> bool {
        match (&self.before, &self.here, &self.after) {
            (Verdict::Drop(before), Verdict::Drop(here), Verdict::Drop(after)) => {
                here.code() != before.code() && here.code() != after.code()
            }
            _ => false,
        }
    }
}

impl Three<'_> {
    /// Checks each frame that is shown, and the order.
    pub(crate) fn check_list(&self, rt: &impl Abort, alloc: Global) -> Result<(), AllocError> {
        let mut before = None;
        for shown in self.list {
            self.check_shown(rt, alloc, shown)?;
            let (first, second) = (place_of(shown.before), place_of(shown.here));
            let place = u128::from(first) << 64 | u128::from(second) << 32;
            let place = Some(place | u128::from(place_of(shown.after)));
            holds!(rt; before < place, "the place of {shown:?}");
            before = place;
        }
        Ok(())
    }

    /// What is made of a frame.
    fn verdicts<'a>(&self, frame: &'a [u8]) -> Verdicts<'a> {
        Verdicts {
            before: self.before.forward(self.port, frame),
            here: self.here.forward(self.port, frame),
            after: self.after.forward(self.port, frame),
        }
    }

    /// Checks that a frame that is shown is long enough, has the classes beside it and is torn, also by the plain walk.
    fn check_shown(&self, rt: &impl Abort, alloc: Global, shown: &Tear) -> Result<(), AllocError> {
        let frame = shown.frame.as_slice();
        let torn = self.verdicts(frame).are_torn(alloc)?;
        holds!(rt; torn && self.least <= frame.len(), "{shown:?} is torn, and long enough");
        let classes = (shown.before, shown.here, shown.after);
        holds!(rt; classes == self.classes_of(frame), "the classes of {shown:?}");
        for live in [self.before, self.here, self.after] {
            holds!(rt; is_walked(alloc, live, self.port, frame)?, "{shown:?} by the plain walk");
        }
        Ok(())
    }

    /// The classes of a frame.
    fn classes_of(&self, frame: &[u8]) -> (FrameClass, FrameClass, FrameClass) {
        (
            class_of(self.before, self.port, frame),
            class_of(self.here, self.port, frame),
            class_of(self.after, self.port, frame),
        )
    }

    /// Whether the classes of a frame are listed.
    fn has(&self, frame: &[u8]) -> bool {
        let classes = self.classes_of(frame);
        self.list
            .iter()
            .any(|shown| (shown.before, shown.here, shown.after) == classes)
    }

    /// Checks that the classes of a frame are listed where it is torn, and gives by a number how it is then, or 4 where it is dropped
    /// by all for reasons that would make it so.
    pub(crate) fn check_frame(
        &self,
        rt: &impl Abort,
        alloc: Global,
        frame: &[u8],
    ) -> Result<Option<usize>, AllocError> {
        let verdicts = self.verdicts(frame);
        if verdicts.are_torn(alloc)? {
            holds!(rt; self.has(frame), "that {frame:?} is listed");
            return Ok(Some(verdicts.kind_of_tear()));
        }
        match verdicts.differ_in_reasons() {
            true => Ok(Some(4)),
            false => Ok(None),
        }
    }
}
