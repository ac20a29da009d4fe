//! What is asked of the differences that are listed of two configurations.
use crate::plainly::{class_of, place_of};
use crate::sight::{is_same, is_walked};
use forward_plan::{Live, Verdict};
use frame_classes::{Difference, FrameClass};
use std::alloc::{AllocError, Global};
use std::process::Abort;
use test_fixtures::holds;

/// Two configurations, and what is listed of a port's frames of at least `least` bytes.
#[derive(Clone, Copy)]
pub(crate) struct Pair<'l> {
    pub(crate) one: &'l Live,
    pub(crate) other: &'l Live,
    pub(crate) port: u16,
    pub(crate) least: usize,
    pub(crate) list: &'l [Difference],
}

/// How two configurations see a frame otherwise: dropped by both, by the second or by the first, or sent to one GEM port or to two.
fn kind_of_difference(before: &Verdict, after: &Verdict) -> usize {
    match (before, after) {
        (Verdict::Drop(_), Verdict::Drop(_)) => 0,
        (Verdict::Forward { .. }, Verdict::Drop(_)) => 1,
        (Verdict::Drop(_), Verdict::Forward { .. }) => 2,
        (Verdict::Forward { gem, .. }, Verdict::Forward { gem: other, .. }) => match gem == other {
            true => 3,
            false => 4,
        },
    }
}

impl Pair<'_> {
    /// Checks each frame that is shown, and the order.
    pub(crate) fn check_list(&self, rt: &impl Abort, alloc: Global) -> Result<(), AllocError> {
        let mut before = None;
        for shown in self.list {
            self.check_shown(rt, alloc, shown)?;
            let (first, second) = (place_of(shown.before), place_of(shown.after));
            let place = Some(u64::from(first) << 32 | u64::from(second));
            holds!(rt; before < place, "the place of {shown:?}");
            before = place;
        }
        Ok(())
    }

    /// Checks that a frame that is shown is long enough, has the classes beside it and is seen otherwise, also by the plain walk.
    fn check_shown(
        &self,
        rt: &impl Abort,
        alloc: Global,
        shown: &Difference,
    ) -> Result<(), AllocError> {
        let frame = shown.frame.as_slice();
        let before = self.one.forward(self.port, frame);
        let after = self.other.forward(self.port, frame);
        let same = is_same(alloc, &before, &after)?;
        holds!(rt; !same && self.least <= frame.len(), "{shown:?} is seen otherwise, and long enough");
        holds!(rt; (shown.before, shown.after) == self.classes_of(frame), "the classes of {shown:?}");
        let walked = is_walked(alloc, self.one, self.port, frame)?;
        holds!(rt; walked && is_walked(alloc, self.other, self.port, frame)?, "{shown:?} by the plain walk");
        Ok(())
    }

    /// The classes of a frame.
    fn classes_of(&self, frame: &[u8]) -> (FrameClass, FrameClass) {
        (
            class_of(self.one, self.port, frame),
            class_of(self.other, self.port, frame),
        )
    }

    /// Whether the classes of a frame are listed.
    fn has(&self, frame: &[u8]) -> bool {
        let classes = self.classes_of(frame);
        self.list
            .iter()
            .any(|shown| (shown.before, shown.after) == classes)
    }

    /// Checks that the classes of a frame are listed where it is seen otherwise, and gives by a number how it is then.
    pub(crate) fn check_frame(
        &self,
        rt: &impl Abort,
        alloc: Global,
        frame: &[u8],
    ) -> Result<Option<usize>, AllocError> {
        let before = self.one.forward(self.port, frame);
        let after = self.other.forward(self.port, frame);
        if is_same(alloc, &before, &after)? {
            return Ok(None);
        }
        holds!(rt; self.has(frame), "that {frame:?} is listed");
        Ok(Some(kind_of_difference(&before, &after)))
    }
}
