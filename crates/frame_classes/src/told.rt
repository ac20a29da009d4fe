//! What is told of a frame by some configurations side by side.
ghost use Rattle.std.specs.Prelude.{◌≡◌, ◌<◌, ◌^◌, IsTrue};
ghost use Rattle.frame_rows.specs.Class.{class_fits};
ghost use Rattle.frame_classes.specs.Told.{digit, is_wanted, same_use, told_fits, told_number, told_of_classes};

use frame_rows::{FrameClass, Use};

/// What is told of a frame: the class that it has by each of one, two or three configurations.
#[derive(Clone, Copy, Debug)]
pub(crate) enum Told {
    One(FrameClass),
    Two(FrameClass, FrameClass),
    Three(FrameClass, FrameClass, FrameClass),
}

/// A class has a number below this.
const CLASSES: u128 = 0x400_0000;

/// The number of a class, from 1 on.
fn digit(class: &FrameClass) -> u128
    ensures value { result ≡ digit class.now }
    ensures bound { result < 2 ^ 26 }
    ensures fits { IsTrue (class_fits class.now) }
{
    u128::from(class.number()) + 1
}

/// Whether a table uses the same.
pub(crate) fn is_same_use(one: Use, other: Use) -> bool
    ensures { result ≡ same_use one other }
{
    match (one, other) {
        (Use::Unread, Use::Unread) => true,
        (Use::NoTable, Use::NoTable) => true,
        (Use::Entry(number), Use::Entry(another)) => number == another,
        (Use::NoEntry, Use::NoEntry) => true,
        _ => false,
    }
}

/// Whether something is looked for: where a use is given, of three configurations what the one between uses it for.
pub(crate) fn is_wanted(wanted: Option<Use>, told: &Told) -> bool
    ensures { result ≡ is_wanted wanted told.now }
{
    match (wanted, told) {
        (Some(used), Told::Three(_, here, _)) => is_same_use(here.used, used),
        _ => true,
    }
}

impl Told {
    /// What so many sides tell, one to three, by the class of each.
    pub(crate) fn of(
        count: usize,
        first: Option<FrameClass>,
        second: Option<FrameClass>,
        third: Option<FrameClass>,
    ) -> Option<Told>
        ensures { result ≡ told_of_classes count first second third }
    {
        match (count, first, second, third) {
            (1, Some(class), _, _) => Some(Told::One(class)),
            (2, Some(before), Some(after), _) => Some(Told::Two(before, after)),
            (3, Some(before), Some(here), Some(after)) => Some(Told::Three(before, here, after)),
            _ => None,
        }
    }

    /// A number of its own that grows in the order of the first classes, then of the second ones, then of the third.
    pub(crate) fn number(&self) -> u128
        ensures value { result ≡ told_number self.now }
        ensures fits { IsTrue (told_fits self.now) }
    {
        match self {
            Told::One(class) => digit(class),
            Told::Two(before, after) => digit(before) * CLASSES + digit(after),
            Told::Three(before, here, after) => {
                (digit(before) * CLASSES + digit(here)) * CLASSES + digit(after)
            }
        }
    }
}
