//! Which class of a stretch a frame has.
ghost use Rattle.std.specs.Prelude.{◌≡◌, ◌<◌, ◌≤◌, ◌⊎◌, ℕ, Decides, Some, false, length, slice_get, slice_index_or, slice_set, true};
ghost use Rattle.frame_rows.specs.Class.{class_number};
ghost use Rattle.frame_classes.specs.declared.example.ClassExample.{ClassExample as TheExample};
ghost use Rattle.bench_coverage.specs.Marks.{Ascend, AreMarked, HasClass, IsPlaceFor};

use crate::hints::Hints;
use crate::stretch::Stretch;
use frame_classes::{ClassExample, FrameClass};

/// How many of some classes, which ascend, have smaller numbers.
fn place_of(classes: &[ClassExample], number: u32) -> usize
    requires { Ascend classes.now }
    ensures within { result ≤ length classes.now }
    ensures before { (k : ℕ) (d : TheExample) → k < result
        → class_number (slice_index_or classes.now k d).class < number }
    ensures behind { (d : TheExample) → result < length classes.now
        → number ≤ class_number (slice_index_or classes.now result d).class }
{
    let mut low = 0;
    let mut high = classes.len();
    while low < high {
        let middle = low + (high - low) / 2;
        if classes[middle].class.number() < number {
            low = middle + 1;
        } else {
            high = middle;
        }
    }
    low
}

/// Whether two classes are the same.
fn is_same(one: &FrameClass, other: &FrameClass) -> bool
    ensures { Decides result (one.now ≡ other.now) }
{
    *one == *other
}

/// Whether the class at a place is this one.
fn is_at(classes: &[ClassExample], place: usize, class: &FrameClass) -> bool
    ensures { Decides result (HasClass class.now (slice_get classes.now place)) }
{
    match classes.get(place) {
        Some(example) => is_same(&example.class, class),
        None => false,
    }
}

/// The place of a class: a guess where that is right, or else how many have smaller numbers.
fn place_for(classes: &[ClassExample], class: &FrameClass, guess: usize) -> usize
    requires { Ascend classes.now }
    ensures { IsPlaceFor classes.now class.now result }
{
    if is_at(classes, guess, class) {
        return guess;
    }
    place_of(classes, class.number())
}

/// Marks the class at a place, if it is this one.
fn mark_at(classes: &[ClassExample], tried: &mut Vec<bool>, place: usize, class: &FrameClass)
    ensures marked { AreMarked classes.now place class.now tried.old.items tried.new.items }
    ensures decided { HasClass class.now (slice_get classes.now place)
        ⊎ ¬ (HasClass class.now (slice_get classes.now place)) }
{
    if is_at(classes, place, class) {
        set_mark(tried, place);
    }
}

/// Sets the mark at a place, if there is one.
fn set_mark(tried: &mut Vec<bool>, place: usize)
    ensures { tried.new.items ≡ slice_set tried.old.items place true }
{
    if let Some(mark) = tried.get_mut(place) {
        *mark = true;
    }
}

impl Stretch {
    /// Marks the class of a frame, if it is one of the stretch: a frame that is shorter than those that are listed may have another.
    pub(crate) fn mark(&mut self, class: &FrameClass, hints: &mut Hints)
        requires ascend { Ascend self.old.classes.items }
        requires marks { length self.old.tried.items ≡ length self.old.classes.items }
        ensures same { self.new ≡ record self.old { tried = self.new.tried } }
        ensures marks { length self.new.tried.items ≡ length self.old.tried.items }
        ensures tried { (k : ℕ) (example : TheExample) → slice_get self.old.classes.items k ≡ Some example
            → Decides (slice_index_or self.new.tried.items k false)
            ((slice_index_or self.old.tried.items k false ≡ true) ⊎ (example.class ≡ class.now)) }
    {
        let number = class.number();
        let place = place_for(&self.classes, class, hints.of(number));
        hints.keep(number, place);
        mark_at(&self.classes, &mut self.tried, place, class);
    }
}
