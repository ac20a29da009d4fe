//! What is told of frames whatever their values of some fields are.
ghost use Rattle.std.specs.Prelude.{◌≡◌, ◌<◌, ℕ, IfSome, slice_get, slice_index_or, true};
ghost use Rattle.frame_rows.specs.declared.class.Ending.{Ending};
ghost use Rattle.frame_rows.specs.declared.field.Values.{Values};
ghost use Rattle.frame_rows.specs.Field.{place_of};
ghost use Rattle.frame_rows.specs.Row.{ending_of};
ghost use Rattle.frame_rows.specs.Source.{priority_by};
ghost use Rattle.frame_classes.specs.Splitting.{Agree};

use crate::left::Left;
use crate::settled::asks_nothing;
use crate::sides::Sides;
use crate::told::Told;
use frame_rows::{Ending, Ends, Field, FrameClass, Source, Values};

/// Whether frames of all priorities end alike.
fn are_all_same(endings: &[Ending; 8]) -> bool
    ensures { result ≡ true → (p : ℕ) (q : ℕ) (d : Ending) → p < 8 → q < 8
        → slice_index_or endings.now p d ≡ slice_index_or endings.now q d }
{
    let first = endings[0];
    endings.iter().all(|ending| *ending == first)
}

/// Whether frames end alike by a source of their priority, whatever their values of a field and those behind it are.
fn is_source_known(field: Field, source: &Source, endings: &[Ending; 8]) -> bool
    ensures { result ≡ true → (values : Values) (others : Values) (d : Ending) → Agree (place_of field) values others
        → slice_index_or endings.now (priority_by source.now values) d
        ≡ slice_index_or endings.now (priority_by source.now others) d }
{
    match source {
        Source::Fixed(_) => true,
        Source::FirstTag => {
            Field::FirstPriority.place() < field.place() || are_all_same(endings)
        }
        Source::SecondTag => {
            Field::SecondPriority.place() < field.place() || are_all_same(endings)
        }
        Source::Dscp(_) => false,
    }
}

/// Whether the frames of a row end alike, whatever their values of a field and those behind it are.
fn is_ending_known(field: Field, ends: &Ends, endings: &[Ending; 8]) -> bool
    ensures { result ≡ true → (values : Values) (others : Values) → Agree (place_of field) values others
        → ending_of endings.now ends.now values ≡ ending_of endings.now ends.now others }
{
    match ends {
        Ends::Dropped(_) => true,
        Ends::ByPriority(source) => is_source_known(field, source, endings),
    }
}

impl<'r> Sides<'r> {
    ghost use Rattle.std.specs.Prelude.{Some, map, take};
    ghost use Rattle.frame_rows.specs.Field.{fields};
    ghost use Rattle.frame_classes.specs.Beside.{AreBeside};
    ghost use Rattle.frame_classes.specs.Left.{AreLeftOf};
    ghost use Rattle.frame_classes.specs.Told.{class_at, classes_at, side_by};

    /// The class that frames with these values before a field have by a side, where these rows are left, if it is the same whatever
    /// their other values are.
    fn known_class(
        &self,
        left: &Left,
        side: usize,
        values: &Values,
        field: Field,
    ) -> Option<FrameClass>
        requires beside { AreBeside self.now.sides.now self.now.rows.now self.now.ends }
        requires left { AreLeftOf (map side_by self.now.sides.now) (take (place_of field) fields) values.now left.now }
        requires three { side < 3 }
        ensures { IfSome (slice_get self.now.sides.now side) (λ (s : _). IfSome result (λ (class : _).
            (others : Values) → Agree (place_of field) values.now others → class_at (side_by s) others ≡ Some class)) }
    {
        let (Some(row), Some(rows)) = (self.first(left, side), self.sides.get(side)) else {
            return None;
        };
        if asks_nothing(row, field) && is_ending_known(field, &row.ends, &rows.endings) {
            return Some(rows.class(row, values));
        }
        None
    }

    /// What is told of frames with these values before a field, where these rows are left, if it is the same whatever their other
    /// values are.
    pub(crate) fn known(&self, left: &Left, values: &Values, field: Field) -> Option<Told>
        requires beside { AreBeside self.now.sides.now self.now.rows.now self.now.ends }
        requires left { AreLeftOf (map side_by self.now.sides.now) (take (place_of field) fields) values.now left.now }
        ensures { IfSome result (λ (told : _). (others : Values) → Agree (place_of field) values.now others
            → classes_at (map side_by self.now.sides.now) others ≡ Some told) }
    {
        let first = self.known_class(left, 0, values, field);
        let second = self.known_class(left, 1, values, field);
        let third = self.known_class(left, 2, values, field);
        Told::of(self.sides.len(), first, second, third)
    }
}
