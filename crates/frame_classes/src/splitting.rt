//! Frames told apart, field by field.
ghost use Rattle.frame_rows.specs.declared.field.Values.{Values};

use crate::choices::Case;
use crate::found::Found;
use crate::left::Left;
use crate::sides::Sides;
use crate::spare::Spare;
use crate::told::{Told, is_wanted};
use frame_rows::{Field, Use, Values};
use std::alloc::{AllocError, Global};

/// The frames of at least so many bytes that come in at a port, told apart by its rows.
#[derive(Drop)]
pub(crate) struct Splitting<'r> {
    pub(crate) sides: &'r Sides<'r>,
    pub(crate) least: usize,
    /// Of three, the use by the one between of the frames that are looked for, if not all are.
    pub(crate) wanted: Option<Use>,
}

impl<'r> Splitting<'r> {
    ghost use Rattle.std.specs.Prelude.{◌≡◌, ◌≤◌, [], false, true, All, Contains, IfSome, OnOk, Some, filter, length, map, take};
    ghost use Rattle.frame_rows.specs.Field.{fields, place_of};
    ghost use Rattle.frame_rows.specs.Row.{row_admits};
    ghost use Rattle.frame_classes.specs.Choices.{test_at};
    ghost use Rattle.frame_classes.specs.Beside.{AreBeside};
    ghost use Rattle.frame_classes.specs.Left.{AreLeftOf};
    ghost use Rattle.frame_classes.specs.Silent.{AreSought, IsQuiet};
    ghost use Rattle.std.specs.List.{list_any};
    ghost use Rattle.std.specs.Option.{option_map_or};
    ghost use Rattle.frame_classes.specs.Told.{classes_at, side_by, told_by};
    ghost use Rattle.frame_classes.specs.Splitting.{Agree, AreAllFound, AreMore, AreWanted, IsOf, IsSample};
    ghost use Rattle.frame_classes.specs.Found.{Ascend, told_of};

    /// Finds what is told of all frames.
    pub(crate) fn find_all(&self, alloc: Global, found: &mut Found) -> Result<(), AllocError>
        requires beside { AreBeside self.now.sides.now.sides.now self.now.sides.now.rows.now
            self.now.sides.now.ends }
        requires none { found.old.samples.items ≡ [] }
        ensures more { OnOk result (AreMore (map side_by self.now.sides.now.sides.now) self.now.least
            found.old.samples.items found.new.samples.items) }
        ensures wanted { OnOk result (AreWanted self.now.wanted found.old.samples.items
            → AreWanted self.now.wanted found.new.samples.items) }
        ensures every { OnOk result ((values : Values) → AreAllFound (map side_by self.now.sides.now.sides.now) self.now.wanted
            self.now.least 0 values found.new.samples.items) }
    {
        let mut left = Left::none();
        for place in 0..self.sides.rows.len() {
            left.push(place);
        }
        let mut spare = Spare::new(alloc);
        self.find(found, &mut spare, &left, Values::zero(), 0)
    }

    /// Finds the classes of frames that have these values in the fields before a level, where these rows are left.
    fn find(
        &self,
        found: &mut Found,
        spare: &mut Spare,
        left: &Left,
        values: Values,
        level: usize,
    ) -> Result<(), AllocError>
        requires beside { AreBeside self.now.sides.now.sides.now self.now.sides.now.rows.now
            self.now.sides.now.ends }
        requires level { level ≤ length fields }
        requires few { length left.now ≤ 402 }
        requires eleven { length values.values ≡ length fields }
        requires left { AreLeftOf (map side_by self.now.sides.now.sides.now) (take level fields) values left.now }
        requires values { IsOf self.now.least (take level fields) values }
        requires samples { All (IsSample (map side_by self.now.sides.now.sides.now) self.now.least) found.old.samples.items }
        requires ascend { Ascend found.old.samples.items }
        ensures more { OnOk result (AreMore (map side_by self.now.sides.now.sides.now) self.now.least
            found.old.samples.items found.new.samples.items) }
        ensures wanted { OnOk result (AreWanted self.now.wanted found.old.samples.items
            → AreWanted self.now.wanted found.new.samples.items) }
        ensures every { OnOk result (AreAllFound (map side_by self.now.sides.now.sides.now) self.now.wanted self.now.least level
            values found.new.samples.items) }
    {
        let Some(field) = Field::ALL.get(level) else {
            return self.keep(found, left, values);
        };
        if self.sides.is_silent(left, *field) {
            return Ok(());
        }
        if self.is_known(found, left, &values, *field) {
            return Ok(());
        }
        let sought = self.sought(left);
        if self.is_quiet(left, &sought, *field) {
            return Ok(());
        }
        let case = Case {
            rows: self.sides.rows,
            left,
            values: &values,
            sides: self.sides,
        };
        let mut choices = spare.take()?;
        case.put_choices(&mut choices, *field, self.least);
        for value in &*choices {
            if self.leads(&sought, *field, *value) {
                let narrower = self.narrowed(left, *field, *value);
                self.find(
                    found,
                    spare,
                    &narrower,
                    values.with(*field, *value),
                    level + 1,
                )?;
            }
        }
        spare.give(choices)?;
        Ok(())
    }

    /// Whether what is told of frames with these values before a field, where these rows are left, is the same whatever their other
    /// values are, and stands there.
    fn is_known(&self, found: &Found, left: &Left, values: &Values, field: Field) -> bool
        requires beside { AreBeside self.now.sides.now.sides.now self.now.sides.now.rows.now
            self.now.sides.now.ends }
        requires left { AreLeftOf (map side_by self.now.sides.now.sides.now) (take (place_of field) fields) values.now left.now }
        requires samples { All (IsSample (map side_by self.now.sides.now.sides.now) self.now.least) found.now.samples.items }
        requires ascend { Ascend found.now.samples.items }
        ensures { result ≡ true → (others : Values) (told : _) → Agree (place_of field) values.now others
            → told_by (map side_by self.now.sides.now.sides.now) others ≡ Some told
            → Contains (told_of found.now.samples.items) told }
    {
        match self.sides.known(left, values, field) {
            Some(told) => found.has(&told),
            None => false,
        }
    }

    /// Of the rows that are left those of the one between of the use that is looked for; None where all frames are looked for.
    fn sought(&self, left: &Left) -> Option<Left>
        requires beside { AreBeside self.now.sides.now.sides.now self.now.sides.now.rows.now
            self.now.sides.now.ends }
        requires few { length left.now ≤ 402 }
        ensures { IfSome result (λ (sought : _). AreSought (map side_by self.now.sides.now.sides.now) self.now.wanted left.now
            sought) }
    {
        match self.wanted {
            Some(used) if self.sides.count() > 2 => Some(self.sides.used_of(left, used)),
            _ => None,
        }
    }

    /// Whether nothing is told of the frames that are looked for and for which these rows are left, whatever their values of a field and those behind
    /// it are.
    fn is_quiet(&self, left: &Left, sought: &Option<Left>, field: Field) -> bool
        requires beside { AreBeside self.now.sides.now.sides.now self.now.sides.now.rows.now
            self.now.sides.now.ends }
        requires three { IfSome sought.now (λ (places : _). length self.now.sides.now.sides.now ≡ 3) }
        ensures { result ≡ true → (places : _) × ((sought.now ≡ Some places)
            × IsQuiet (map side_by self.now.sides.now.sides.now) self.now.sides.now.rows.now left.now places field) }
    {
        match sought {
            Some(places) => self.sides.is_quiet(left, places, field),
            None => false,
        }
    }

    /// Whether frames with a value of a field may be such as are looked for: a row of them admits it.
    fn leads(&self, sought: &Option<Left>, field: Field, value: u16) -> bool
        ensures { result ≡ option_map_or (λ (places : _). list_any (test_at (λ row. row_admits row field value) false
            self.now.sides.now.rows.now) places) sought.now true }
    {
        match sought {
            None => true,
            Some(places) => self.admits_any(places, field, value),
        }
    }

    /// Whether a row at one of these places admits a value of a field.
    fn admits_any(&self, places: &Left, field: Field, value: u16) -> bool
        ensures { result ≡ list_any (test_at (λ row. row_admits row field value) false self.now.sides.now.rows.now)
            places.now }
    {
        places
            .iter()
            .any(|place| self.admits_at(place, field, value))
    }

    /// The rows that a value of a field leaves.
    fn narrowed(&self, left: &Left, field: Field, value: u16) -> Left
        requires { length left.now ≤ 402 }
        ensures few { length result ≤ 402 }
        ensures items { result ≡ filter (test_at (λ row. row_admits row field value) false
            self.now.sides.now.rows.now) left.now }
    {
        let mut narrower = Left::none();
        for place in left.iter() {
            if self.admits_at(place, field, value) {
                narrower.push(place);
            }
        }
        narrower
    }

    /// Whether the row at a place, if one stands there, admits a value of a field.
    fn admits_at(&self, place: usize, field: Field, value: u16) -> bool
        ensures { result ≡ test_at (λ row. row_admits row field value) false
            self.now.sides.now.rows.now place }
    {
        match self.sides.rows.get(place) {
            Some(row) => row.admits(field, value),
            None => false,
        }
    }

    /// Keeps what is told of frames with these values, for which these rows are left.
    fn keep(&self, found: &mut Found, left: &Left, values: Values) -> Result<(), AllocError>
        requires beside { AreBeside self.now.sides.now.sides.now self.now.sides.now.rows.now
            self.now.sides.now.ends }
        requires eleven { length values.values ≡ length fields }
        requires left { AreLeftOf (map side_by self.now.sides.now.sides.now) fields values left.now }
        requires values { IsOf self.now.least fields values }
        requires samples { All (IsSample (map side_by self.now.sides.now.sides.now) self.now.least) found.old.samples.items }
        requires ascend { Ascend found.old.samples.items }
        ensures more { OnOk result (AreMore (map side_by self.now.sides.now.sides.now) self.now.least
            found.old.samples.items found.new.samples.items) }
        ensures wanted { OnOk result (AreWanted self.now.wanted found.old.samples.items
            → AreWanted self.now.wanted found.new.samples.items) }
        ensures every { OnOk result (AreAllFound (map side_by self.now.sides.now.sides.now) self.now.wanted self.now.least 11
            values found.new.samples.items) }
    {
        match self.sides.classes(left, &values) {
            None => Ok(()),
            Some(told) => self.keep_told(found, told, left, values),
        }
    }

    /// Keeps what is told of frames with these values, for which these rows are left, if it is to be told and isn't there.
    fn keep_told(
        &self,
        found: &mut Found,
        told: Told,
        left: &Left,
        values: Values,
    ) -> Result<(), AllocError>
        requires beside { AreBeside self.now.sides.now.sides.now self.now.sides.now.rows.now
            self.now.sides.now.ends }
        requires eleven { length values.values ≡ length fields }
        requires classes { classes_at (map side_by self.now.sides.now.sides.now) values ≡ Some told }
        requires left { AreLeftOf (map side_by self.now.sides.now.sides.now) fields values left.now }
        requires values { IsOf self.now.least fields values }
        requires samples { All (IsSample (map side_by self.now.sides.now.sides.now) self.now.least) found.old.samples.items }
        requires ascend { Ascend found.old.samples.items }
        ensures more { OnOk result (AreMore (map side_by self.now.sides.now.sides.now) self.now.least
            found.old.samples.items found.new.samples.items) }
        ensures wanted { OnOk result (AreWanted self.now.wanted found.old.samples.items
            → AreWanted self.now.wanted found.new.samples.items) }
        ensures every { OnOk result (AreAllFound (map side_by self.now.sides.now.sides.now) self.now.wanted self.now.least 11
            values found.new.samples.items) }
    {
        if !is_wanted(self.wanted, &told) {
            return Ok(());
        }
        if found.has(&told) || !self.sides.is_shown(left, &values) {
            return Ok(());
        }
        found.put(told, values)
    }
}
