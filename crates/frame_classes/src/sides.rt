//! Configurations side by side.
ghost use Rattle.std.specs.Prelude.{◌≡◌, ◌<◌, ◌≤◌, ◌+◌, ◌++◌, All, IfOk, IfSome, IsTrue, OnOk, Some, length, map, slice_get, true};
ghost use Rattle.std.specs.Option.{option_map_or, option_copied};
ghost use Rattle.frame_rows.specs.Fits.{row_fits};
ghost use Rattle.frame_rows.specs.Sight.{rows_apart, same_tag, same_tags, tags_apart};
ghost use Rattle.frame_classes.specs.Silent.{AreFirstAlike};
ghost use Rattle.frame_classes.specs.Told.{rows_of_all, side_by};

use crate::alike::are_seen_alike;
use crate::left::Left;
use crate::settled::asks_nothing;
use crate::told::{Told, is_same_use};
use frame_rows::{Ending, Field, FrameClass, Row, Rows, Use, Values};
use std::alloc::{AllocError, Global};
use tag_view::Tag;

/// The most rows of three ports.
pub(crate) const MAX_ROWS: usize = 402;

/// One, two or three configurations of a port, side by side.
#[derive(Drop)]
pub(crate) struct Sides<'r> {
    /// The rows of each, and what they stand with.
    pub(crate) sides: &'r [Rows],
    /// The rows of all, one side behind the other.
    pub(crate) rows: &'r [Row],
    /// How many rows there are up to the end of each side.
    pub(crate) ends: [usize; 3],
}

/// Two sides that are compared, by rows that are left before a field.
#[derive(Drop)]
struct Beside<'r> {
    field: Field,
    side: &'r Rows,
    next: &'r Rows,
    /// The number of the second one.
    other: usize,
}

/// The rows of all sides, one side behind the other.
pub(crate) fn rows_of(alloc: Global, sides: &[Rows]) -> Result<Vec<Row>, AllocError>
    ensures { IfOk result (λ rows. rows.items ≡ rows_of_all (map side_by sides.now)) }
{
    let mut all = Vec::with_capacity(alloc, MAX_ROWS)?;
    for side in sides {
        push_rows(&mut all, side)?;
    }
    Ok(all)
}

/// Appends the rows of a side.
fn push_rows(all: &mut Vec<Row>, side: &Rows) -> Result<(), AllocError>
    ensures { OnOk result (all.new.items ≡ all.old.items ++ side.now.rows.items) }
{
    for row in &side.rows {
        all.push(*row)?;
    }
    Ok(())
}

/// How many rows a side has, if there is one.
fn rows_at(sides: &[Rows], side: usize) -> usize
    ensures { result ≡ option_map_or (λ (side : _). length side.rows.items) (slice_get sides.now side) 0 }
{
    match sides.get(side) {
        Some(side) => side.rows.len(),
        None => 0,
    }
}

impl<'r> Sides<'r> {
    ghost use Rattle.frame_rows.specs.Field.{fields};
    ghost use Rattle.frame_rows.specs.Sight.{seen_apart};
    ghost use Rattle.frame_classes.specs.Beside.{AreBeside, SideFits, SideMarks};
    ghost use Rattle.frame_classes.specs.Left.{AreLeftOf, first_left, is_of, rows_at};
    ghost use Rattle.frame_classes.specs.Silent.{AreAlikeUntil, AreAllAlike, IsQuiet, IsSilent, is_used_at};
    ghost use Rattle.std.specs.Prelude.{None, false, filter, if◌then◌else◌};
    ghost use Rattle.frame_classes.specs.Choices.{test_at};
    ghost use Rattle.frame_classes.specs.Told.{class_at, classes_at, is_shown, same_use};

    /// Some sides with the rows of all.
    pub(crate) fn of(sides: &'r [Rows], rows: &'r [Row]) -> Sides<'r>
        requires some { 0 < length sides.now }
        requires three { length sides.now ≤ 3 }
        requires together { rows.now ≡ rows_of_all (map side_by sides.now) }
        requires few { length rows.now ≤ 402 }
        requires fit { All SideFits (map side_by sides.now) }
        requires marked { All SideMarks (map side_by sides.now) }
        ensures beside { AreBeside result.sides.now result.rows.now result.ends }
        ensures sides { result.sides.now ≡ sides.now }
        ensures rows { result.rows.now ≡ rows.now }
    {
        let first = rows_at(sides, 0);
        let second = first + rows_at(sides, 1);
        let third = second + rows_at(sides, 2);
        Sides {
            sides,
            rows,
            ends: [first, second, third],
        }
    }

    /// How many there are.
    pub(crate) fn count(&self) -> usize
        ensures { result ≡ length self.now.sides.now }
    {
        self.sides.len()
    }

    /// Whether the row at a place is one of a side, under 3.
    fn is_of(&self, place: usize, side: usize) -> bool
        requires beside { AreBeside self.now.sides.now self.now.rows.now self.now.ends }
        requires three { side < 3 }
        ensures { result ≡ is_of (map side_by self.now.sides.now) side place }
    {
        match side {
            0 => place < self.ends[0],
            1 => self.ends[0] <= place && place < self.ends[1],
            _ => self.ends[1] <= place && place < self.ends[2],
        }
    }

    /// Of the rows that are left those of the second side of this use.
    pub(crate) fn used_of(&self, left: &Left, used: Use) -> Left
        requires beside { AreBeside self.now.sides.now self.now.rows.now self.now.ends }
        requires few { length left.now ≤ 402 }
        ensures { result ≡ filter (is_used_at (map side_by self.now.sides.now) used) left.now }
    {
        let mut places = Left::none();
        for place in left.iter() {
            if self.is_used_at(place, used) {
                places.push(place);
            }
        }
        places
    }

    /// Whether the row at a place is one of the second side, and of this use.
    fn is_used_at(&self, place: usize, used: Use) -> bool
        requires beside { AreBeside self.now.sides.now self.now.rows.now self.now.ends }
        ensures { result ≡ is_used_at (map side_by self.now.sides.now) used place }
    {
        self.is_of(place, 1) && self.is_used(place, used)
    }

    /// Whether the row at a place, if one stands there, is of this use.
    fn is_used(&self, place: usize, used: Use) -> bool
        ensures { result ≡ test_at (λ row. same_use row.used used) false self.now.rows.now place }
    {
        match self.rows.get(place) {
            Some(row) => is_same_use(row.used, used),
            None => false,
        }
    }

    /// The first row of a side that is left.
    pub(crate) fn first(&self, left: &Left, side: usize) -> Option<&'r Row>
        requires beside { AreBeside self.now.sides.now self.now.rows.now self.now.ends }
        requires three { side < 3 }
        ensures { option_copied result ≡ first_left (map side_by self.now.sides.now) left.now side }
    {
        for place in left.iter() {
            if self.is_of(place, side) {
                if let Some(row) = self.rows.get(place) {
                    return Some(row);
                }
            }
        }
        None
    }

    /// Whether nothing is told of frames for which these rows are left, whatever their values of a field and those behind it are.
    pub(crate) fn is_silent(&self, left: &Left, field: Field) -> bool
        requires beside { AreBeside self.now.sides.now self.now.rows.now self.now.ends }
        ensures { result ≡ true → IsSilent (map side_by self.now.sides.now) left.now field }
    {
        match self.sides.len() {
            0 | 1 => false,
            2 => self.are_alike(left, 0, 1, field),
            _ => self.are_alike(left, 1, 0, field) || self.are_alike(left, 1, 2, field),
        }
    }

    /// Whether two sides see frames alike for which these rows are left, by the first rows of both.
    fn are_alike(&self, left: &Left, one: usize, other: usize, field: Field) -> bool
        requires beside { AreBeside self.now.sides.now self.now.rows.now self.now.ends }
        requires one { one < 3 }
        requires other { other < 3 }
        ensures { result ≡ true → IfSome (slice_get self.now.sides.now one) (λ (s : _).
            IfSome (slice_get self.now.sides.now other) (λ (t : _).
            AreFirstAlike field (side_by s) (side_by t) (first_left (map side_by self.now.sides.now) left.now one)
            (first_left (map side_by self.now.sides.now) left.now other))) }
    {
        let row = self.first(left, one);
        let beside = self.first(left, other);
        match (self.sides.get(one), self.sides.get(other)) {
            (Some(side), Some(next)) => are_first_alike(field, side, row, next, beside),
            _ => false,
        }
    }

    /// Whether the side before the one between, or the one after it, sees frames as that one does: by each row at these places of the one, and each of
    /// the other that may be the first of a frame for which these rows are left.
    pub(crate) fn is_quiet(&self, left: &Left, sought: &Left, field: Field) -> bool
        requires beside { AreBeside self.now.sides.now self.now.rows.now self.now.ends }
        requires three { length self.now.sides.now ≡ 3 }
        ensures { result ≡ true → IsQuiet (map side_by self.now.sides.now) self.now.rows.now left.now sought.now field }
    {
        self.are_all_alike(left, sought, 0, field) || self.are_all_alike(left, sought, 2, field)
    }

    /// Whether the side between sees frames as another one does.
    fn are_all_alike(&self, left: &Left, sought: &Left, other: usize, field: Field) -> bool
        requires beside { AreBeside self.now.sides.now self.now.rows.now self.now.ends }
        requires other { other < 3 }
        ensures { result ≡ true → IfSome (slice_get self.now.sides.now 1) (λ (s : _).
            IfSome (slice_get self.now.sides.now other) (λ (t : _).
            AreAllAlike (map side_by self.now.sides.now) self.now.rows.now left.now sought.now field other (side_by s) (side_by t))) }
    {
        let (Some(side), Some(next)) = (self.sides.get(1), self.sides.get(other)) else {
            return false;
        };
        let beside = Beside {
            field,
            side,
            next,
            other,
        };
        self.are_pairs_alike(left, sought, &beside)
    }

    /// Whether a side sees frames as another one does by its row at each of these places.
    fn are_pairs_alike(&self, left: &Left, sought: &Left, beside: &Beside<'_>) -> bool
        requires beside { AreBeside self.now.sides.now self.now.rows.now self.now.ends }
        requires other { beside.now.other < 3 }
        ensures { result ≡ true → AreAllAlike (map side_by self.now.sides.now) self.now.rows.now left.now sought.now
            beside.now.field beside.now.other (side_by beside.now.side.now) (side_by beside.now.next.now) }
    {
        for place in sought.iter() {
            if let Some(row) = self.rows.get(place) {
                if !self.is_alike_until(left, row, beside) {
                    return false;
                }
            }
        }
        true
    }

    /// Whether a side sees frames by a row as another one does by each row that is left, up to the first that asks nothing more.
    fn is_alike_until(&self, left: &Left, row: &Row, beside: &Beside<'_>) -> bool
        requires beside { AreBeside self.now.sides.now self.now.rows.now self.now.ends }
        requires other { beside.now.other < 3 }
        ensures { result ≡ true → AreAlikeUntil beside.now.field (side_by beside.now.side.now) (side_by beside.now.next.now) row.now
            (rows_at self.now.rows.now (filter (is_of (map side_by self.now.sides.now) beside.now.other) left.now)) }
    {
        for place in left.iter() {
            if let Some(other) = self.row_of(place, beside.other) {
                if !are_seen_alike(beside.side, row, beside.next, other) {
                    return false;
                }
                if asks_nothing(other, beside.field) {
                    return true;
                }
            }
        }
        true
    }

    /// The row at a place, if one of a side stands there.
    fn row_of(&self, place: usize, side: usize) -> Option<&'r Row>
        requires beside { AreBeside self.now.sides.now self.now.rows.now self.now.ends }
        requires three { side < 3 }
        ensures { option_copied result
            ≡ (if is_of (map side_by self.now.sides.now) side place then slice_get self.now.rows.now place else None) }
    {
        match self.is_of(place, side) {
            true => self.rows.get(place),
            false => None,
        }
    }

    /// The class of frames with these values by a side, where these rows are left.
    fn class(&self, left: &Left, side: usize, values: &Values) -> Option<FrameClass>
        requires beside { AreBeside self.now.sides.now self.now.rows.now self.now.ends }
        requires left { AreLeftOf (map side_by self.now.sides.now) fields values.now left.now }
        requires three { side < 3 }
        ensures { IfSome (slice_get self.now.sides.now side) (λ (s : _). result ≡ class_at (side_by s) values.now) }
    {
        match (self.first(left, side), self.sides.get(side)) {
            (Some(row), Some(rows)) => Some(rows.class(row, values)),
            _ => None,
        }
    }

    /// The class of frames with these values by each side, where these rows are left.
    pub(crate) fn classes(&self, left: &Left, values: &Values) -> Option<Told>
        requires beside { AreBeside self.now.sides.now self.now.rows.now self.now.ends }
        requires left { AreLeftOf (map side_by self.now.sides.now) fields values.now left.now }
        ensures { result ≡ classes_at (map side_by self.now.sides.now) values.now }
    {
        let first = self.class(left, 0, values);
        let second = self.class(left, 1, values);
        let third = self.class(left, 2, values);
        Told::of(self.sides.len(), first, second, third)
    }

    /// Whether frames with these values, for which these rows are left, are to be told of: of two sides, where they see them
    /// otherwise; of three, where the one between sees them otherwise than the first and the last.
    pub(crate) fn is_shown(&self, left: &Left, values: &Values) -> bool
        requires beside { AreBeside self.now.sides.now self.now.rows.now self.now.ends }
        requires left { AreLeftOf (map side_by self.now.sides.now) fields values.now left.now }
        ensures { result ≡ is_shown (map side_by self.now.sides.now) values.now }
    {
        match self.sides.len() {
            0 | 1 => true,
            2 => self.is_apart(left, 0, 1, values, true),
            _ => {
                self.is_apart(left, 1, 0, values, false) && self.is_apart(left, 1, 2, values, false)
            }
        }
    }

    /// Whether two sides see frames with these values otherwise, where these rows are left. Of drops the reasons count, or they
    /// don't.
    fn is_apart(
        &self,
        left: &Left,
        one: usize,
        other: usize,
        values: &Values,
        reasons: bool,
    ) -> bool
        requires beside { AreBeside self.now.sides.now self.now.rows.now self.now.ends }
        requires left { AreLeftOf (map side_by self.now.sides.now) fields values.now left.now }
        requires one { one < 3 }
        requires other { other < 3 }
        ensures { IfSome (slice_get self.now.sides.now one) (λ (s : _).
            IfSome (slice_get self.now.sides.now other) (λ (t : _).
            result ≡ seen_apart reasons (side_by s) (side_by t) values.now)) }
    {
        let row = self.first(left, one);
        let beside = self.first(left, other);
        match (self.sides.get(one), self.sides.get(other)) {
            (Some(side), Some(next)) => {
                are_first_apart(reasons, side, row, next, beside, values)
            }
            _ => false,
        }
    }
}

/// Whether two sides see frames alike by their first rows, if both have one.
fn are_first_alike(
    field: Field,
    side: &Rows,
    row: Option<&Row>,
    next: &Rows,
    beside: Option<&Row>,
) -> bool
    ensures { result ≡ true → AreFirstAlike field (side_by side.now) (side_by next.now)
        (option_copied row.entry) (option_copied beside.entry) }
{
    match (row, beside) {
        (Some(row), Some(beside)) => {
            (asks_nothing(row, field) && asks_nothing(beside, field))
                && are_seen_alike(side, row, next, beside)
        }
        _ => false,
    }
}

/// Whether frames with these values are seen otherwise by the first rows of two sides, if both have one.
fn are_first_apart(
    reasons: bool,
    side: &Rows,
    row: Option<&Row>,
    next: &Rows,
    beside: Option<&Row>,
    values: &Values,
) -> bool
    requires fits { IfSome (option_copied row) (λ (r : _). IsTrue (row_fits side.now.settings.input_tpid r)) }
    requires beside_fits { IfSome (option_copied beside) (λ (r : _). IsTrue (row_fits next.now.settings.input_tpid r)) }
    ensures { result ≡ rows_apart reasons (side_by side.now) (side_by next.now) values.now
        (option_copied row.entry) (option_copied beside.entry) }
{
    match (row, beside) {
        (Some(row), Some(beside)) => are_apart(reasons, side, row, next, beside, values),
        _ => false,
    }
}

/// Whether frames with these values are seen otherwise by a row of one side and by one of another.
fn are_apart(
    reasons: bool,
    side: &Rows,
    row: &Row,
    next: &Rows,
    beside: &Row,
    values: &Values,
) -> bool
    requires fits { IsTrue (row_fits side.now.settings.input_tpid row.now) }
    requires beside_fits { IsTrue (row_fits next.now.settings.input_tpid beside.now) }
    ensures { result ≡ rows_apart reasons (side_by side.now) (side_by next.now) values.now (Some row.now) (Some beside.now) }
{
    match (
        side.class(row, values).ending,
        next.class(beside, values).ending,
    ) {
        (Ending::Gem(gem), Ending::Gem(other)) => {
            gem != other || are_tags_apart(side, row, next, beside, values)
        }
        (Ending::Dropped(reason), Ending::Dropped(other)) => {
            reasons && reason.code() != other.code()
        }
        _ => true,
    }
}

/// Whether frames with these values leave two sides with other bytes, by these rows.
fn are_tags_apart(one: &Rows, row: &Row, other: &Rows, beside: &Row, values: &Values) -> bool
    requires fits { IsTrue (row_fits one.now.settings.input_tpid row.now) }
    requires beside_fits { IsTrue (row_fits other.now.settings.input_tpid beside.now) }
    ensures { result ≡ tags_apart (side_by one.now) (side_by other.now) values.now row.now beside.now }
{
    let count = row.tags.max(beside.tags);
    let tags = one.leaving(row, values, count);
    let others = other.leaving(beside, values, count);
    !are_same(&tags, &others)
}

/// Whether some tags are others.
fn are_same(tags: &[Tag], others: &[Tag]) -> bool
    ensures { result ≡ same_tags tags.now others.now }
{
    if tags.len() != others.len() {
        return false;
    }
    for place in 0..tags.len() {
        if !is_same(&tags[place], &others[place]) {
            return false;
        }
    }
    true
}

/// Whether a tag is another.
fn is_same(tag: &Tag, other: &Tag) -> bool
    ensures { result ≡ same_tag tag.now other.now }
{
    (tag.tpid() == other.tpid() && tag.pcp() == other.pcp())
        && (tag.dei() == other.dei() && tag.vid() == other.vid())
}
