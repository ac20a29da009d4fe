//! The classes of a port, and what configurations see otherwise.

ghost use Rattle.std.specs.Prelude.{◌≡◌, ◌<◌, ◌≤◌, All, IfOk, length, map};
ghost use Rattle.frame_classes.specs.Beside.{SideFits, SideMarks};
ghost use Rattle.frame_classes.specs.Classes.{AreClasses};
ghost use Rattle.frame_classes.specs.Differences.{AreApartBy, AreDifferences, AreTorn, AreTornBy, AreTornByRows};
ghost use Rattle.frame_classes.specs.Listed.{count_told, of_one, of_three, of_two, tell};
ghost use Rattle.frame_classes.specs.Splitting.{AreExamplesOf, AreTold};
ghost use Rattle.frame_classes.specs.Told.{side_by};

use crate::example::{ClassExample, Difference, Tear, frame_of};
use crate::found::{Found, Sample};
use crate::meeting::met;
use crate::sides::{Sides, rows_of};
use crate::splitting::Splitting;
use crate::told::Told;
use frame_rows::{Rows, Use};
use mib_state::Mib;
use std::alloc::{AllocError, Global};

/// The classes of the frames of at least `least` bytes that come in at a port: each that some frame has, once and in order, with
/// a frame that has it. Every list of bytes counts as a frame. Err only where memory is refused.
pub fn classes(
    alloc: Global,
    mib: &Mib,
    port: u16,
    least: usize,
) -> Result<Vec<ClassExample>, AllocError>
    ensures { IfOk result (λ list. AreClasses mib.now.entities port least
        (map (λ (e : _). (e.class, e.frame.items)) list.items)) }
{
    let rows = Rows::of(alloc, mib, port)?;
    let sides = [rows];
    let found = found_of(alloc, &sides, least, None)?;
    examples_of(alloc, port, &found, least)
}

/// What a port sees otherwise by two configurations, of frames of at least `least` bytes: each pair of a class by the one and a
/// class by the other that some frame has which they see otherwise, once and in order, with such a frame. A frame is seen by the
/// GEM port and the bytes with which it leaves, or by the reason to drop it. Every list of bytes counts as a frame. Err only
/// where memory is refused.
pub fn differences(
    alloc: Global,
    one: &Mib,
    other: &Mib,
    port: u16,
    least: usize,
) -> Result<Vec<Difference>, AllocError>
    ensures { IfOk result (λ list. AreDifferences one.now.entities other.now.entities port least
        (map (λ (d : _). ((d.before, d.after), d.frame.items)) list.items)) }
{
    let rows = Rows::of(alloc, one, port)?;
    let next = Rows::of(alloc, other, port)?;
    differences_by_rows(alloc, rows, next, port, least)
}

/// What two lists of rows see otherwise, of frames of at least `least` bytes: each pair of a class by the one and a class by the other
/// that some frame has which they see otherwise, once and in order, with such a frame. A frame has the class of the first row that asks
/// nothing else of it, and none where no row admits it. So rows may be compared that no managed entities mean. The port counts for
/// the number in a frame alone. Every list of bytes counts as a frame. Err only where memory is refused.
///
/// Condition: the rows ask and write what rows of a port may, and say which DSCP their treatments ask for; each list has at most 134.
pub fn differences_by_rows(
    alloc: Global,
    one: Rows,
    other: Rows,
    port: u16,
    least: usize,
) -> Result<Vec<Difference>, AllocError>
    requires one_fits { SideFits (side_by one) }
    requires one_marks { SideMarks (side_by one) }
    requires one_few { length one.rows.items ≤ 134 }
    requires other_fits { SideFits (side_by other) }
    requires other_marks { SideMarks (side_by other) }
    requires other_few { length other.rows.items ≤ 134 }
    ensures { IfOk result (λ list. AreApartBy (side_by one) (side_by other) least
        (map (λ (d : _). ((d.before, d.after), d.frame.items)) list.items)) }
{
    let sides = [one, other];
    let found = found_of(alloc, &sides, least, None)?;
    differences_of(alloc, port, &found, least)
}

/// What a configuration between two others sees otherwise than both, of the frames of at least `least` bytes that come in at a
/// port: each three classes, by the one before, by the one here and by the one after, that some frame has which leaves here with
/// a GEM port or bytes with which it leaves neither before nor after, or which is dropped here and neither before nor after, once
/// and in order, with such a frame. For what reason it is dropped doesn't count. Every list of bytes counts as a frame. Err only
/// where memory is refused.
pub fn torn(
    alloc: Global,
    before: &Mib,
    here: &Mib,
    after: &Mib,
    port: u16,
    least: usize,
) -> Result<Vec<Tear>, AllocError>
    ensures { IfOk result (λ list. AreTorn before.now.entities here.now.entities after.now.entities port least
        (map (λ (t : _). ((t.before, t.here, t.after), t.frame.items)) list.items)) }
{
    let first = Rows::of(alloc, before, port)?;
    let between = Rows::of(alloc, here, port)?;
    let last = Rows::of(alloc, after, port)?;
    let sides = [first, between, last];
    let found = found_of(alloc, &sides, least, None)?;
    tears_of(alloc, port, &found, least)
}

/// Those of what [`torn`] lists in which the configuration between uses an entry, or nothing, for the frame: exactly these, once and in
/// order. So where one entry changes of a long order of messages, its frames alone are looked at. Err only where memory is refused.
pub fn torn_by(
    alloc: Global,
    before: &Mib,
    here: &Mib,
    after: &Mib,
    port: u16,
    least: usize,
    used: Use,
) -> Result<Vec<Tear>, AllocError>
    ensures { IfOk result (λ list. AreTornBy before.now.entities here.now.entities after.now.entities port least used
        (map (λ (t : _). ((t.before, t.here, t.after), t.frame.items)) list.items)) }
{
    let first = Rows::of(alloc, before, port)?;
    let between = Rows::of(alloc, here, port)?;
    let last = Rows::of(alloc, after, port)?;
    torn_by_rows(alloc, &first, &between, &last, port, least, used)
}

/// What a list of rows between two others sees otherwise than both, of the frames of at least `least` bytes for which it uses an entry, or
/// nothing: exactly these, once and in order, each with such a frame. Of drops the reasons don't count. So rows may be compared that no
/// managed entities mean. The port counts for the number in a frame alone. Every list of bytes counts as a frame. Err only where memory
/// is refused.
///
/// Condition: the rows ask and write what rows of a port may, and say which DSCP their treatments ask for; each list has at most 134.
pub fn torn_by_rows(
    alloc: Global,
    before: &Rows,
    here: &Rows,
    after: &Rows,
    port: u16,
    least: usize,
    used: Use,
) -> Result<Vec<Tear>, AllocError>
    requires before_fits { SideFits (side_by before.now) }
    requires before_marks { SideMarks (side_by before.now) }
    requires before_few { length before.now.rows.items ≤ 134 }
    requires here_fits { SideFits (side_by here.now) }
    requires here_marks { SideMarks (side_by here.now) }
    requires here_few { length here.now.rows.items ≤ 134 }
    requires after_fits { SideFits (side_by after.now) }
    requires after_marks { SideMarks (side_by after.now) }
    requires after_few { length after.now.rows.items ≤ 134 }
    ensures { IfOk result (λ list. AreTornByRows (side_by before.now) (side_by here.now) (side_by after.now) least used
        (map (λ (t : _). ((t.before, t.here, t.after), t.frame.items)) list.items)) }
{
    let earlier = met(alloc, &here.rows, used, before)?;
    let between = met(alloc, &here.rows, used, here)?;
    let later = met(alloc, &here.rows, used, after)?;
    let sides = [earlier, between, later];
    let found = found_of(alloc, &sides, least, Some(used))?;
    tears_of(alloc, port, &found, least)
}

/// What is told of all frames by some configurations of a port; of three, if a use is given, of those alone that the one between
/// uses so.
fn found_of(
    alloc: Global,
    sides: &[Rows],
    least: usize,
    wanted: Option<Use>,
) -> Result<Found, AllocError>
    requires some { 0 < length sides.now }
    requires three { length sides.now ≤ 3 }
    requires fit { All SideFits (map side_by sides.now) }
    requires marked { All SideMarks (map side_by sides.now) }
    requires few { All (λ (side : _). length side.rows.items ≤ 134) sides.now }
    ensures { IfOk result (λ found. AreTold (map side_by sides.now) wanted least found.samples.items) }
{
    let rows = rows_of(alloc, sides)?;
    let beside = Sides::of(sides, &rows);
    let mut found = Found::new(alloc);
    let splitting = Splitting {
        sides: &beside,
        least,
        wanted,
    };
    splitting.find_all(alloc, &mut found)?;
    Ok(found)
}

/// The number of the frame at a place of a port's list, which no other frame of any port's has.
fn number_of(port: u16, place: usize) -> u64 {
    (u64::from(port) * 0x1_0000_0000).wrapping_add(place as u64)
}

/// Each class with the bytes of its frame.
fn examples_of(
    alloc: Global,
    port: u16,
    found: &Found,
    least: usize,
) -> Result<Vec<ClassExample>, AllocError>
    requires { All (λ (s : _). count_told s.told ≡ 1) found.now.samples.items }
    ensures { IfOk result (λ list. AreExamplesOf least (length found.now.samples.items)
        found.now.samples.items (tell of_one (map (λ (e : _). (e.class, e.frame.items)) list.items))) }
{
    let mut examples = Vec::with_capacity(alloc, found.samples.len())?;
    for place in 0..found.samples.len() {
        let sample = &found.samples[place];
        if let Told::One(class) = sample.told {
            let frame = frame_of(alloc, &sample.values, least, number_of(port, place))?;
            examples.push(ClassExample { class, frame })?;
        }
    }
    Ok(examples)
}

/// Each pair of classes with the bytes of its frame.
fn differences_of(
    alloc: Global,
    port: u16,
    found: &Found,
    least: usize,
) -> Result<Vec<Difference>, AllocError>
    requires { All (λ (s : _). count_told s.told ≡ 2) found.now.samples.items }
    ensures { IfOk result (λ list. AreExamplesOf least (length found.now.samples.items)
        found.now.samples.items (tell of_two (map (λ (d : _). ((d.before, d.after), d.frame.items)) list.items))) }
{
    let mut differences = Vec::with_capacity(alloc, found.samples.len())?;
    for place in 0..found.samples.len() {
        let sample = &found.samples[place];
        if let Told::Two(before, after) = sample.told {
            let frame = frame_of(alloc, &sample.values, least, number_of(port, place))?;
            differences.push(Difference {
                before,
                after,
                frame,
            })?;
        }
    }
    Ok(differences)
}

/// Each three classes with the bytes of their frame.
fn tears_of(alloc: Global, port: u16, found: &Found, least: usize) -> Result<Vec<Tear>, AllocError>
    requires { All (λ (s : _). count_told s.told ≡ 3) found.now.samples.items }
    ensures { IfOk result (λ list. AreExamplesOf least (length found.now.samples.items)
        found.now.samples.items (tell of_three (map (λ (t : _). ((t.before, t.here, t.after), t.frame.items)) list.items))) }
{
    let mut tears = Vec::with_capacity(alloc, found.samples.len())?;
    for place in 0..found.samples.len() {
        let sample = &found.samples[place];
        if let Told::Three(before, here, after) = sample.told {
            let frame = frame_of(alloc, &sample.values, least, number_of(port, place))?;
            tears.push(Tear {
                before,
                here,
                after,
                frame,
            })?;
        }
    }
    Ok(tears)
}
