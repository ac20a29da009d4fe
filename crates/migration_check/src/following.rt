//! Whether a configuration between two others tears no frame, where the one before it on the way doesn't.
//!
//! A message mostly changes what becomes of few frames. Where the rows of a port ask what they asked before it, each frame still has the row at its
//! place. So only the frames of rows that changed are looked at.
ghost use Rattle.std.specs.Prelude.{◌≡◌, ◌⊎◌, IfOk, false, length, true};
ghost use Rattle.std.specs.Option.{option_map};
ghost use Rattle.frame_classes.specs.Told.{side_by};
ghost use Rattle.frame_rows.specs.Rows.{Mean};
ghost use Rattle.frame_rows.specs.Sight.{AreSeen};
ghost use Rattle.migration_check.specs.Following.{ChangedAreWhole, IsFollowed, IsHitlessBy, IsWholeBy};
ghost use Rattle.migration_check.specs.Migration.{IsHitlessAt};
ghost use Rattle.migration_check.specs.Telling.{Tells};

use crate::equal::are_asked_alike;
use crate::hitless::is_hitless_at;
use frame_classes::{Use, torn_by};
use frame_rows::{Row, Rows};
use frame_sameness::is_same_row;
use mib_state::Mib;
use std::alloc::{AllocError, Global};

/// A configuration between two others, at a port.
#[derive(Clone, Copy)]
pub struct Moment<'a> {
    /// The configuration before the change.
    pub before: &'a Mib,
    /// The one between.
    pub here: &'a Mib,
    /// The one after the change.
    pub after: &'a Mib,
    /// The port at which frames come in.
    pub port: u16,
}

/// Whether it tears none of the frames that its table uses so.
fn is_hitless_by(alloc: Global, moment: &Moment<'_>, used: Use) -> Result<bool, AllocError>
    ensures { IfOk result (λ is. Tells is (IsHitlessBy moment.now.before.now.entities
        moment.now.here.now.entities moment.now.after.now.entities moment.now.port used)) }
{
    let (before, here, after) = (moment.before, moment.here, moment.after);
    let tears = torn_by(alloc, before, here, after, moment.port, 0, used)?;
    let found = tears.as_slice();
    Ok(found.is_empty())
}

/// Whether it tears none of the frames of a row, where that was another before it on the way.
fn is_row_whole(
    alloc: Global,
    moment: &Moment<'_>,
    row: &Row,
    next: &Row,
) -> Result<bool, AllocError>
    ensures whole { IfOk result (λ is. is ≡ true → (row.now ≡ next.now)
        ⊎ IsHitlessBy moment.now.before.now.entities moment.now.here.now.entities
        moment.now.after.now.entities moment.now.port next.now.used) }
    ensures torn { IfOk result (λ is. is ≡ false
        → IsHitlessBy moment.now.before.now.entities moment.now.here.now.entities
        moment.now.after.now.entities moment.now.port next.now.used → ⊥) }
{
    if is_same_row(row, next) {
        return Ok(true);
    }
    let is_hitless = is_hitless_by(alloc, moment, next.used)?;
    Ok(is_hitless)
}

/// Whether it tears none of the frames whose rows are others than they were.
fn are_changed_whole(
    alloc: Global,
    moment: &Moment<'_>,
    last: &[Row],
    next: &[Row],
) -> Result<bool, AllocError>
    requires { length last.now ≡ length next.now }
    ensures whole { IfOk result (λ are. are ≡ true
        → ChangedAreWhole moment.now.before.now.entities moment.now.here.now.entities
        moment.now.after.now.entities moment.now.port last.now next.now) }
    ensures torn { IfOk result (λ are. are ≡ false
        → IsHitlessAt moment.now.before.now.entities moment.now.here.now.entities
        moment.now.after.now.entities moment.now.port → ⊥) }
{
    for place in 0..next.len() {
        let is_whole_here = is_row_whole(alloc, moment, &last[place], &next[place])?;
        if !is_whole_here {
            return Ok(false);
        }
    }
    Ok(true)
}

/// Whether it tears none at its port, where these are its rows there, and those were the rows of one that tears none.
fn is_whole(
    alloc: Global,
    moment: &Moment<'_>,
    last: &Rows,
    next: &Rows,
) -> Result<bool, AllocError>
    requires seen { AreSeen moment.now.here.now.entities moment.now.port (side_by next.now) }
    requires mean { Mean moment.now.here.now.entities moment.now.port next.now.endings
        next.now.rows.items }
    ensures { IfOk result (λ is. IsWholeBy moment.now.before.now.entities
        moment.now.after.now.entities moment.now.port (side_by last.now)
        → Tells is (IsHitlessAt moment.now.before.now.entities moment.now.here.now.entities
        moment.now.after.now.entities moment.now.port)) }
{
    if are_asked_alike(last, next) {
        let are_whole = are_changed_whole(alloc, moment, &last.rows, &next.rows)?;
        return Ok(are_whole);
    }
    let is_hitless = is_hitless_at(alloc, moment.before, moment.here, moment.after, moment.port)?;
    Ok(is_hitless)
}

/// Follows a port to the next configuration on a way, from the rows that it had before it on the way: the rows that it has now, or None where the configuration tears a
/// frame there. That is exact where the one before tore none, or is the first. Err only where memory is refused.
pub fn follow(alloc: Global, moment: &Moment<'_>, last: &Rows) -> Result<Option<Rows>, AllocError>
    ensures { IfOk result (λ next. IsWholeBy moment.now.before.now.entities
        moment.now.after.now.entities moment.now.port (side_by last.now)
        → IsFollowed moment.now.before.now.entities moment.now.here.now.entities
        moment.now.after.now.entities moment.now.port (option_map side_by next)) }
{
    let next = Rows::of(alloc, moment.here, moment.port)?;
    let is_whole = is_whole(alloc, moment, last, &next)?;
    if !is_whole {
        return Ok(None);
    }
    Ok(Some(next))
}
