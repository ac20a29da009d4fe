//! The rows that some frame may have beside a row of one use: where only the frames of an entry are looked at, the others are left out.
ghost use Rattle.std.specs.Prelude.{◌≡◌, ◌≤◌, IfOk, length};
ghost use Rattle.frame_classes.specs.Meeting.{may_meet, meets_use, met, rows_meet};
ghost use Rattle.frame_classes.specs.Told.{side_by};

use crate::told::is_same_use;
use frame_rows::{Ask, Field, Row, Rows, Use};
use std::alloc::{AllocError, Global};

/// Whether some value may be as both ask. Where it says no, none is.
fn may_meet(one: Ask, other: Ask) -> bool
    ensures { result ≡ may_meet one other }
{
    match (one, other) {
        (Ask::Exactly(value), Ask::Exactly(other)) => value == other,
        (Ask::Between(least, most), Ask::Between(from, to)) => least <= to && from <= most,
        (Ask::TagType { input, .. }, Ask::NoTagType { input: other, .. }) => input != other,
        (Ask::NoTagType { input, .. }, Ask::TagType { input: other, .. }) => input != other,
        _ => true,
    }
}

/// Whether some frame may be as both rows ask.
fn rows_meet(row: &Row, other: &Row) -> bool
    ensures { result ≡ rows_meet row.now other.now }
{
    Field::ALL.iter().all(|field| may_meet(row.asks[field.place()], other.asks[field.place()]))
}

/// Whether some frame may be as a row asks, and as one of a use does.
fn meets_use(rows: &[Row], used: Use, row: &Row) -> bool
    ensures { result ≡ meets_use rows.now used row.now }
{
    rows.iter().any(|other| is_same_use(other.used, used) && rows_meet(row, other))
}

/// What a port means for the frames for which other rows use this: of its rows those that such a frame may have.
pub(crate) fn met(alloc: Global, rows: &[Row], used: Use, side: &Rows) -> Result<Rows, AllocError>
    ensures met { IfOk result (λ kept. side_by kept ≡ met rows.now used (side_by side.now)) }
    ensures few { IfOk result (λ kept. length kept.rows.items ≤ length side.now.rows.items) }
{
    let mut kept = Vec::with_capacity(alloc, side.rows.len())?;
    for row in &side.rows {
        if meets_use(rows, used, row) {
            kept.push(*row)?;
        }
    }
    Ok(Rows {
        rows: kept,
        settings: side.settings,
        endings: side.endings,
    })
}
