//! The rows of a filter, one behind the other.
ghost use Rattle.std.specs.Prelude.{◌≡◌, ◌++◌, OnOk};
ghost use Rattle.expectation_rows.specs.Rows.{none_rows, offered, of_each, one_rows, rows_with_one, rows_with_two, two_rows};

use crate::filter::Asked;
use frame_rows::Row;
use std::alloc::AllocError;
use tag_view::{CUSTOMER_TPID, SERVICE_TPID};

/// Appends a row, if it is offered.
fn push(rows: &mut Vec<Row>, is_offered: bool, row: Row) -> Result<(), AllocError>
    ensures { OnOk result (rows.new.items ≡ rows.old.items ++ offered is_offered row) }
{
    if is_offered {
        rows.push(row)?;
    }
    Ok(())
}

/// Appends the row of frames without a tag.
pub(crate) fn push_none(rows: &mut Vec<Row>, asked: &Asked) -> Result<(), AllocError>
    ensures { OnOk result (rows.new.items ≡ rows.old.items ++ none_rows asked.now) }
{
    push(rows, asked.may_have_none(), asked.none_row())
}

/// Appends the rows of frames with one tag.
pub(crate) fn push_one(rows: &mut Vec<Row>, asked: &Asked) -> Result<(), AllocError>
    ensures { OnOk result (rows.new.items ≡ rows.old.items ++ one_rows asked.now) }
{
    push_with_one(rows, asked, CUSTOMER_TPID)?;
    push_with_one(rows, asked, SERVICE_TPID)?;
    push_with_one(rows, asked, asked.settings.input_tpid)
}

/// Appends the rows of frames with two tags.
pub(crate) fn push_two(rows: &mut Vec<Row>, asked: &Asked) -> Result<(), AllocError>
    ensures { OnOk result (rows.new.items ≡ rows.old.items ++ two_rows asked.now) }
{
    push_behind(rows, asked, CUSTOMER_TPID)?;
    push_behind(rows, asked, SERVICE_TPID)?;
    push_behind(rows, asked, asked.settings.input_tpid)
}

/// Appends the row of frames with one tag of a TPID.
fn push_with_one(rows: &mut Vec<Row>, asked: &Asked, tpid: u16) -> Result<(), AllocError>
    ensures { OnOk result (rows.new.items ≡ rows.old.items ++ rows_with_one asked.now tpid) }
{
    push(rows, asked.may_have_one(tpid), asked.one_row(tpid))
}

/// Appends the rows of frames with two tags, of which the outer one has this TPID.
fn push_behind(rows: &mut Vec<Row>, asked: &Asked, outer: u16) -> Result<(), AllocError>
    ensures { OnOk result (rows.new.items ≡ rows.old.items
        ++ of_each asked.now.settings.input_tpid (rows_with_two asked.now outer)) }
{
    push_with_two(rows, asked, outer, CUSTOMER_TPID)?;
    push_with_two(rows, asked, outer, SERVICE_TPID)?;
    push_with_two(rows, asked, outer, asked.settings.input_tpid)
}

/// Appends the row of frames with two tags of these TPIDs.
fn push_with_two(
    rows: &mut Vec<Row>,
    asked: &Asked,
    outer: u16,
    inner: u16,
) -> Result<(), AllocError>
    ensures { OnOk result (rows.new.items ≡ rows.old.items ++ rows_with_two asked.now outer inner) }
{
    push(
        rows,
        asked.may_have_two(outer, inner),
        asked.two_row(outer, inner),
    )
}
