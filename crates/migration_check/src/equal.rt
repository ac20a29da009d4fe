//! Where two lists of rows ask alike.
ghost use Rattle.std.specs.Prelude.{◌≡◌, map, true};
ghost use Rattle.frame_classes.specs.Told.{side_by};
ghost use Rattle.frame_rows.specs.declared.row.Row.{Row as TheRow};
ghost use Rattle.migration_check.specs.Following.{AreAskedAlike};

use frame_rows::{Row, Rows};
use frame_sameness::are_same_asks;

/// Whether each of some rows asks what another does at its place.
fn are_asks_same(rows: &[Row], others: &[Row]) -> bool
    ensures { result ≡ true → map (λ (row : TheRow). row.asks) rows.now
        ≡ map (λ (row : TheRow). row.asks) others.now }
{
    if rows.len() != others.len() {
        return false;
    }
    for place in 0..rows.len() {
        if !are_same_asks(&rows[place].asks, &others[place].asks) {
            return false;
        }
    }
    true
}

/// Whether two lists of rows ask alike, row by row, and stand with the same: so the first row for a frame stands at one place in both.
pub(crate) fn are_asked_alike(one: &Rows, other: &Rows) -> bool
    ensures { result ≡ true → AreAskedAlike (side_by one.now) (side_by other.now) }
{
    one.settings == other.settings
        && (one.endings == other.endings && are_asks_same(&one.rows, &other.rows))
}
