//! Where two lists of rows are the same, one by one.
ghost use Rattle.std.specs.Prelude.{◌≡◌, true};
ghost use Rattle.frame_classes.specs.Told.{side_by};

use frame_rows::{Ask, DscpSource, Row, Rows};
use vlan_rule::{AddedTag, Retag};

/// Whether the same tag is added, or none.
fn is_same_tag(one: &Option<AddedTag>, other: &Option<AddedTag>) -> bool
    ensures { result ≡ true → one.now ≡ other.now }
{
    match (one, other) {
        (None, None) => true,
        (Some(one), Some(other)) => {
            one.priority == other.priority
                && (one.vid == other.vid
                    && (one.tpid == other.tpid && one.eligible == other.eligible))
        }
        _ => false,
    }
}

/// Whether tags change alike.
fn is_same_retag(one: &Retag, other: &Retag) -> bool
    ensures { result ≡ true → one.now ≡ other.now }
{
    one.remove == other.remove
        && (is_same_tag(&one.outer, &other.outer) && is_same_tag(&one.inner, &other.inner))
}

/// Whether a DSCP gives the priority alike, or none does.
fn is_same_source(one: &Option<DscpSource>, other: &Option<DscpSource>) -> bool
    ensures { result ≡ true → one.now ≡ other.now }
{
    match (one, other) {
        (None, None) => true,
        (Some(one), Some(other)) => one == other,
        _ => false,
    }
}

/// Whether something else isn't asked.
fn is_same_ask(one: &Ask, other: &Ask) -> bool
    ensures { result ≡ true → one.now ≡ other.now }
{
    one == other
}

/// Whether the same is asked of each field, in the same order: true only where the two lists are one.
pub fn are_same_asks(asks: &[Ask], others: &[Ask]) -> bool
    ensures { result ≡ true → asks.now ≡ others.now }
{
    if asks.len() != others.len() {
        return false;
    }
    for place in 0..asks.len() {
        if !is_same_ask(&asks[place], &others[place]) {
            return false;
        }
    }
    true
}

/// Whether a row is another: true only where all of it is, what it is used as and its tags among it.
pub fn is_same_row(one: &Row, other: &Row) -> bool
    ensures { result ≡ true → one.now ≡ other.now }
{
    (one.used == other.used && one.tags == other.tags)
        && ((one.ends == other.ends && is_same_source(&one.marking, &other.marking))
            && (is_same_retag(&one.retag, &other.retag) && are_same_asks(&one.asks, &other.asks)))
}

/// Whether each of some rows is another at its place.
fn is_same_list(rows: &[Row], others: &[Row]) -> bool
    ensures { result ≡ true → rows.now ≡ others.now }
{
    if rows.len() != others.len() {
        return false;
    }
    for place in 0..rows.len() {
        if !is_same_row(&rows[place], &others[place]) {
            return false;
        }
    }
    true
}

/// Whether two lists of rows, and what they stand with, are the same.
pub(crate) fn are_rows_same(one: &Rows, other: &Rows) -> bool
    ensures { result ≡ true → side_by one.now ≡ side_by other.now }
{
    one.settings == other.settings
        && (one.endings == other.endings && is_same_list(&one.rows, &other.rows))
}
