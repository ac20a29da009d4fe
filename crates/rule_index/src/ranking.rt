//! The rows of a table in the order of rank and place.
ghost use Rattle.std.specs.Prelude.{◌≡◌, ◌≤◌, ◌+◌, ◌++◌, IfSome, Some, length, map, slice_get, take, vec_capacity, vec_len};
ghost use Rattle.std.specs.Option.{option_map};
ghost use Rattle.vlan_rule.specs.Table.{table_max_size};
ghost use Rattle.rule_index.specs.Order.{lowered, rows_from, rows_of, up_to_rank};

use crate::row::Row;
use vlan_rule::RuleTable;

/// Puts the entries of a table in order: those of rank 0, of rank 1, of rank 2.
pub(crate) fn rank_entries(rows: &mut Vec<Row>, table: &RuleTable)
    requires room { table_max_size ≤ vec_capacity rows.old }
    requires limit { length table.now ≤ table_max_size }
    ensures rows { rows.new.items ≡ rows_of table.now }
    ensures room { vec_capacity rows.new ≡ vec_capacity rows.old }
    ensures few { length rows.new.items ≤ table_max_size }
{
    rows.clear();
    add_rank(rows, table, 0);
    add_rank(rows, table, 1);
    add_rank(rows, table, 2);
}

/// Adds the entries of a rank.
fn add_rank(rows: &mut Vec<Row>, table: &RuleTable, rank: u8)
    requires { vec_len rows.old + length (rows_from rank 0 table.now) ≤ vec_capacity rows.old }
    ensures rows { rows.new.items ≡ rows.old.items ++ rows_from rank 0 table.now }
    ensures room { vec_capacity rows.new ≡ vec_capacity rows.old }
{
    for place in 0..table.len() {
        if let Some(rule) = table.rule(place) {
            if rule.rank.number() == rank {
                rows.push_reserved(Row {
                    place,
                    filter: rule.filter,
                    ethertype: rule.ethertype,
                });
            }
        }
    }
}

/// How many of the first entries of a table are of a rank or of a smaller one: the number of an entry of this
/// rank that comes behind them.
pub(crate) fn count_up_to(table: &RuleTable, rank: u8, count: usize) -> usize
    requires { count ≤ length table.now }
    ensures value { result ≡ up_to_rank rank (take count table.now) }
    ensures limit { result ≤ count }
{
    let mut counted = 0;
    for place in 0..count {
        if let Some(rule) = table.rule(place) {
            if rule.rank.number() <= rank {
                counted += 1;
            }
        }
    }
    counted
}

/// Closes the gap that a place leaves whose entry is gone: the places behind it are one lower.
pub(crate) fn close_gap(rows: &mut [Row], place: usize)
    ensures { rows.new ≡ map (λ row. lowered place row) rows.old }
{
    for number in 0..rows.len() {
        rows[number] = rows[number].lowered(place);
    }
}

/// The place of the entry of a number in the order.
#[inline(always)]
pub(crate) fn place_at(rows: &[Row], number: usize) -> Option<usize>
    ensures { result ≡ option_map (λ (row : _). row.place) (slice_get rows.now number) }
{
    let row = rows.get(number)?;
    Some(row.place)
}

/// Keeps the number of each row, from one on, by its place.
pub(crate) fn number_places(numbers: &mut [u8; 128], rows: &[Row], from: usize) {
    for number in from..rows.len().min(128) {
        if let Some(kept) = numbers.get_mut(rows[number].place) {
            *kept = number as u8;
        }
    }
}

/// The number of the entry at a place, as it is kept. The row of the number is asked for its place, so that
/// nothing has to be known of what is kept.
pub(crate) fn number_at(numbers: &[u8; 128], rows: &[Row], place: usize) -> Option<u8>
    ensures { IfSome result (λ number.
        option_map (λ (row : _). row.place) (slice_get rows.now number) ≡ Some place) }
{
    let number = *numbers.get(place)?;
    if place_at(rows, usize::from(number)) == Some(place) {
        Some(number)
    } else {
        None
    }
}
