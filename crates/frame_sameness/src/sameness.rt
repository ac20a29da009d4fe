//! Two lists of rows compared, and once more by what the table uses.
ghost use Rattle.std.specs.Prelude.{◌≡◌, ◌<◌, ◌==◌, ℕ, true, All, Decides, IfOk, IsTrue, length, map};
ghost use Rattle.std.specs.List.{list_all};
ghost use Rattle.vlan_rule.specs.declared.treatment.Treatment.{Treatment};
ghost use Rattle.vlan_rule.specs.Meaning.{treatment_fits};
ghost use Rattle.frame_rows.specs.Fits.{row_fits};
ghost use Rattle.frame_classes.specs.Told.{side_by};
ghost use Rattle.frame_classes.specs.declared.example.Difference.{Difference as TheDifference};
ghost use Rattle.frame_sameness.specs.Same.{AreSame};
ghost use Rattle.frame_sameness.specs.UseRows.{is_long, use_code, use_retag, use_row, use_side};

use crate::equal::are_rows_same;
use frame_classes::{Difference, Ending, Use, differences_by_rows};
use frame_rows::{Ask, Ends, Row, Rows, Source};
use mib_state::Mib;
use std::alloc::{AllocError, Global};
use vlan_rule::{AddedTag, EligibleSource, PrioritySource, Retag, TpidSource, VidSource};

/// A number of each use's own, which a VID can be.
fn code_of(used: Use) -> u16
    ensures is { result ≡ use_code used }
    ensures below { result < 4095 }
{
    match used {
        Use::Unread => 0,
        Use::NoTable => 1,
        Use::NoEntry => 2,
        Use::Entry(number) => 3 + u16::from(number),
    }
}

/// The tag of a use goes before the others.
fn retag_of(used: Use) -> Retag
    ensures is { result ≡ use_retag used }
    ensures fits { treatment_fits (Treatment.Retag result) ≡ true }
{
    Retag {
        remove: 0,
        outer: None,
        inner: Some(AddedTag {
            priority: PrioritySource::Fixed(0),
            vid: VidSource::Fixed(code_of(used)),
            tpid: TpidSource::Standard,
            eligible: EligibleSource::Clear,
        }),
    }
}

/// Whether the frames of a row have the tags that it reads, and a type behind them.
fn is_long(row: &Row) -> bool
    ensures { result ≡ is_long row.now }
{
    match &row.asks[0] {
        Ask::Between(least, _) => 14 + 4 * u16::from(row.tags) <= *least,
        _ => false,
    }
}

/// A row of the same frames, which leave with the tag of its use before their own. What can't be read stays dropped.
fn use_row(row: &Row) -> Row
    ensures is { result ≡ use_row row.now }
    ensures fits { (input : ℕ) → IsTrue (row_fits input row.now) → IsTrue (row_fits input result) }
{
    if !is_long(row) {
        return *row;
    }
    Row {
        used: row.used,
        ends: Ends::ByPriority(Source::Fixed(0)),
        asks: row.asks,
        tags: row.tags,
        retag: retag_of(row.used),
        marking: None,
    }
}

/// Such a row for each.
fn use_rows(alloc: Global, rows: &[Row]) -> Result<Vec<Row>, AllocError>
    ensures is { IfOk result (λ uses. uses.items ≡ map use_row rows.now) }
    ensures fit { (input : ℕ) → All (λ row. IsTrue (row_fits input row)) rows.now
        → IfOk result (λ uses. All (λ row. IsTrue (row_fits input row)) uses.items) }
{
    let mut uses = Vec::with_capacity(alloc, rows.len())?;
    for row in rows {
        uses.push(use_row(row))?;
    }
    Ok(uses)
}

/// The rows by which frames leave with the tag of their use.
fn uses_of(alloc: Global, rows: &Rows) -> Result<Rows, AllocError>
    ensures is { IfOk result (λ uses. side_by uses ≡ use_side (side_by rows.now)) }
    ensures fit { (input : ℕ) → All (λ row. IsTrue (row_fits input row)) rows.now.rows.items
        → IfOk result (λ uses. All (λ row. IsTrue (row_fits input row)) uses.rows.items) }
{
    let uses = use_rows(alloc, &rows.rows)?;
    Ok(Rows {
        rows: uses,
        settings: rows.settings,
        endings: [Ending::Gem(0); 8],
    })
}

/// Whether there is no difference.
fn are_none(differences: &[Difference]) -> bool
    ensures { result ≡ (length differences.now == 0) }
{
    differences.is_empty()
}

/// Whether both classes of each pair have the same use.
fn are_used_alike(pairs: &[Difference]) -> bool
    ensures { result ≡ list_all (λ (d : TheDifference). use_code d.before.used == use_code d.after.used) pairs.now }
{
    pairs.iter().all(|pair| code_of(pair.before.used) == code_of(pair.after.used))
}

/// Whether two configurations are the same for every frame of at least `least` bytes that comes in at a port: by both it has the same
/// class, and leaves with the same GEM port and bytes or is dropped for the same reason. Every list of bytes counts as a frame. Err
/// only where memory is refused.
pub fn are_same(
    alloc: Global,
    one: &Mib,
    other: &Mib,
    port: u16,
    least: usize,
) -> Result<bool, AllocError>
    ensures { IfOk result (λ same. Decides same (AreSame one.now.entities other.now.entities port least)) }
{
    let rows = Rows::of(alloc, one, port)?;
    let next = Rows::of(alloc, other, port)?;
    if are_rows_same(&rows, &next) {
        return Ok(true);
    }
    let uses = uses_of(alloc, &rows)?;
    let next_uses = uses_of(alloc, &next)?;
    let apart = differences_by_rows(alloc, rows, next, port, least)?;
    if !are_none(&apart) {
        return Ok(false);
    }
    let pairs = differences_by_rows(alloc, uses, next_uses, port, least)?;
    Ok(are_used_alike(&pairs))
}
