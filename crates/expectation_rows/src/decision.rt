//! The rows that decide an expectation.
ghost use Rattle.std.specs.Prelude.{◌≡◌, ◌∷◌, [], IfOk, map};
ghost use Rattle.expectation_rows.specs.Decision.{Decide, counted_rows, is_any, is_failing, is_wanted, marked, plain, side_of};
ghost use Rattle.expectation_rows.specs.Rows.{endings, here_rows, last_row};

use crate::filter::{Asked, ENDINGS, last_row};
use crate::pushing::{push_none, push_one, push_two};
use crate::wanted::KEEP;
use frame_expectation::{Expectation, WantedEnding, WantedTreatment};
use frame_rows::{Ending, Row, Rows};
use mib_state::Mib;
use std::alloc::{AllocError, Global};
use vlan_rule::TableSettings;

/// Three lists of rows: what they see otherwise decides an expectation.
#[derive(Drop)]
pub struct ExpectationRows {
    /// Those of the port, with GEM port 0 in place of each that is wanted, and 1 in place of each other. Where any bytes are wanted, their frames leave
    /// as they came.
    pub before: Rows,
    /// Those of the filter, whose frames leave as is wanted, and that of all other frames, which are dropped.
    pub here: Rows,
    /// That of all frames, which are dropped.
    pub after: Rows,
}

impl ExpectationRows {
    /// The rows that decide an expectation, for the state of these managed entities. Err only where memory is refused.
    pub fn of(
        alloc: Global,
        mib: &Mib,
        expected: &Expectation,
    ) -> Result<ExpectationRows, AllocError>
        ensures { IfOk result (λ rows. Decide mib.now.entities expected.now
            (side_of rows.before) (side_of rows.here) (side_of rows.after)) }
    {
        let rows = Rows::of(alloc, mib, expected.port)?;
        let asked = Asked {
            filter: expected.filter,
            treatment: expected.treatment,
            settings: rows.settings,
        };
        Ok(ExpectationRows {
            before: Rows {
                rows: counted_rows(alloc, &expected.treatment, rows.rows)?,
                settings: rows.settings,
                endings: marked_endings(expected.ending, &rows.endings),
            },
            here: here_of(alloc, &asked)?,
            after: after_of(alloc, &asked.settings)?,
        })
    }
}

/// Whether a frame fails an expectation that the rows between see otherwise than the others, and that ends so by the first.
pub fn is_failing(expected: &Expectation, ending: Ending) -> bool
    ensures { result ≡ is_failing expected.now ending }
{
    !(is_any(&expected.treatment) && is_wanted(expected.ending, ending))
}

/// Whether frames may leave with any bytes.
fn is_any(treatment: &WantedTreatment) -> bool
    ensures { result ≡ is_any treatment.now }
{
    match treatment {
        WantedTreatment::Any => true,
        _ => false,
    }
}

/// Whether an ending is wanted whose GEM port is marked.
fn is_wanted(wanted: WantedEnding, ending: Ending) -> bool
    ensures { result ≡ is_wanted wanted ending }
{
    match ending {
        Ending::Gem(gem) => gem == 0,
        Ending::Dropped(reason) => wanted.is_dropping(reason),
    }
}

/// The rows of a filter, and that of all other frames.
fn here_of(alloc: Global, asked: &Asked) -> Result<Rows, AllocError>
    ensures rows { IfOk result (λ rows. rows.rows.items ≡ here_rows asked.now) }
    ensures settings { IfOk result (λ rows. rows.settings ≡ asked.now.settings) }
    ensures endings { IfOk result (λ rows. rows.endings ≡ endings) }
{
    let mut rows = Vec::new(alloc);
    push_none(&mut rows, asked)?;
    push_one(&mut rows, asked)?;
    push_two(&mut rows, asked)?;
    rows.push(last_row())?;
    Ok(Rows {
        rows,
        settings: asked.settings,
        endings: ENDINGS,
    })
}

/// The row of all frames.
fn after_of(alloc: Global, settings: &TableSettings) -> Result<Rows, AllocError>
    ensures rows { IfOk result (λ rows. rows.rows.items ≡ last_row ∷ []) }
    ensures settings { IfOk result (λ rows. rows.settings ≡ settings.now) }
    ensures endings { IfOk result (λ rows. rows.endings ≡ endings) }
{
    let mut rows = Vec::new(alloc);
    rows.push(last_row())?;
    Ok(Rows {
        rows,
        settings: *settings,
        endings: ENDINGS,
    })
}

/// Rows of the port; where any bytes are wanted, as if their frames left as they came.
fn counted_rows(
    alloc: Global,
    treatment: &WantedTreatment,
    rows: Vec<Row>,
) -> Result<Vec<Row>, AllocError>
    ensures { IfOk result (λ counted. counted.items ≡ counted_rows treatment.now rows.items) }
{
    match treatment {
        WantedTreatment::Any => plain_rows(alloc, &rows),
        WantedTreatment::Unchanged | WantedTreatment::Retag(_) => Ok(rows),
    }
}

/// Rows as if their frames left as they came.
fn plain_rows(alloc: Global, rows: &[Row]) -> Result<Vec<Row>, AllocError>
    ensures { IfOk result (λ plainer. plainer.items ≡ map plain rows.now) }
{
    let mut plainer = Vec::with_capacity(alloc, rows.len())?;
    for row in rows {
        plainer.push(Row {
            used: row.used,
            ends: row.ends,
            asks: row.asks,
            tags: row.tags,
            retag: KEEP,
            marking: None,
        })?;
    }
    Ok(plainer)
}

/// How frames of each priority end, with GEM port 0 in place of each that is wanted, and 1 in place of each other.
fn marked_endings(wanted: WantedEnding, endings: &[Ending; 8]) -> [Ending; 8]
    ensures { result ≡ map (marked wanted) endings.now }
{
    [
        marked(wanted, endings[0]),
        marked(wanted, endings[1]),
        marked(wanted, endings[2]),
        marked(wanted, endings[3]),
        marked(wanted, endings[4]),
        marked(wanted, endings[5]),
        marked(wanted, endings[6]),
        marked(wanted, endings[7]),
    ]
}

/// An ending with GEM port 0 in place of one that is wanted, and 1 in place of another.
fn marked(wanted: WantedEnding, ending: Ending) -> Ending
    ensures { result ≡ marked wanted ending }
{
    match ending {
        Ending::Gem(gem) => Ending::Gem(u16::from(!wanted.is_leaving(gem))),
        Ending::Dropped(reason) => Ending::Dropped(reason),
    }
}
