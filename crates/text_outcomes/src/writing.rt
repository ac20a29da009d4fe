//! What is found of expectations, written.
ghost use Rattle.std.specs.Prelude.{◌≡◌, ◌&&◌, ℕ, IfOk};
ghost use Rattle.mib_state.specs.Entities.{Entities};
ghost use Rattle.frame_expectation.specs.declared.expectation.Expectation.{Expectation};
ghost use Rattle.expectation_check.specs.Outcome.{IsOutcome};
ghost use Rattle.text_outcomes.specs.Said.{IsSaid, IsSaidOf, IsSaidOfLast};

use crate::asked::Asked;
use crate::following::follow;
use crate::list::OutcomeList;
use crate::said::Moment;
use expectation_check::{Outcome, check};
use mib_state::Mib;
use script_trace::Applied;
use std::alloc::Global;
use std::io::Write;
use text_expectations::ExpectedLine;
use text_writing::TextFault;

/// Whether an expectation holds of which this is found.
fn holds(outcome: &Outcome) -> bool
    ensures { (e : Entities) (expected : Expectation) (least : ℕ)
        → IsOutcome e expected least outcome.now → IsSaid e least expected result }
{
    match outcome {
        Outcome::Holds => true,
        Outcome::Void | Outcome::Fails(_) => false,
    }
}

/// Whether both hold.
fn are_both(one: bool, other: bool) -> bool
    ensures { result ≡ (one && other) }
{
    one && other
}

/// Writes what is found of an expectation by a state of managed entities, and gives whether it holds.
fn write_one<W: Write>(
    alloc: Global,
    mib: &Mib,
    expected: &ExpectedLine,
    least: usize,
    list: &mut OutcomeList,
    writer: &mut W,
) -> Result<bool, TextFault>
    ensures { IfOk result (IsSaid mib.now.entities least expected.now.expectation) }
{
    let outcome = check(alloc, mib, &expected.expectation, least)?;
    let moment = Moment { mib, version: None };
    let said = list.said(expected, &outcome, &moment)?;
    let held = holds(&outcome);
    list.write(said, held, writer)?;
    Ok(held)
}

/// Writes what is found of expectations by a state of managed entities, and gives whether each holds.
fn write_last<W: Write>(
    alloc: Global,
    mib: &Mib,
    asked: &Asked<'_>,
    list: &mut OutcomeList,
    writer: &mut W,
) -> Result<bool, TextFault>
    ensures { IfOk result (IsSaidOf mib.now.entities asked.now.least asked.now.lines.now) }
{
    let mut hold = true;
    for expected in asked.lines {
        let held = write_one(alloc, mib, expected, usize::from(asked.least), list, writer)?;
        hold = are_both(hold, held);
    }
    Ok(hold)
}

/// Writes what is found of expectations by each version from a line on, and gives whether each holds by all of them.
fn write_versions<W: Write>(
    alloc: Global,
    applied: &Applied,
    from: u64,
    asked: &Asked<'_>,
    list: &mut OutcomeList,
    writer: &mut W,
) -> Result<bool, TextFault> {
    let moment = Moment {
        mib: &applied.mib,
        version: None,
    };
    let mut hold = true;
    for each in follow(alloc, &applied.accepted, from, asked, list)? {
        let held = each.said.is_none();
        let said = match each.said {
            Some(said) => said,
            None => list.said(&each.expected, &Outcome::Holds, &moment)?,
        };
        list.write(said, held, writer)?;
        hold = are_both(hold, held);
    }
    Ok(hold)
}

/// Writes what is found of expectations, as is asked, and gives whether each holds.
fn write_all<W: Write>(
    alloc: Global,
    applied: &Applied,
    asked: &Asked<'_>,
    list: &mut OutcomeList,
    writer: &mut W,
) -> Result<bool, TextFault>
    ensures { IfOk result (IsSaidOfLast asked.now.from applied.now.mib.entities asked.now.least
        asked.now.lines.now) }
{
    match asked.from {
        None => write_last(alloc, &applied.mib, asked, list, writer),
        Some(from) => write_versions(alloc, applied, from, asked, list, writer),
    }
}

/// Writes what is found of expectations after a trace that left this: of each, in order, that it holds; or a frame that fails it, with what becomes of
/// that; or that it is void. It gives whether each holds, of every frame of at least so many bytes. Err where memory is refused, or a write fails; a
/// front is written then.
pub fn write_outcomes<W: Write>(
    alloc: Global,
    applied: &Applied,
    asked: &Asked<'_>,
    writer: &mut W,
) -> Result<bool, TextFault>
    ensures { IfOk result (IsSaidOfLast asked.now.from applied.now.mib.entities asked.now.least
        asked.now.lines.now) }
{
    let mut list = OutcomeList::new(alloc, asked.is_json);
    list.begin(writer)?;
    let hold = write_all(alloc, applied, asked, &mut list, writer)?;
    list.end(writer)?;
    Ok(hold)
}
