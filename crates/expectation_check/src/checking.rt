//! Whether an expectation holds.
ghost use Rattle.std.specs.Prelude.{◌≡◌, IfOk, find};
ghost use Rattle.frame_meaning.specs.Meaning.{meaning};
ghost use Rattle.frame_rows.specs.Class.{ending_by};
ghost use Rattle.expectation_rows.specs.Decision.{is_failing};
ghost use Rattle.expectation_check.specs.Outcome.{IsOutcome};

use expectation_rows::{ADMITTED, ExpectationRows, is_failing};
use frame_classes::{ClassExample, Tear, torn_by_rows};
use frame_expectation::Expectation;
use frame_meaning::{Verdict, plain_walk};
use frame_rows::{Ending, FrameClass};
use mib_state::Mib;
use std::alloc::{AllocError, Global};

/// What becomes of an expectation.
#[derive(Debug, Drop)]
pub enum Outcome {
    /// It holds: some frame is admitted, and each that is meets it.
    Holds,
    /// It is void: no frame is admitted.
    Void,
    /// It fails: this frame is admitted and doesn't meet it. Its class says what becomes of it.
    Fails(ClassExample),
}

/// Whether an expectation holds for the frames of at least `least` bytes, by the state of these managed entities; or a frame that fails it. Every
/// list of bytes counts as a frame. Err only where memory is refused.
pub fn check(
    alloc: Global,
    mib: &Mib,
    expected: &Expectation,
    least: usize,
) -> Result<Outcome, AllocError>
    ensures { IfOk result (λ outcome. IsOutcome mib.now.entities expected.now least outcome) }
{
    let rows = ExpectationRows::of(alloc, mib, expected)?;
    let unlike = torn_by_rows(
        alloc,
        &rows.before,
        &rows.here,
        &rows.after,
        expected.port,
        least,
        ADMITTED,
    )?;
    if let Some(tear) = first_failing(unlike, expected) {
        return Ok(Outcome::Fails(example_of(mib, expected.port, tear)));
    }
    let admitted = torn_by_rows(
        alloc,
        &rows.after,
        &rows.here,
        &rows.after,
        expected.port,
        least,
        ADMITTED,
    )?;
    match admitted.is_empty() {
        true => Ok(Outcome::Void),
        false => Ok(Outcome::Holds),
    }
}

/// The first of some frames that fails.
fn first_failing(unlike: Vec<Tear>, expected: &Expectation) -> Option<Tear>
    ensures { result ≡ find (λ tear. is_failing expected.now tear.before.ending) unlike.items }
{
    unlike
        .into_iter()
        .find(|tear| is_failing(expected, tear.before.ending))
}

/// A frame with what becomes of it.
fn example_of(mib: &Mib, port: u16, tear: Tear) -> ClassExample
    ensures frame { result.frame.items ≡ tear.frame.items }
    ensures used { result.class.used ≡ tear.before.used }
    ensures ending { result.class.ending ≡ ending_by (meaning mib.now.entities port tear.frame.items) }
{
    let ending = match plain_walk(mib, port, &tear.frame) {
        Verdict::Forward { gem, .. } => Ending::Gem(gem),
        Verdict::Drop(reason) => Ending::Dropped(reason),
    };
    ClassExample {
        class: FrameClass {
            used: tear.before.used,
            ending,
        },
        frame: tear.frame,
    }
}
