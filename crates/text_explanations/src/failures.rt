//! How many entries fail, and by what.
use explain::{Mismatch, Step, TagField};
use std::alloc::{AllocError, Global};

/// The fields by which an entry may fail, in the order in which they are looked at.
const FIELDS: [Mismatch; 8] = [
    Mismatch::TagCount,
    Mismatch::Outer(TagField::Priority),
    Mismatch::Outer(TagField::Vid),
    Mismatch::Outer(TagField::Tpid),
    Mismatch::Inner(TagField::Priority),
    Mismatch::Inner(TagField::Vid),
    Mismatch::Inner(TagField::Tpid),
    Mismatch::Ethertype,
];

/// How many entries fail by a field.
#[derive(Clone, Copy)]
pub(crate) struct Failures {
    pub(crate) field: Mismatch,
    pub(crate) entries: usize,
}

/// How many entries fail among steps, by each field by which one does: the most first, and of equally many in the order of the fields.
pub(crate) fn failures_of(alloc: Global, steps: &[Step<'_>]) -> Result<Vec<Failures>, AllocError> {
    let mut counted = Vec::new(alloc);
    for field in FIELDS {
        let entries = count_of(steps, field);
        counted.push(Failures { field, entries })?;
    }
    let mut sorted = Vec::new(alloc);
    for most in (1..=steps.len()).rev() {
        append_those(&mut sorted, &counted, most)?;
    }
    Ok(sorted)
}

/// How many entries fail by a field.
fn count_of(steps: &[Step<'_>], field: Mismatch) -> usize {
    let mut entries = 0usize;
    for step in steps {
        match step {
            Step::Failed { field: by, .. } if *by == field => entries = entries.saturating_add(1),
            _ => {}
        }
    }
    entries
}

/// Appends those of so many entries.
fn append_those(
    sorted: &mut Vec<Failures>,
    counted: &[Failures],
    entries: usize,
) -> Result<(), AllocError> {
    for failures in counted {
        if failures.entries == entries {
            sorted.push(*failures)?;
        }
    }
    Ok(())
}
