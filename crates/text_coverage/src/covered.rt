//! What a judgement found, with the coverage of an explained history.
use crate::lines::write_coverage;
use crate::object::write_coverage_json;
use bench_coverage::Stretch;
use bench_judge::Judgement;
use std::alloc::Global;
use std::io::{BufWriter, Write};
use text_deviations::Observed;
use text_judgements::{Told, write_explanation_json, write_judgement, write_judgement_json};
use text_writing::TextFault;

/// Writes what is found of a history, and behind it its coverage.
pub fn write_covered<W: Write>(
    alloc: Global,
    judgement: &Judgement<'_>,
    stretches: &[Stretch],
    told: &Told,
    observed: &Observed<'_>,
    writer: &mut W,
) -> Result<(), TextFault> {
    let Ok(mut gathered) = BufWriter::new(alloc, writer) else {
        return Err(TextFault::NoMemory);
    };
    write_judgement(alloc, judgement, told, observed, &mut gathered)?;
    write_coverage(alloc, stretches, &mut gathered)?;
    gathered.flush().map_err(|_| TextFault::Write)
}

/// Writes what is found of a history as JSON (RFC 8259), as [`write_judgement_json`] does, and of an explained one the coverage as its last
/// member, `coverage`: an object for each stretch, on a line of its own.
pub fn write_covered_json<W: Write>(
    alloc: Global,
    judgement: &Judgement<'_>,
    stretches: &[Stretch],
    told: &Told,
    writer: &mut W,
) -> Result<(), TextFault> {
    match judgement {
        Judgement::Explained(explanation) => {
            let Ok(mut gathered) = BufWriter::new(alloc, writer) else {
                return Err(TextFault::NoMemory);
            };
            write_explanation_json(alloc, explanation, told, ",", &mut gathered)?;
            write_coverage_json(alloc, stretches, &mut gathered)?;
            gathered.flush().map_err(|_| TextFault::Write)
        }
        Judgement::Deviates(_) => write_judgement_json(alloc, judgement, told, writer),
    }
}
