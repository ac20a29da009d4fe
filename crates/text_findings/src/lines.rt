//! Findings as text.
use crate::entity_finding::EntityFinding;
use crate::subject::subject_of;
use crate::words::FoundWords;
use mib_state::Mib;
use std::alloc::Global;
use std::io::Write;
use text_trace_findings::TraceFinding;
use text_writing::{TextFault, write_whole};

/// Writes a line for each finding, `SEVERITY CLASS NUMBER KIND: WORDS`, and then one for each finding of a trace, `SEVERITY line
/// NUMBER KIND: WORDS`, or `SEVERITY trace KIND: WORDS` of a whole one, both in the order in which they come.
pub fn write_findings<W: Write>(
    alloc: Global,
    mib: &Mib,
    findings: &[EntityFinding],
    trace: &[TraceFinding],
    writer: &mut W,
) -> Result<(), TextFault> {
    for each in findings {
        write_finding(alloc, mib, each, writer)?;
    }
    for found in trace {
        write_traced(alloc, found, writer)?;
    }
    Ok(())
}

/// Writes the line of a finding.
fn write_finding<W: Write>(
    alloc: Global,
    mib: &Mib,
    each: &EntityFinding,
    writer: &mut W,
) -> Result<(), TextFault> {
    let (found, kind) = (each.found, each.kind);
    let subject = subject_of(mib, found);
    let (severity, word) = (kind.severity, kind.word);
    let words = FoundWords { mib, found };
    let text = format!(in alloc; "{severity} {subject} {word}: {words}\n")?;
    write_whole(writer, text.as_bytes())?;
    Ok(())
}

/// Writes the line of a finding of a trace.
fn write_traced<W: Write>(
    alloc: Global,
    found: &TraceFinding,
    writer: &mut W,
) -> Result<(), TextFault> {
    let (kind, fault) = (found.kind(), found.fault);
    let (severity, word) = (kind.severity, kind.word);
    let text = match found.line {
        Some(line) => format!(in alloc; "{severity} line {line} {word}: {fault}\n")?,
        None => format!(in alloc; "{severity} trace {word}: {fault}\n")?,
    };
    write_whole(writer, text.as_bytes())?;
    Ok(())
}
