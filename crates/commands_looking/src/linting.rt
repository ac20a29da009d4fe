//! What is wrong with a configuration, and its picture.
use crate::looking::marked;
use command_words::{GraphWords, LintWords};
use commands_files::{
    Linted, OverFile, apply_linted, apply_trace, over_files, report_text, report_value, trace_of,
    without_memory,
};
use explain_findings::findings;
use std::alloc::Global;
use std::io::Write;
use std::rt::Files;
use text_findings::{
    EntityFinding, Kind, Severity, TraceFinding, trace_findings, with_kinds, write_findings,
    write_findings_json,
};
use text_graph::write_graph;
use text_writing::{Status, TextFault};

/// Which findings are left out, and from which severity on they give a status.
#[derive(Drop)]
struct Choice {
    ignored: Vec<Kind>,
    least: Severity,
}

/// What is found that isn't left out.
#[derive(Drop)]
struct Found {
    of_entities: Vec<EntityFinding>,
    of_trace: Vec<TraceFinding>,
}

/// The choice that the words ask for, or the status where one is no kind or no severity.
fn read_choice<E: Write>(
    alloc: Global,
    words: &LintWords<'_>,
    err: &mut E,
) -> Result<Choice, Status> {
    let mut ignored = Vec::new(alloc);
    for word in &words.ignored {
        let Some(kind) = Kind::of_word(word) else {
            let expected = "a kind that onuctl help findings lists";
            return Err(report_value(word, "--ignore <KIND>", expected, err));
        };
        if ignored.push(kind).is_err() {
            return Err(without_memory(err));
        }
    }
    let word = words.fail_on.unwrap_or(Severity::Error.word());
    match Severity::of_word(word) {
        Some(least) => Ok(Choice { ignored, least }),
        None => {
            let expected = "error, warning or note";
            Err(report_value(word, "--fail-on <SEVERITY>", expected, err))
        }
    }
}

impl Found {
    /// What is found after a trace, and of its messages.
    fn of(
        alloc: Global,
        linted: &Linted,
        until: Option<u64>,
        choice: &Choice,
    ) -> Result<Self, TextFault> {
        let mib = &linted.applied.mib;
        let mut of_entities = with_kinds(alloc, mib, &findings(alloc, mib)?)?;
        of_entities.retain(|each| !each.kind.is_among(&choice.ignored));
        let mut of_trace = trace_findings(alloc, &linted.script, until)?;
        of_trace.retain(|each| !each.kind().is_among(&choice.ignored));
        Ok(Found {
            of_entities,
            of_trace,
        })
    }

    /// Whether one is of this severity, or a worse one.
    fn reaches(&self, least: Severity) -> bool {
        self.of_entities
            .iter()
            .any(|each| each.kind.severity.reaches(least))
            || self
                .of_trace
                .iter()
                .any(|each| each.kind().severity.reaches(least))
    }
}

/// Writes what is found after a trace, and gives whether that is severe enough for a status.
fn write_lint<O: Write>(
    alloc: Global,
    words: &LintWords<'_>,
    linted: &Linted,
    choice: &Choice,
    out: &mut O,
) -> Result<bool, TextFault> {
    let mib = &linted.applied.mib;
    let until = words.traces.until.map(u64::from);
    let found = Found::of(alloc, linted, until, choice)?;
    let (of_entities, of_trace) = (&found.of_entities, &found.of_trace);
    if words.json {
        write_findings_json(alloc, mib, of_entities, of_trace, out)?;
    } else {
        write_findings(alloc, mib, of_entities, of_trace, out)?;
    }
    Ok(found.reaches(choice.least))
}

/// What `lint` does with each of its traces.
#[derive(Drop)]
struct Linting<'w, R> {
    rt: &'w R,
    words: &'w LintWords<'w>,
    choice: &'w Choice,
}

impl<R: Files + Alloc<A = Global>> OverFile for Linting<'_, R> {
    fn of_file<O: Write, E: Write>(&self, name: &str, out: &mut O, err: &mut E) -> Status {
        let (rt, words) = (self.rt, self.words);
        let linted = match apply_linted(rt, &trace_of(&words.traces, name), err) {
            Ok(linted) => linted,
            Err(status) => return status,
        };
        match write_lint(rt.alloc(), words, &linted, self.choice, out) {
            Ok(true) => Status::Found,
            Ok(false) => Status::Done,
            Err(fault) => report_text(Err(fault), err),
        }
    }
}

/// Writes the findings about the managed entities after each trace, and about its messages, to `out`, and why not all to `err`. It gives
/// the status.
pub fn lint<R: Files + Alloc<A = Global>, O: Write, E: Write>(
    rt: &R,
    words: &LintWords<'_>,
    out: &mut O,
    err: &mut E,
) -> Status {
    let alloc = rt.alloc();
    let choice = match read_choice(alloc, words, err) {
        Ok(choice) => choice,
        Err(status) => return status,
    };
    let work = Linting {
        rt,
        words,
        choice: &choice,
    };
    over_files(
        alloc,
        &work,
        &words.traces.files,
        marked(words.json),
        out,
        err,
    )
}

/// Writes the managed entities after a trace as a graph to `out`, and why not all to `err`. It gives the status.
pub fn draw_graph<R: Files + Alloc<A = Global>, O: Write, E: Write>(
    rt: &R,
    words: &GraphWords,
    out: &mut O,
    err: &mut E,
) -> Status {
    match apply_trace(rt, &words.trace, err) {
        Ok(applied) => {
            let outcome = write_graph(rt.alloc(), &applied.mib, words.port, out);
            report_text(outcome, err)
        }
        Err(status) => status,
    }
}
