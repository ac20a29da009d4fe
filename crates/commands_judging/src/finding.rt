//! What is found of a history, as the words ask for it.
use bench_coverage::{Stretch, coverage};
use bench_judge::{
    Deviations, Findings, Followed, JudgeFault, JudgeSettings, Judgement, Watch, follow,
    follow_pieces, judge_all, judge_all_pieces, judge_pieces, judge_watched,
};
use command_words::JudgeWords;
use commands_files::History;
use omci_msg::Request;
use std::alloc::{AllocError, Global};
use std::io::Write;
use text_coverage::{write_covered, write_covered_json};
use text_deviations::{Observed, accepted_before};
use text_encode::without_mark;
use text_judgements::{
    Told, write_deviations, write_deviations_json, write_judgement, write_judgement_json,
};
use text_writing::{Status, TextFault};

/// A history, and the requests that were carried out before it.
#[derive(Drop)]
pub(crate) struct Begun {
    pub(crate) start: Vec<Request>,
    pub(crate) history: History,
}

/// What is found: that a history is explained, or its first deviation; or all of them; or that it is explained, with its coverage.
#[derive(Drop)]
pub(crate) enum Found<'h> {
    First(Judgement<'h>),
    All(Deviations<'h>),
    Covered(Judgement<'h>, Vec<Stretch>),
}

/// What a history is judged by.
fn settings_of(words: &JudgeWords) -> JudgeSettings {
    JudgeSettings {
        modelled: words.modelled,
        unordered: words.unordered,
        strays: words.allow_strays,
        padded: words.padded,
        repeats: words.repeats,
    }
}

/// What is found of a history, up to its first deviation.
fn find_first<'h, W: Watch>(
    alloc: Global,
    settings: &JudgeSettings,
    begun: &'h Begun,
    watch: &mut W,
) -> Result<Judgement<'h>, JudgeFault> {
    let start = begun.start.as_slice();
    match &begun.history {
        History::Whole(text) => judge_watched(alloc, start, without_mark(text), settings, watch),
        History::InPieces(pieces) => judge_pieces(alloc, start, pieces, settings, watch),
    }
}

/// The same, with so many deviations at most.
fn find_all<'h, W: Watch>(
    alloc: Global,
    settings: &JudgeSettings,
    begun: &'h Begun,
    most: usize,
    watch: &mut W,
) -> Result<Found<'h>, JudgeFault> {
    let start = begun.start.as_slice();
    let findings = match &begun.history {
        History::Whole(text) => {
            judge_all(alloc, start, without_mark(text), settings, most, watch)?
        }
        History::InPieces(pieces) => {
            judge_all_pieces(alloc, start, pieces, settings, most, watch)?
        }
    };
    Ok(match findings {
        Findings::Explained(explanation) => Found::First(Judgement::Explained(explanation)),
        Findings::Deviates(deviations) => Found::All(deviations),
    })
}

/// What is found of a history up to its first deviation, and where it is explained the course of its frames.
fn follow_begun<'h, W: Watch>(
    alloc: Global,
    settings: &JudgeSettings,
    begun: &'h Begun,
    watch: &mut W,
) -> Result<Followed<'h>, JudgeFault> {
    let start = begun.start.as_slice();
    match &begun.history {
        History::Whole(text) => follow(alloc, start, without_mark(text), settings, watch),
        History::InPieces(pieces) => follow_pieces(alloc, start, pieces, settings, watch),
    }
}

/// What is found of a history, of which all deviations are listed where the words ask for them.
fn find_uncovered<'h, W: Watch>(
    alloc: Global,
    words: &JudgeWords,
    begun: &'h Begun,
    watch: &mut W,
) -> Result<Found<'h>, JudgeFault> {
    let settings = settings_of(words);
    match words.listed {
        Some(most) => find_all(alloc, &settings, begun, most as usize, watch),
        None => Ok(Found::First(find_first(alloc, &settings, begun, watch)?)),
    }
}

/// What is found of a history, with the coverage of an explained one, in frames of so many bytes at least. Of another one it is judged once
/// more where all deviations are listed.
fn find_covered<'h, W: Watch>(
    alloc: Global,
    words: &JudgeWords,
    begun: &'h Begun,
    least: u16,
    watch: &mut W,
) -> Result<Found<'h>, JudgeFault> {
    let Followed { judgement, course } = follow_begun(alloc, &settings_of(words), begun, watch)?;
    let Some(course) = course else {
        return match words.listed {
            Some(_) => find_uncovered(alloc, words, begun, watch),
            None => Ok(Found::First(judgement)),
        };
    };
    match coverage(alloc, course, usize::from(least)) {
        Ok(stretches) => Ok(Found::Covered(judgement, stretches)),
        Err(AllocError) => Err(JudgeFault::NoMemory),
    }
}

/// What is found of a history, as the words ask for it.
pub(crate) fn find<'h, W: Watch>(
    alloc: Global,
    words: &JudgeWords,
    begun: &'h Begun,
    watch: &mut W,
) -> Result<Found<'h>, JudgeFault> {
    match words.coverage {
        Some(least) => find_covered(alloc, words, begun, least, watch),
        None => find_uncovered(alloc, words, begun, watch),
    }
}

/// The status of what is found of a history, which may be unfinished where that is allowed.
pub(crate) fn status_of(found: &Found<'_>, allow_unfinished: bool) -> Status {
    match found {
        Found::First(Judgement::Explained(explanation))
        | Found::Covered(Judgement::Explained(explanation), _) => {
            if explanation.passes(allow_unfinished) {
                Status::Done
            } else {
                Status::Undecided
            }
        }
        Found::First(Judgement::Deviates(_))
        | Found::Covered(Judgement::Deviates(_), _)
        | Found::All(_) => Status::Found,
    }
}

/// The text of a history in parts, each of whole lines.
fn parts_of(alloc: Global, history: &History) -> Result<Vec<&[u8]>, AllocError> {
    match history {
        History::Whole(text) => {
            let mut parts = Vec::new(alloc);
            parts.push(without_mark(text))?;
            Ok(parts)
        }
        History::InPieces(pieces) => pieces.parts(alloc),
    }
}

/// What a judgement is told with, by the words.
fn told_of(alloc: Global, words: &JudgeWords, start: &[Request]) -> Result<Told, AllocError> {
    let start = match words.start {
        Some(_) => Some(accepted_before(alloc, start)?),
        None => None,
    };
    Ok(Told {
        allow_unfinished: words.allow_unfinished,
        start,
    })
}

/// Writes what is found of a history as JSON.
fn write_json<O: Write>(
    alloc: Global,
    found: &Found<'_>,
    told: &Told,
    out: &mut O,
) -> Result<(), TextFault> {
    match found {
        Found::First(judgement) => write_judgement_json(alloc, judgement, told, out),
        Found::All(deviations) => write_deviations_json(alloc, deviations, told, out),
        Found::Covered(judgement, stretches) => {
            write_covered_json(alloc, judgement, stretches, told, out)
        }
    }
}

/// Writes what is found of a history, as text or as JSON.
pub(crate) fn write_found<O: Write>(
    alloc: Global,
    words: &JudgeWords,
    begun: &Begun,
    found: &Found<'_>,
    out: &mut O,
) -> Result<(), TextFault> {
    let told = told_of(alloc, words, &begun.start)?;
    if words.json {
        return write_json(alloc, found, &told, out);
    }
    let parts = parts_of(alloc, &begun.history)?;
    let observed = Observed {
        parts: &parts,
        start: &begun.start,
        repeats: words.repeats,
        modelled: words.modelled,
    };
    match found {
        Found::First(judgement) => write_judgement(alloc, judgement, &told, &observed, out),
        Found::All(deviations) => write_deviations(alloc, deviations, &told, &observed, out),
        Found::Covered(judgement, stretches) => {
            write_covered(alloc, judgement, stretches, &told, &observed, out)
        }
    }
}
