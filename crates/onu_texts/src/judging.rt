//! The judgement of a history.
ghost use Rattle.std.specs.Prelude.{◌≡◌, ◌<◌, ◌&&◌, ◌||◌, [], IfErr, IfOk, is_none, is_some, true};
ghost use Rattle.bench_judge.specs.Judged.{IsWhyUnjudged};
ghost use Rattle.onu_texts.specs.Judging.{IsFoundIn, IsSaidOf, JudgesBehind, JudgesInto, has_flag, may_be_unfinished, said_of, said_of_judgement, settings_in};
ghost use Rattle.onu_cell.specs.Numbers.{bad_flags};

use crate::room::put;
use bench_coverage::{Stretch, coverage};
use bench_judge::{
    Deviations, Findings, Followed, JudgeFault, JudgeSettings, Judgement, Nobody, follow, judge,
    judge_all,
};
use bench_start::read_start;
use omci_msg::Request;
use onu_cell::{BAD_LINE, BAD_START, FLAGS, NO_MEMORY, SMALL};
use script_trace::ScriptFault;
use std::alloc::{AllocError, Global};
use text_coverage::write_covered_json;
use text_deviations::accepted_before;
use text_judgements::{Told, write_deviations_json, write_judgement_json};
use text_writing::TextFault;

/// The flags that have a meaning are less.
const FLAGS_END: u32 = 64;

/// The place of the flag that each frame is judged by itself.
const UNORDERED: u32 = 1;

/// The place of the flag that a history may be unfinished.
const UNFINISHED: u32 = 4;

/// A judgement that is asked for.
#[derive(Clone, Copy)]
pub struct Asked<'a> {
    /// The script that the unit carried out before the history began; without a byte there is none.
    pub start: &'a [u8],
    pub history: &'a [u8],
    /// The settings, as [`judge_all_into`] says.
    pub flags: u32,
    /// How many deviations are listed at most; 0 for the first alone.
    pub most: u64,
    /// How many bytes a frame has at least whose class is listed as tried or not, behind an explained history; None where none is listed.
    pub coverage: Option<u16>,
}

/// Whether the flag at a place is set, counted from the lowest.
fn has_flag(flags: u32, place: u32) -> bool
    requires { place < 32 }
    ensures { result ≡ has_flag flags place }
{
    flags >> place & 1 == 1
}

/// The settings that flags stand for: 1, modelled classes only; 2, each frame is judged by itself; 4, strays may leave; 8, frames may be
/// padded; 32, a message may be repeated. With 16 a history may be unfinished.
#[tactic(auto, unfolding(crate::specs::Judging::settings_in))]
fn settings_in(flags: u32) -> Option<JudgeSettings>
    ensures { result ≡ settings_in flags }
{
    if flags >= FLAGS_END {
        return None;
    }
    Some(JudgeSettings {
        modelled: has_flag(flags, 0),
        unordered: has_flag(flags, 1),
        strays: has_flag(flags, 2),
        padded: has_flag(flags, 3),
        repeats: has_flag(flags, 5),
    })
}

/// Whether flags have no meaning, or none beside a coverage: that goes by least versions, which frames don't have that are judged each by itself.
fn is_refused(asked: &Asked<'_>) -> bool
    ensures { result ≡ is_none (settings_in asked.now.flags) || (is_some asked.now.coverage && has_flag asked.now.flags 1) }
{
    settings_in(asked.flags).is_none()
        || asked.coverage.is_some() && has_flag(asked.flags, UNORDERED)
}

/// What was found: that a history is explained, or its first deviation; or the first deviations of those that it has; or that it is explained,
/// with its coverage.
#[derive(Drop)]
enum Found<'h> {
    First(Judgement<'h>),
    Listed(Deviations<'h>),
    Covered(Judgement<'h>, Vec<Stretch>),
}

/// What is found of a history, where these requests were carried out before its first line.
fn find<'h>(
    alloc: Global,
    start: &[Request],
    history: &'h [u8],
    settings: &JudgeSettings,
    most: u64,
) -> Result<Found<'h>, JudgeFault>
    ensures found { IfOk result (IsFoundIn settings.now start.now history.now) }
    ensures fault { IfErr result (IsWhyUnjudged history.now) }
{
    if most == 0 {
        return match judge(alloc, start, history, settings) {
            Ok(judgement) => Ok(Found::First(judgement)),
            Err(fault) => Err(fault),
        };
    }
    match judge_all(alloc, start, history, settings, most as usize, &mut Nobody) {
        Ok(Findings::Explained(explanation)) => {
            Ok(Found::First(Judgement::Explained(explanation)))
        }
        Ok(Findings::Deviates(deviations)) => Ok(Found::Listed(deviations)),
        Err(fault) => Err(fault),
    }
}

/// What is found of a history, with the coverage of an explained one, in frames of so many bytes at least. Another one is judged once more where
/// its deviations are listed.
fn find_covered<'h>(
    alloc: Global,
    start: &[Request],
    asked: &Asked<'h>,
    settings: &JudgeSettings,
    least: u16,
) -> Result<Found<'h>, JudgeFault>
    ensures found { IfOk result (IsFoundIn settings.now start.now asked.now.history.now) }
    ensures fault { IfErr result (IsWhyUnjudged asked.now.history.now) }
{
    let Followed { judgement, course } = follow(
        alloc,
        start,
        asked.history,
        settings,
        &mut Nobody,
    )?;
    let Some(course) = course else {
        if asked.most > 0 {
            return find(alloc, start, asked.history, settings, asked.most);
        }
        return Ok(Found::First(judgement));
    };
    match coverage(alloc, course, usize::from(least)) {
        Ok(stretches) => Ok(Found::Covered(judgement, stretches)),
        Err(AllocError) => Err(JudgeFault::NoMemory),
    }
}

/// What is found of a history, as it is asked for.
fn find_asked<'h>(
    alloc: Global,
    start: &[Request],
    asked: &Asked<'h>,
    settings: &JudgeSettings,
) -> Result<Found<'h>, JudgeFault>
    ensures found { IfOk result (IsFoundIn settings.now start.now asked.now.history.now) }
    ensures fault { IfErr result (IsWhyUnjudged asked.now.history.now) }
{
    match asked.coverage {
        Some(least) => find_covered(alloc, start, asked, settings, least),
        None => find(alloc, start, asked.history, settings, asked.most),
    }
}

/// The number of a judgement, and the line of the deviation, or 0.
fn said_of_judgement(judgement: &Judgement<'_>, unfinished: bool) -> (i32, u64)
    ensures { result ≡ said_of_judgement unfinished judgement.now }
{
    match judgement {
        Judgement::Explained(explanation) if explanation.passes(unfinished) => (1, 0),
        Judgement::Explained(_) => (2, 0),
        Judgement::Deviates(deviation) => (0, deviation.line as u64),
    }
}

/// The number of a finding, and the line of the first deviation, or 0.
fn said_of(found: &Found<'_>, unfinished: bool) -> (i32, u64)
    ensures { result ≡ said_of unfinished found.now }
{
    match found {
        Found::First(judgement) | Found::Covered(judgement, _) => said_of_judgement(
            judgement, unfinished,
        ),
        Found::Listed(deviations) => match deviations.list.first() {
            Some(deviation) => (0, deviation.line as u64),
            None => (0, 0),
        },
    }
}

/// What is said of a history.
#[derive(Drop)]
struct Said {
    number: i32,
    /// The line of the first deviation, or 0.
    line: u64,
    /// What was found, as JSON.
    text: Vec<u8>,
}

/// What was found, as JSON.
fn text_of(
    alloc: Global,
    asked: &Asked<'_>,
    start: &[Request],
    found: &Found<'_>,
) -> Result<Vec<u8>, TextFault> {
    let told = Told {
        allow_unfinished: has_flag(asked.flags, UNFINISHED),
        start: if asked.start.is_empty() {
            None
        } else {
            Some(accepted_before(alloc, start)?)
        },
    };
    let mut text = Vec::new(alloc);
    match found {
        Found::First(judgement) => write_judgement_json(alloc, judgement, &told, &mut text)?,
        Found::Listed(deviations) => write_deviations_json(alloc, deviations, &told, &mut text)?,
        Found::Covered(judgement, stretches) => {
            write_covered_json(alloc, judgement, stretches, &told, &mut text)?
        }
    }
    Ok(text)
}

/// What is said of a history, where these requests were carried out before its first line.
fn judge_said(
    alloc: Global,
    asked: &Asked<'_>,
    start: &[Request],
    settings: &JudgeSettings,
) -> Result<Said, JudgeFault>
    ensures said { IfOk result (IsSaidOf (may_be_unfinished asked.now.flags) settings.now
        start.now asked.now.history.now) }
    ensures fault { IfErr result (IsWhyUnjudged asked.now.history.now) }
{
    let found = match find_asked(alloc, start, asked, settings) {
        Ok(found) => found,
        Err(fault) => return Err(fault),
    };
    let Ok(text) = text_of(alloc, asked, start, &found) else {
        return Err(JudgeFault::NoMemory);
    };
    let (number, line) = said_of(&found, has_flag(asked.flags, UNFINISHED));
    Ok(Said { number, line, text })
}

/// Does as [`judge_all_into`] does, where these requests were carried out before the first line of the history.
fn judge_upon(
    alloc: Global,
    asked: &Asked<'_>,
    start: &[Request],
    room: &mut [u8],
    written: &mut usize,
    line: &mut u64,
) -> i32
    ensures { JudgesInto start.now asked.now.flags asked.now.history.now room.old room.new result
        written.old written.new line.old line.new }
{
    let Some(settings) = settings_in(asked.flags) else {
        return FLAGS;
    };
    *written = 0;
    *line = 0;
    let said = match judge_said(alloc, asked, start, &settings) {
        Ok(said) => said,
        Err(JudgeFault::BadLine(first)) => {
            *line = first;
            return BAD_LINE;
        }
        Err(JudgeFault::NoMemory) => return NO_MEMORY,
    };
    *line = said.line;
    if put(&said.text, room, written) {
        said.number
    } else {
        SMALL
    }
}

/// Judges a history, and puts what is found to the front of a room, as JSON: 1, a right unit may have behaved so, up to a line that ends
/// the history, unless it may be unfinished, and something of it was judged; 2, a right unit may have behaved so, and one of these is
/// wanting; 0, it can't have. `written` is how many bytes the finding has, also where the room is too small for it, [`SMALL`]. `line` is the
/// line of the first deviation, or of the first bad line, [`BAD_LINE`], or of the first bad line of the script before it, [`BAD_START`], or 0.
///
/// The flags are 1, modelled classes only; 2, each frame is judged by itself; 4, strays may leave; 8, frames may be padded; 16, the history
/// may be unfinished; 32, a message may be repeated. Any other is refused, [`FLAGS`], and nothing else is said. So is 2 beside a coverage.
pub fn judge_all_into(
    alloc: Global,
    asked: &Asked<'_>,
    room: &mut [u8],
    written: &mut usize,
    line: &mut u64,
) -> i32
    ensures judges { JudgesBehind asked.now.start.now asked.now.flags asked.now.history.now room.old
        room.new result written.old written.new line.old line.new }
    ensures ordered { is_some asked.now.coverage ≡ true → has_flag asked.now.flags 1 ≡ true → result ≡ bad_flags }
{
    if is_refused(asked) {
        return FLAGS;
    }
    match read_start(alloc, asked.start) {
        Ok(start) => judge_upon(alloc, asked, &start, room, written, line),
        Err(ScriptFault::BadLine(first)) => {
            *written = 0;
            *line = first;
            BAD_START
        }
        Err(ScriptFault::NoMemory) => {
            *written = 0;
            *line = 0;
            NO_MEMORY
        }
    }
}

/// Does as [`judge_all_into`] does, without a script before the history, and looks for the first deviation alone.
pub fn judge_into(
    alloc: Global,
    history: &[u8],
    flags: u32,
    room: &mut [u8],
    written: &mut usize,
    line: &mut u64,
) -> i32
    ensures { JudgesInto [] flags history.now room.old room.new result written.old written.new
        line.old line.new }
{
    let asked = Asked {
        start: &[],
        history,
        flags,
        most: 0,
        coverage: None,
    };
    judge_upon(alloc, &asked, &[], room, written, line)
}
