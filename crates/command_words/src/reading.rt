//! What the words ask for.
ghost use Rattle.std.specs.Prelude.{◌≡◌, ◌≤◌, ℕ, Option, codes, IfErr, IfNone, IfOk, IfSome, Bool, false, true};
ghost use Rattle.clap.specs.Words.{first_of, found_of, rows_of, subcommand_rows_of};
ghost use Rattle.command_words.specs.Asked.{AreSides, AreTexts, IsAskedBy, IsCover, IsCoverage, IsDecode, IsDiff, IsEncode, IsExplain, IsForward, IsFrame, IsGraph, IsHitless, IsJudge, IsLate, IsLint, IsListed, IsLook, IsMib, IsNotBehind, HasNoList, IsOptionalNumber, IsRecord, IsReplay, IsRules, IsRun, IsTrace, IsTraces, asks_for_all, asks_for_late, is_true};
ghost use Rattle.command_words.specs.declared.words.Words.{Words};
ghost use Rattle.command_words.specs.declared.words.RecordWords.{RecordWords};
ghost use Rattle.command_words.specs.declared.words.RunWords.{RunWords};
ghost use Rattle.command_words.specs.declared.words.MibWords.{MibWords};
ghost use Rattle.command_words.specs.declared.words.RulesWords.{RulesWords};
ghost use Rattle.command_words.specs.declared.words.ExplainWords.{ExplainWords};
ghost use Rattle.command_words.specs.declared.words.LintWords.{LintWords};
ghost use Rattle.command_words.specs.declared.words.CoverWords.{CoverWords};
ghost use Rattle.command_words.specs.declared.words.DiffWords.{DiffWords};
ghost use Rattle.command_words.specs.declared.words.HitlessWords.{HitlessWords};
ghost use Rattle.command_words.specs.declared.words.GraphWords.{GraphWords};
ghost use Rattle.command_words.specs.declared.words.JudgeWords.{JudgeWords};
ghost use Rattle.command_words.specs.declared.words.EncodeWords.{EncodeWords};
ghost use Rattle.command_words.specs.declared.words.ForwardWords.{ForwardWords};
ghost use Rattle.command_words.specs.declared.words.FrameWords.{FrameWords};
ghost use Rattle.command_words.specs.declared.words.TraceWords.{TraceWords};
ghost use Rattle.command_words.specs.declared.words.TracesWords.{TracesWords};
ghost use Rattle.command_words.specs.Range.{AreInRange, IsFrameInRange, IsShort, IsInRange, IsLine};

use crate::expecting::read_expect;
use crate::migrating::read_migrate;
use crate::words::{
    CoverWords, DecodeWords, DiffWords, EncodeWords, ExplainWords, ForwardWords, FrameWords,
    GraphWords, HitlessWords, JudgeWords, LintWords, MibWords, RecordWords, ReplayWords,
    RulesWords, RunWords, TraceWords, TracesWords, Words,
};
use clap::ArgMatches;
use run_settings::{DEFAULT_BATCH, DEFAULT_LANES, RunSettings};
use std::alloc::{AllocError, Global};

/// What the words behind `replay` ask for.
fn read_replay<'a>(given: &ArgMatches<'a>) -> ReplayWords<'a>
    ensures { IsReplay (rows_of (found_of given.now)) result }
{
    ReplayWords {
        file: given.get_str("script"),
        json: given.get_flag("json"),
    }
}

/// What the options behind `run` ask for; None where one is missing, or no number in its range.
fn read_run<'a>(given: &ArgMatches<'a>) -> Option<RunWords<'a>>
    ensures asked { IfSome result (IsRun (rows_of (found_of given.now))) }
    ensures range { IfSome result (λ words. AreInRange words.settings × IsLine words.until) }
    ensures none { IfNone result ((words : RunWords)
        → IsRun (rows_of (found_of given.now)) words
        → AreInRange words.settings → IsLine words.until → ⊥) }
{
    let port = given.get_one("port")?;
    let some_lanes = read_short(given, "lanes")?;
    let some_batch = read_optional(given, "batch")?;
    let lanes = some_lanes.unwrap_or(DEFAULT_LANES);
    let batch = some_batch.unwrap_or(DEFAULT_BATCH);
    let after = given.get_flag("after");
    Some(RunWords {
        trace: given.get_str("trace")?,
        until: read_optional(given, "until")?,
        frames: given.get_str("frames")?,
        settings: RunSettings::new(port, lanes, batch, after)?,
        json: given.get_flag("json"),
    })
}

/// The number of an option that may be left out; None where it is given, and no number of 32 bits.
pub(crate) fn read_optional(given: &ArgMatches<'_>, name: &str) -> Option<Option<u32>>
    ensures asked { IfSome result (IsOptionalNumber name.now (rows_of (found_of given.now))) }
    ensures range { IfSome result IsLine }
    ensures none { IfNone result ((n : Option ℕ)
        → IsOptionalNumber name.now (rows_of (found_of given.now)) n → IsLine n → ⊥) }
{
    if given.get_str(name).is_none() {
        return Some(None);
    }
    Some(Some(given.get_one(name)?))
}

/// The number of an option that may be left out; None where it is given, and no number of 16 bits.
pub(crate) fn read_short(given: &ArgMatches<'_>, name: &str) -> Option<Option<u16>>
    ensures asked { IfSome result (IsOptionalNumber name.now (rows_of (found_of given.now))) }
    ensures range { IfSome result IsShort }
    ensures none { IfNone result ((n : Option ℕ)
        → IsOptionalNumber name.now (rows_of (found_of given.now)) n → IsShort n → ⊥) }
{
    if given.get_str(name).is_none() {
        return Some(None);
    }
    Some(Some(given.get_one(name)?))
}

/// The frame that `explain` is to explain; None where it is given neither by its bytes alone nor by a capture and its number there.
fn read_frame<'a>(given: &ArgMatches<'a>) -> Option<FrameWords<'a>>
    ensures asked { IfSome result (IsFrame (rows_of (found_of given.now))) }
    ensures range { IfSome result IsFrameInRange }
    ensures none { IfNone result ((words : FrameWords)
        → IsFrame (rows_of (found_of given.now)) words → IsFrameInRange words → ⊥) }
{
    if let Some(digits) = given.get_str("bytes") {
        if given.get_str("frames").is_some() || given.get_str("frame").is_some() {
            return None;
        }
        return Some(FrameWords::Bytes(digits));
    }
    Some(FrameWords::Captured {
        file: given.get_str("frames")?,
        number: given.get_one("frame")?,
    })
}

/// Which messages are to be applied; None where the file is missing, or the line's number has over 32 bits.
pub(crate) fn read_trace<'a>(given: &ArgMatches<'a>) -> Option<TraceWords<'a>>
    ensures asked { IfSome result (IsTrace (rows_of (found_of given.now))) }
    ensures range { IfSome result (λ words. IsLine words.until) }
    ensures none { IfNone result ((words : TraceWords)
        → IsTrace (rows_of (found_of given.now)) words → IsLine words.until → ⊥) }
{
    Some(TraceWords {
        file: given.get_str("trace")?,
        until: read_optional(given, "until")?,
        strict: given.get_flag("strict"),
    })
}

/// What the words behind `explain` ask for; None where one is missing or too much, the port has over 16 bits, or the line's number over 32.
fn read_explain<'a>(given: &ArgMatches<'a>) -> Option<ExplainWords<'a>>
    ensures asked { IfSome result (IsExplain (rows_of (found_of given.now))) }
    ensures range { IfSome result (λ words.
        (words.port ≤ 65535) × IsFrameInRange words.frame × IsLine words.trace.until) }
    ensures none { IfNone result ((words : ExplainWords)
        → IsExplain (rows_of (found_of given.now)) words
        → words.port ≤ 65535 → IsFrameInRange words.frame → IsLine words.trace.until → ⊥) }
{
    Some(ExplainWords {
        trace: read_trace(given)?,
        port: given.get_one("port")?,
        frame: read_frame(given)?,
        all: given.get_flag("all"),
        json: given.get_flag("json"),
    })
}

/// What the options behind `graph` ask for; None where one is missing, the port has over 16 bits, or the line's number over 32.
fn read_graph<'a>(given: &ArgMatches<'a>) -> Option<GraphWords<'a>>
    ensures asked { IfSome result (IsGraph (rows_of (found_of given.now))) }
    ensures range { IfSome result (λ words. IsShort words.port × IsLine words.trace.until) }
    ensures none { IfNone result ((words : GraphWords)
        → IsGraph (rows_of (found_of given.now)) words
        → IsShort words.port → IsLine words.trace.until → ⊥) }
{
    Some(GraphWords {
        trace: read_trace(given)?,
        port: read_short(given, "port")?,
    })
}

/// What the options behind `cover` ask for; None where one is missing, or no number in its range.
fn read_cover<'a>(given: &ArgMatches<'a>) -> Option<CoverWords<'a>>
    ensures asked { IfSome result (IsCover (rows_of (found_of given.now))) }
    ensures range { IfSome result (λ words.
        IsShort words.port × IsShort words.least × IsLine words.trace.until) }
    ensures none { IfNone result ((words : CoverWords)
        → IsCover (rows_of (found_of given.now)) words
        → IsShort words.port → IsShort words.least → IsLine words.trace.until → ⊥) }
{
    Some(CoverWords {
        trace: read_trace(given)?,
        port: read_short(given, "port")?,
        least: read_short(given, "least")?,
        script: given.get_flag("script"),
        json: given.get_flag("json"),
        out: given.get_str("out"),
    })
}

/// Whether a line isn't behind another, which is the last one where there is none.
pub(crate) fn is_not_behind(until: Option<u32>, from: u32) -> bool
    ensures yes { result ≡ true → IsNotBehind until from }
    ensures no { result ≡ false → IsNotBehind until from → ⊥ }
{
    match until {
        None => true,
        Some(until) => from <= until,
    }
}

/// Whether two configurations are named: by a trace of its own for the one after; or by a line of the only trace for the one before, which
/// isn't behind that for the one after.
pub(crate) fn are_sides(to: Option<&str>, from: Option<u32>, until: Option<u32>) -> bool
    ensures yes { result ≡ true → AreSides to.entry from until }
    ensures no { result ≡ false → AreSides to.entry from until → ⊥ }
{
    match (to, from) {
        (Some(_), _) => true,
        (None, None) => false,
        (None, Some(from)) => is_not_behind(until, from),
    }
}

/// What the options behind `diff` ask for; None where one is missing, or no number in its range, or they don't name two configurations.
fn read_diff<'a>(given: &ArgMatches<'a>) -> Option<DiffWords<'a>>
    ensures asked { IfSome result (IsDiff (rows_of (found_of given.now))) }
    ensures range { IfSome result (λ words. IsLine words.from
        × IsShort words.port × IsShort words.least × IsLine words.trace.until) }
    ensures none { IfNone result ((words : DiffWords)
        → IsDiff (rows_of (found_of given.now)) words
        → IsLine words.from
        → IsShort words.port → IsShort words.least → IsLine words.trace.until → ⊥) }
{
    let trace = read_trace(given)?;
    let from = read_optional(given, "from")?;
    let to = given.get_str("to");
    if !are_sides(to, from, trace.until) {
        return None;
    }
    Some(DiffWords {
        trace,
        from,
        to,
        port: read_short(given, "port")?,
        least: read_short(given, "least")?,
        json: given.get_flag("json"),
    })
}

/// What the options behind `hitless` ask for; None where one is missing, or no number in its range, or the change begins behind its end.
fn read_hitless<'a>(given: &ArgMatches<'a>) -> Option<HitlessWords<'a>>
    ensures asked { IfSome result (IsHitless (rows_of (found_of given.now))) }
    ensures range { IfSome result (λ words. (words.from ≤ 4294967295)
        × IsShort words.port × IsShort words.least × IsLine words.trace.until) }
    ensures none { IfNone result ((words : HitlessWords)
        → IsHitless (rows_of (found_of given.now)) words
        → words.from ≤ 4294967295
        → IsShort words.port → IsShort words.least → IsLine words.trace.until → ⊥) }
{
    let trace = read_trace(given)?;
    let from = given.get_one("from")?;
    if !is_not_behind(trace.until, from) {
        return None;
    }
    Some(HitlessWords {
        trace,
        from,
        port: read_short(given, "port")?,
        least: read_short(given, "least")?,
        json: given.get_flag("json"),
    })
}

/// What the options behind `forward` ask for; None where one is missing, or no number in its range.
fn read_forward<'a>(given: &ArgMatches<'a>) -> Option<ForwardWords<'a>>
    ensures asked { IfSome result (IsForward (rows_of (found_of given.now))) }
    ensures range { IfSome result (λ words. (words.port ≤ 65535) × IsLine words.trace.until) }
    ensures none { IfNone result ((words : ForwardWords)
        → IsForward (rows_of (found_of given.now)) words
        → words.port ≤ 65535 → IsLine words.trace.until → ⊥) }
{
    Some(ForwardWords {
        trace: read_trace(given)?,
        frames: given.get_str("frames")?,
        port: given.get_one("port")?,
        out: given.get_str("out"),
        dropped: given.get_str("dropped"),
        verdicts: given.get_str("verdicts"),
        json: given.get_flag("json"),
    })
}

/// Whether all deviations are asked for.
fn asks_for_all(given: &ArgMatches<'_>) -> bool
    ensures { result ≡ asks_for_all (rows_of (found_of given.now)) }
{
    match given.get_str("all") {
        Some(text) => text == "true",
        None => false,
    }
}

/// How many deviations are listed where all are asked for, and `--most` doesn't say it.
const MOST_LISTED: u32 = 100;

/// How many deviations are to be listed at most, Some(None) for the first alone; None where `--most` is given without `--all`, or its number
/// has over 32 bits.
fn read_listed(given: &ArgMatches<'_>) -> Option<Option<u32>>
    ensures asked { IfSome result (IsListed (rows_of (found_of given.now))) }
    ensures range { IfSome result IsLine }
    ensures none { IfNone result ((listed : Option ℕ)
        → IsListed (rows_of (found_of given.now)) listed → IsLine listed → ⊥) }
{
    let most = read_optional(given, "most")?;
    let all = asks_for_all(given);
    match most {
        None if all => Some(Some(MOST_LISTED)),
        Some(most) if all => Some(Some(most)),
        None => Some(None),
        Some(_) => None,
    }
}

/// Whether an option without a value is given.
fn is_asked(given: &ArgMatches<'_>, name: &str) -> bool
    ensures { result ≡ is_true (first_of name.now (rows_of (found_of given.now))) }
{
    match given.get_str(name) {
        Some(text) => text == "true",
        None => false,
    }
}

/// How many bytes a frame has at least whose class is listed as tried or not, 0 where `--least` doesn't say it, and Some(None) where none is
/// listed; None where `--least` is given without `--coverage`, or its number has over 16 bits, or `--coverage` with `--unordered`.
fn read_coverage(given: &ArgMatches<'_>) -> Option<Option<u16>>
    ensures asked { IfSome result (IsCoverage (rows_of (found_of given.now))) }
    ensures range { IfSome result IsShort }
    ensures none { IfNone result ((coverage : Option ℕ)
        → IsCoverage (rows_of (found_of given.now)) coverage → IsShort coverage → ⊥) }
{
    let least = read_short(given, "least")?;
    if is_asked(given, "coverage") {
        if is_asked(given, "unordered") {
            return None;
        }
        return Some(Some(least.unwrap_or(0)));
    }
    match least {
        Some(_) => None,
        None => Some(None),
    }
}

/// What the words behind `judge` ask for; None where `--most` is given without `--all`, or its number has over 32 bits, and where
/// [`read_coverage`] gives None.
fn read_judge<'a>(given: &ArgMatches<'a>) -> Option<JudgeWords<'a>>
    ensures asked { IfSome result (IsJudge (rows_of (found_of given.now))) }
    ensures range { IfSome result (λ words. IsLine words.listed × IsShort words.coverage) }
    ensures none { IfNone result ((words : JudgeWords)
        → IsJudge (rows_of (found_of given.now)) words
        → IsLine words.listed → IsShort words.coverage → ⊥) }
{
    let listed = read_listed(given)?;
    let coverage = read_coverage(given)?;
    Some(JudgeWords {
        file: given.get_str("history"),
        modelled: given.get_flag("modelled"),
        unordered: given.get_flag("unordered"),
        allow_strays: given.get_flag("allow-strays"),
        padded: given.get_flag("padded"),
        repeats: given.get_flag("repeats"),
        start: given.get_str("start"),
        listed,
        coverage,
        allow_unfinished: given.get_flag("allow-unfinished"),
        json: given.get_flag("json"),
    })
}

/// What the words behind `encode` ask for; None where the identifier has over 16 bits.
fn read_encode<'a>(given: &ArgMatches<'a>) -> Option<EncodeWords<'a>>
    ensures asked { IfSome result (IsEncode (rows_of (found_of given.now))) }
    ensures range { IfSome result (λ words. IsShort words.identifier) }
    ensures none { IfNone result ((words : EncodeWords)
        → IsEncode (rows_of (found_of given.now)) words → IsShort words.identifier → ⊥) }
{
    Some(EncodeWords {
        file: given.get_str("text"),
        identifier: read_short(given, "id")?,
    })
}

/// The texts of an option that may be given several times, in order.
fn texts_of<'a>(
    alloc: Global,
    given: &ArgMatches<'a>,
    name: &str,
) -> Result<Vec<&'a str>, AllocError>
    ensures { IfOk result (λ texts. AreTexts name.now (rows_of (found_of given.now)) texts.items) }
{
    match given.get_strs(name) {
        Some(texts) => texts.to_vec(alloc),
        None => Ok(Vec::new(alloc)),
    }
}

/// What the words behind `decode` ask for.
fn read_decode<'a>(alloc: Global, given: &ArgMatches<'a>) -> Result<DecodeWords<'a>, AllocError>
    ensures { IfOk result (IsDecode (rows_of (found_of given.now))) }
{
    Ok(DecodeWords {
        files: texts_of(alloc, given, "script")?,
        source: given.get_flag("source"),
        json: given.get_flag("json"),
    })
}

/// Which messages of which files are to be applied; None where no file is given, or the line's number has over 32 bits.
fn read_traces<'a>(
    alloc: Global,
    given: &ArgMatches<'a>,
) -> Result<Option<TracesWords<'a>>, AllocError>
    ensures asked { IfOk result (λ read. IfSome read (IsTraces (rows_of (found_of given.now)))) }
    ensures range { IfOk result (λ read. IfSome read (λ words. IsLine words.until)) }
    ensures none { IfOk result (λ read. IfNone read ((words : TracesWords)
        → IsTraces (rows_of (found_of given.now)) words → IsLine words.until → ⊥)) }
{
    let Some(until) = read_optional(given, "until") else {
        return Ok(None);
    };
    let files = texts_of(alloc, given, "trace")?;
    if files.is_empty() {
        return Ok(None);
    }
    Ok(Some(TracesWords {
        files,
        until,
        strict: given.get_flag("strict"),
    }))
}

/// What the options behind `mib` ask for; None where no trace is given, or the line's number has over 32 bits.
fn read_mib<'a>(alloc: Global, given: &ArgMatches<'a>) -> Result<Option<MibWords<'a>>, AllocError>
    ensures asked { IfOk result (λ read. IfSome read (IsMib (rows_of (found_of given.now)))) }
    ensures range { IfOk result (λ read. IfSome read (λ words. IsLine words.traces.until)) }
    ensures none { IfOk result (λ read. IfNone read ((words : MibWords)
        → IsMib (rows_of (found_of given.now)) words → IsLine words.traces.until → ⊥)) }
{
    let Some(traces) = read_traces(alloc, given)? else {
        return Ok(None);
    };
    Ok(Some(MibWords {
        traces,
        json: given.get_flag("json"),
    }))
}

/// What the options behind `rules` ask for; None where no trace is given, the port has over 16 bits, or the line's number over 32.
fn read_rules<'a>(
    alloc: Global,
    given: &ArgMatches<'a>,
) -> Result<Option<RulesWords<'a>>, AllocError>
    ensures asked { IfOk result (λ read. IfSome read (IsRules (rows_of (found_of given.now)))) }
    ensures range { IfOk result (λ read. IfSome read (λ words.
        (words.port ≤ 65535) × IsLine words.traces.until)) }
    ensures none { IfOk result (λ read. IfNone read ((words : RulesWords)
        → IsRules (rows_of (found_of given.now)) words
        → words.port ≤ 65535 → IsLine words.traces.until → ⊥)) }
{
    let Some(port) = given.get_one("port") else {
        return Ok(None);
    };
    let Some(traces) = read_traces(alloc, given)? else {
        return Ok(None);
    };
    Ok(Some(RulesWords {
        traces,
        port,
        json: given.get_flag("json"),
    }))
}

/// What the options behind `lint` ask for; None where no trace is given, or the line's number has over 32 bits.
fn read_lint<'a>(alloc: Global, given: &ArgMatches<'a>) -> Result<Option<LintWords<'a>>, AllocError>
    ensures asked { IfOk result (λ read. IfSome read (IsLint (rows_of (found_of given.now)))) }
    ensures range { IfOk result (λ read. IfSome read (λ words. IsLine words.traces.until)) }
    ensures none { IfOk result (λ read. IfNone read ((words : LintWords)
        → IsLint (rows_of (found_of given.now)) words → IsLine words.traces.until → ⊥)) }
{
    let Some(traces) = read_traces(alloc, given)? else {
        return Ok(None);
    };
    Ok(Some(LintWords {
        traces,
        ignored: texts_of(alloc, given, "ignore")?,
        fail_on: given.get_str("fail-on"),
        json: given.get_flag("json"),
    }))
}

/// Whether frames are said to be on their way as captures began.
fn asks_for_late(given: &ArgMatches<'_>) -> bool
    ensures { result ≡ asks_for_late (rows_of (found_of given.now)) }
{
    match given.get_str("late") {
        Some(text) => text == "true",
        None => false,
    }
}

/// Whether frames were on their way as captures began; None where that is so and it isn't said when a frame is lost.
fn read_late(given: &ArgMatches<'_>, lost: Option<u32>) -> Option<bool>
    ensures asked { IfSome result (IsLate (rows_of (found_of given.now)) lost) }
    ensures none { IfNone result ((late : Bool)
        → IsLate (rows_of (found_of given.now)) lost late → ⊥) }
{
    let late = asks_for_late(given);
    match lost {
        None if late => None,
        _ => Some(late),
    }
}

/// What the options behind `record` ask for; None where a time is no number of 32 bits, or `--late` is given without `--lost`.
fn read_record<'a>(
    alloc: Global,
    given: &ArgMatches<'a>,
) -> Result<Option<RecordWords<'a>>, AllocError>
    ensures asked { IfOk result (λ read. IfSome read (IsRecord (rows_of (found_of given.now)))) }
    ensures range { IfOk result (λ read. IfSome read (λ words.
        IsLine words.wait × IsLine words.lost)) }
    ensures none { IfOk result (λ read. IfNone read ((words : RecordWords)
        → IsRecord (rows_of (found_of given.now)) words
        → IsLine words.wait → IsLine words.lost → ⊥)) }
{
    let Some(wait) = read_optional(given, "wait") else {
        return Ok(None);
    };
    let Some(lost) = read_optional(given, "lost") else {
        return Ok(None);
    };
    let Some(late) = read_late(given, lost) else {
        return Ok(None);
    };
    Ok(Some(RecordWords {
        omci: texts_of(alloc, given, "omci")?,
        into: texts_of(alloc, given, "into")?,
        out_of: texts_of(alloc, given, "out-of")?,
        tpids: texts_of(alloc, given, "tpid")?,
        wait,
        lost,
        late,
        early: given.get_flag("early"),
        skews: texts_of(alloc, given, "skew")?,
        fcs: given.get_flag("fcs"),
        padded: given.get_flag("padded"),
        sources: given.get_flag("sources"),
        out: given.get_str("out"),
        strict: given.get_flag("strict"),
    }))
}

/// What a parse asks for that shows where a port's frames go; None where it is nothing of that, a value is missing, or no number in
/// its range.
fn read_look<'a>(matches: &ArgMatches<'a>) -> Option<Words<'a>>
    ensures asked { IfSome result (IsAskedBy (subcommand_rows_of matches.now)) }
    ensures range { IfSome result IsInRange }
    ensures none { IfNone result ((words : Words) → IsAskedBy (subcommand_rows_of matches.now) words
        → IsInRange words → IsLook words → ⊥) }
{
    if let Some(given) = matches.subcommand_matches("explain") {
        return Some(Words::Explain(read_explain(given)?));
    }
    if let Some(given) = matches.subcommand_matches("cover") {
        return Some(Words::Cover(read_cover(given)?));
    }
    if let Some(given) = matches.subcommand_matches("diff") {
        return Some(Words::Diff(read_diff(given)?));
    }
    if let Some(given) = matches.subcommand_matches("hitless") {
        return Some(Words::Hitless(read_hitless(given)?));
    }
    if let Some(given) = matches.subcommand_matches("expect") {
        return Some(Words::Expect(read_expect(given)?));
    }
    if let Some(given) = matches.subcommand_matches("migrate") {
        return Some(Words::Migrate(read_migrate(given)?));
    }
    let given = matches.subcommand_matches("graph")?;
    Some(Words::Graph(read_graph(given)?))
}

/// What a parse asks for that names nothing several times; None where it is nothing of that, a value is missing, or no number in its
/// range.
fn read_others<'a>(matches: &ArgMatches<'a>) -> Option<Words<'a>>
    ensures asked { IfSome result (IsAskedBy (subcommand_rows_of matches.now)) }
    ensures range { IfSome result IsInRange }
    ensures none { IfNone result ((words : Words) → IsAskedBy (subcommand_rows_of matches.now) words
        → IsInRange words → HasNoList words → ⊥) }
{
    if let Some(given) = matches.subcommand_matches("replay") {
        return Some(Words::Replay(read_replay(given)));
    }
    if let Some(given) = matches.subcommand_matches("encode") {
        return Some(Words::Encode(read_encode(given)?));
    }
    if let Some(given) = matches.subcommand_matches("run") {
        return Some(Words::Run(read_run(given)?));
    }
    if let Some(given) = matches.subcommand_matches("judge") {
        return Some(Words::Judge(read_judge(given)?));
    }
    if let Some(given) = matches.subcommand_matches("forward") {
        return Some(Words::Forward(read_forward(given)?));
    }
    read_look(matches)
}

/// What a parse asks for; None where a value is missing, or no number in its range.
pub fn read_matches<'a>(
    alloc: Global,
    matches: &ArgMatches<'a>,
) -> Result<Option<Words<'a>>, AllocError>
    ensures asked { IfOk result (λ read. IfSome read (IsAskedBy (subcommand_rows_of matches.now))) }
    ensures range { IfOk result (λ read. IfSome read IsInRange) }
    ensures none { IfOk result (λ read. IfNone read ((words : Words)
        → IsAskedBy (subcommand_rows_of matches.now) words → IsInRange words → ⊥)) }
{
    if let Some(given) = matches.subcommand_matches("decode") {
        return Ok(Some(Words::Decode(read_decode(alloc, given)?)));
    }
    if let Some(given) = matches.subcommand_matches("mib") {
        return match read_mib(alloc, given)? {
            Some(words) => Ok(Some(Words::Mib(words))),
            None => Ok(None),
        };
    }
    if let Some(given) = matches.subcommand_matches("rules") {
        return match read_rules(alloc, given)? {
            Some(words) => Ok(Some(Words::Rules(words))),
            None => Ok(None),
        };
    }
    if let Some(given) = matches.subcommand_matches("lint") {
        return match read_lint(alloc, given)? {
            Some(words) => Ok(Some(Words::Lint(words))),
            None => Ok(None),
        };
    }
    let Some(given) = matches.subcommand_matches("record") else {
        return Ok(read_others(matches));
    };
    match read_record(alloc, given)? {
        Some(words) => Ok(Some(Words::Record(words))),
        None => Ok(None),
    }
}

/// Whether a word is hexadecimal digits, as the bytes of a frame are.
fn is_digits(word: &str) -> bool {
    word.as_bytes().iter().all(|byte| byte.is_ascii_hexdigit())
}

/// Whether the only word of `explain` is a frame, so that the trace is missing.
fn has_no_trace(given: &ArgMatches<'_>) -> bool {
    given.get_str("bytes").is_none()
        && given.get_str("frames").is_none()
        && given.get_str("trace").is_some_and(is_digits)
}

/// What is said of a line that stands behind the one that ends.
const BEHIND: &str = "the line of --from is behind that of --until";

/// What is said of the words of `diff` or `migrate` that name no two configurations.
fn sides_complaint(given: &ArgMatches<'_>) -> &'static str {
    if given.get_str("from").is_some() {
        BEHIND
    } else {
        "give --from or --to too"
    }
}

/// What is said of the words of `judge` of which one asks for another that isn't there, or for none that is.
fn judge_complaint(given: &ArgMatches<'_>) -> &'static str {
    if given.get_str("most").is_some() && !is_asked(given, "all") {
        return "give --all too, beside --most";
    }
    if given.get_str("least").is_some() && !is_asked(given, "coverage") {
        return "give --coverage too, beside --least";
    }
    "the argument '--coverage' cannot be used with '--unordered'"
}

/// What is said where clap takes words that ask for nothing, of all but `explain`.
fn others_complaint(matches: &ArgMatches<'_>) -> &'static str {
    if let Some(given) = matches.subcommand_matches("diff") {
        return sides_complaint(given);
    }
    if let Some(given) = matches.subcommand_matches("migrate") {
        return sides_complaint(given);
    }
    if matches.subcommand_matches("hitless").is_some()
        || matches.subcommand_matches("expect").is_some()
    {
        return BEHIND;
    }
    if let Some(given) = matches.subcommand_matches("judge") {
        return judge_complaint(given);
    }
    if matches.subcommand_matches("record").is_some() {
        return "give --lost too, beside --late";
    }
    "a value is missing or out of its range"
}

/// What is said where clap takes words that ask for nothing.
pub fn complaint(matches: &ArgMatches<'_>) -> &'static str {
    match matches.subcommand_matches("explain") {
        Some(given) if has_no_trace(given) => "give the trace too, in front of the frame",
        Some(_) => "give the frame by its bytes alone, or by --frames and --frame",
        None => others_complaint(matches),
    }
}
