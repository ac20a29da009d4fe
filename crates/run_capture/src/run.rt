//! A run: a capture forwarded while a trace is applied, and its lines written.
ghost use Rattle.std.specs.Prelude.{◌≡◌, ◌<◌, ◌^◌, None, IfOk, IfErr, OnOk, OnErr, if◌then◌else◌, is_some, length, unwrap_or};
ghost use Rattle.std.specs.Io.KnownBytes.{Appends};
ghost use Rattle.text_writing.specs.Written.{AppendsPart};
ghost use Rattle.mib_state.specs.After.{accepted};
ghost use Rattle.run_lanes.specs.Frames.{frames_in, IsCutFor};
ghost use Rattle.run_lanes.specs.Run.{SomeRunPasses};
ghost use Rattle.run_settings.specs.Settings.{CanRun};
ghost use Rattle.script_trace.specs.Trace.{requests_of};
ghost use Rattle.run_capture.specs.Source.{cut_frames_in};
ghost use Rattle.run_capture.specs.Outcome.{
  frames_fault,
  held_fault,
  IsOutputOf,
  IsOutputOver,
  IsWhyNone,
  Runs,
  RunsFrames,
  SumsPass,
};
ghost use Rattle.run_capture.specs.declared.fault.RunFault.TheVariants.{NoMemory};
ghost use Rattle.run_capture.specs.declared.source.FrameSource.TheVariants.{InPieces, Listed, Whole};

use crate::fault::RunFault;
use crate::lines::lines_of;
use crate::progress::{Progress, Watched, show};
use crate::source::{FrameSource, listing};
use capture::{Pcap, list_frames};
use capture_pieces::Pieces;
use omci_msg::Request;
use run_lanes::{LaneFault, RunFrames, RunSource, run_lanes_over};
use run_settings::RunSettings;
use script_trace::{ScriptFault, read_requests};
use std::alloc::Global;
use std::io::Write;
use std::rt::Clock;
use std::sync::Wait;
use std::thread::{Threads, join};
use text_writing::write_whole;

/// What a run of frames writes, or why it writes nothing.
fn output_over<R: Threads + Wait + Sync>(
    rt: &R,
    alloc: Global,
    requests: &[Request],
    frames: RunFrames<'_, '_>,
    settings: &RunSettings,
    progress: &Progress,
) -> Result<Vec<u8>, RunFault>
    requires settings { CanRun settings.now }
    requires few { length (frames_in frames) < 2 ^ 32 }
    requires size { IsCutFor settings.now.batch frames }
    ensures output { IfOk result (λ out. IsOutputOver (accepted requests.now)
        (frames_in frames.entry) settings.now out.items) }
    ensures fault { IfErr result (IsWhyNone None (SomeRunPasses (accepted requests.now) settings.now
        (frames_in frames.entry))) }
{
    let count = frames.count();
    progress.begin(count);
    let gate = Watched {
        progress,
        lanes: settings.lanes,
    };
    let input = RunSource {
        requests,
        frames,
        settings,
    };
    let ran = match run_lanes_over(rt, alloc, &input, 1, &gate) {
        Ok(ran) => ran,
        Err(LaneFault::NoMemory) => return Err(RunFault::NoMemory),
        Err(LaneFault::Refused) => return Err(RunFault::Refused),
        Err(LaneFault::CountFull) => return Err(RunFault::CountFull),
    };
    let Ok(out) = lines_of(alloc, &ran, settings.batch as usize, count) else {
        return Err(RunFault::NoMemory);
    };
    Ok(out)
}

/// What a run of frames writes as they are held, or why it writes nothing. Of a file in pieces no list of all frames is made.
fn output_of_frames<R: Threads + Wait + Sync>(
    rt: &R,
    alloc: Global,
    requests: &[Request],
    frames: FrameSource<'_>,
    settings: &RunSettings,
    progress: &Progress,
) -> Result<Vec<u8>, RunFault>
    requires { CanRun settings.now }
    ensures fits { IfOk result (λ out. frames_fault frames.entry ≡ None) }
    ensures output { IfOk result (λ out.
        IsOutputOf (accepted requests.now) frames.entry settings.now out.items) }
    ensures fault { IfErr result (IsWhyNone (frames_fault frames.entry)
        (SumsPass (accepted requests.now) frames.entry settings.now)) }
{
    match frames {
        FrameSource::Whole(file) => match list_frames(alloc, file) {
            Ok(list) => {
                let frames = RunFrames::Listed(&list);
                output_over(rt, alloc, requests, frames, settings, progress)
            }
            Err(fault) => Err(listing(fault)),
        },
        FrameSource::InPieces(pieces) => match pieces.cut(alloc, settings.batch) {
            Ok(batches) => {
                let frames = RunFrames::Cut(&batches);
                output_over(rt, alloc, requests, frames, settings, progress)
            }
            Err(fault) => Err(listing(fault)),
        },
        // the batches are counted in 32 bits
        FrameSource::Listed(list) if list.len() > u32::MAX as usize => Err(RunFault::Refused),
        FrameSource::Listed(list) => {
            let frames = RunFrames::Listed(list);
            output_over(rt, alloc, requests, frames, settings, progress)
        }
        FrameSource::Unlisted => Err(RunFault::Unlisted),
    }
}

/// Why nothing is written where the requests of a trace find no memory: the frames have a fault, or else that.
fn without_memory(alloc: Global, frames: FrameSource<'_>) -> RunFault
    ensures { result ≡ unwrap_or (frames_fault frames.entry) NoMemory }
{
    match frames {
        FrameSource::Whole(file) => match Pcap::open(file) {
            Ok(_) => RunFault::NoMemory,
            Err(fault) => RunFault::Capture(fault),
        },
        FrameSource::InPieces(pieces) => match pieces.cut(alloc, u32::MAX) {
            Ok(_) => RunFault::NoMemory,
            Err(fault) => listing(fault),
        },
        FrameSource::Listed(_) => RunFault::NoMemory,
        FrameSource::Unlisted => RunFault::Unlisted,
    }
}

/// What a run of frames writes while a trace is applied, or why it writes nothing.
fn output_held<R: Threads + Wait + Sync>(
    rt: &R,
    alloc: Global,
    trace: &[u8],
    frames: FrameSource<'_>,
    settings: &RunSettings,
    progress: &Progress,
) -> Result<Vec<u8>, RunFault>
    ensures fits { IfOk result (λ out.
        held_fault trace.now frames.entry settings.now ≡ None) }
    ensures output { IfOk result (λ out.
        IsOutputOf (accepted (requests_of trace.now)) frames.entry settings.now out.items) }
    ensures fault { IfErr result (IsWhyNone (held_fault trace.now frames.entry settings.now)
        (SumsPass (accepted (requests_of trace.now)) frames.entry settings.now)) }
{
    if !settings.can_run() {
        return Err(RunFault::Settings);
    }
    let requests = match read_requests(alloc, trace) {
        Ok(requests) => requests,
        Err(ScriptFault::BadLine(line)) => return Err(RunFault::BadTrace(line)),
        Err(ScriptFault::NoMemory) => return Err(without_memory(alloc, frames)),
    };
    output_of_frames(rt, alloc, &requests, frames, settings, progress)
}

/// Writes the lines whole.
fn write_lines<W: Write>(writer: &mut W, out: &[u8]) -> Result<(), RunFault>
    ensures ok { OnOk result (Appends (W.contents writer.old) (W.contents writer.new) out.now) }
    ensures fault { IfErr result (λ fault. fault ≡ RunFault.Write) }
    ensures err { OnErr result
        (AppendsPart (W.contents writer.old) (W.contents writer.new) out.now) }
{
    match write_whole(writer, out) {
        Ok(()) => Ok(()),
        Err(_) => Err(RunFault::Write),
    }
}

/// What a call makes, while a line on `err` shows how far it is.
fn make_shown<
    R: Threads + Clock + Sync,
    E: Write + Send,
    F: FnOnce(&Progress) -> Result<Vec<u8>, RunFault>,
>(rt: &R, settings: &RunSettings, err: &mut E, make: F) -> Result<Vec<u8>, RunFault>
    requires { F.IsAlwaysCallable make }
    ensures { (progress : _) × F.post make progress result }
{
    let progress = Progress::new();
    let (_, made) = join(
        rt,
        || show(rt, &progress, settings, err),
        || {
            let made = make(&progress);
            progress.end();
            made
        },
    );
    made
}

/// Forwards the frames of a capture file, in batches spread over lanes, while the requests of a trace are applied, and writes what
/// came of it as lines: `accepted A`, how many requests were accepted; for each batch `batch K version V frames N`, how many of
/// them it was forwarded after; then of all verdicts `frames N`, `bytes N`, `drop R N` for each reason and `gem G N` for each GEM
/// port that has frames. Each number is decimal.
///
/// The faults come in the order in which [`RunFault`] lists them, but that the lanes and the lines may each find no memory. All
/// memory is taken before the first write, so nothing is written on any fault but [`RunFault::Write`]; then it is a front of the
/// lines. Nothing is tried again.
pub fn run_over<R: Threads + Wait + Sync, W: Write>(
    rt: &R,
    alloc: Global,
    trace: &[u8],
    frames: &[u8],
    settings: &RunSettings,
    writer: &mut W,
) -> Result<(), RunFault>
    ensures { Runs trace.now frames.now settings.now result (W.contents writer.old)
        (W.contents writer.new) }
{
    let frames = FrameSource::Whole(frames);
    let out = match output_held(rt, alloc, trace, frames, settings, &Progress::new()) {
        Ok(out) => out,
        Err(fault) => return Err(fault),
    };
    write_lines(writer, &out)
}

/// What a run of a file's frames writes, or why it writes nothing, while a line on `err` shows how far it is.
fn whole_shown<R: Threads + Wait + Clock + Alloc<A = Global> + Sync, E: Write + Send>(
    rt: &R,
    trace: &[u8],
    file: &[u8],
    settings: &RunSettings,
    err: &mut E,
) -> Result<Vec<u8>, RunFault>
    ensures fits { IfOk result (λ out. held_fault trace.now (Whole file.entry) settings.now ≡ None) }
    ensures output { IfOk result (λ out.
        IsOutputOf (accepted (requests_of trace.now)) (Whole file.entry) settings.now out.items) }
    ensures fault { IfErr result (IsWhyNone (held_fault trace.now (Whole file.entry) settings.now)
        (SumsPass (accepted (requests_of trace.now)) (Whole file.entry) settings.now)) }
{
    make_shown(
        rt,
        settings,
        err,
        |progress: &Progress| -> Result<Vec<u8>, RunFault>
            ensures fits { IfOk result (λ out.
                held_fault trace.entry.now (Whole file.entry) settings.entry.now ≡ None) }
            ensures output { IfOk result (λ out. IsOutputOf (accepted (requests_of trace.entry.now))
                (Whole file.entry) settings.entry.now out.items) }
            ensures fault { IfErr result (IsWhyNone
                (held_fault trace.entry.now (Whole file.entry) settings.entry.now)
                (SumsPass (accepted (requests_of trace.entry.now)) (Whole file.entry) settings.entry.now)) }
        {
            let frames = FrameSource::Whole(file);
            output_held(rt, rt.alloc(), trace, frames, settings, progress)
        },
    )
}

/// The same of a file that is held in pieces.
fn pieces_shown<R: Threads + Wait + Clock + Alloc<A = Global> + Sync, E: Write + Send>(
    rt: &R,
    trace: &[u8],
    pieces: &Pieces,
    settings: &RunSettings,
    err: &mut E,
) -> Result<Vec<u8>, RunFault>
    ensures fits { IfOk result (λ out. held_fault trace.now (InPieces pieces.entry) settings.now ≡ None) }
    ensures output { IfOk result (λ out.
        IsOutputOf (accepted (requests_of trace.now)) (InPieces pieces.entry) settings.now out.items) }
    ensures fault { IfErr result (IsWhyNone (held_fault trace.now (InPieces pieces.entry) settings.now)
        (SumsPass (accepted (requests_of trace.now)) (InPieces pieces.entry) settings.now)) }
{
    make_shown(
        rt,
        settings,
        err,
        |progress: &Progress| -> Result<Vec<u8>, RunFault>
            ensures fits { IfOk result (λ out.
                held_fault trace.entry.now (InPieces pieces.entry) settings.entry.now ≡ None) }
            ensures output { IfOk result (λ out. IsOutputOf (accepted (requests_of trace.entry.now))
                (InPieces pieces.entry) settings.entry.now out.items) }
            ensures fault { IfErr result (IsWhyNone
                (held_fault trace.entry.now (InPieces pieces.entry) settings.entry.now)
                (SumsPass (accepted (requests_of trace.entry.now)) (InPieces pieces.entry) settings.entry.now)) }
        {
            let frames = FrameSource::InPieces(pieces);
            output_held(rt, rt.alloc(), trace, frames, settings, progress)
        },
    )
}

/// The same of frames that are listed.
fn list_shown<R: Threads + Wait + Clock + Alloc<A = Global> + Sync, E: Write + Send>(
    rt: &R,
    trace: &[u8],
    list: &[&[u8]],
    settings: &RunSettings,
    err: &mut E,
) -> Result<Vec<u8>, RunFault>
    ensures fits { IfOk result (λ out. held_fault trace.now (Listed list.entry) settings.now ≡ None) }
    ensures output { IfOk result (λ out.
        IsOutputOf (accepted (requests_of trace.now)) (Listed list.entry) settings.now out.items) }
    ensures fault { IfErr result (IsWhyNone (held_fault trace.now (Listed list.entry) settings.now)
        (SumsPass (accepted (requests_of trace.now)) (Listed list.entry) settings.now)) }
{
    make_shown(
        rt,
        settings,
        err,
        |progress: &Progress| -> Result<Vec<u8>, RunFault>
            ensures fits { IfOk result (λ out.
                held_fault trace.entry.now (Listed list.entry) settings.entry.now ≡ None) }
            ensures output { IfOk result (λ out. IsOutputOf (accepted (requests_of trace.entry.now))
                (Listed list.entry) settings.entry.now out.items) }
            ensures fault { IfErr result (IsWhyNone
                (held_fault trace.entry.now (Listed list.entry) settings.entry.now)
                (SumsPass (accepted (requests_of trace.entry.now)) (Listed list.entry) settings.entry.now)) }
        {
            let frames = FrameSource::Listed(list);
            output_held(rt, rt.alloc(), trace, frames, settings, progress)
        },
    )
}

/// The same of frames as they are held.
fn output_shown<R: Threads + Wait + Clock + Alloc<A = Global> + Sync, E: Write + Send>(
    rt: &R,
    trace: &[u8],
    frames: FrameSource<'_>,
    settings: &RunSettings,
    err: &mut E,
) -> Result<Vec<u8>, RunFault>
    ensures fits { IfOk result (λ out. held_fault trace.now frames.entry settings.now ≡ None) }
    ensures output { IfOk result (λ out.
        IsOutputOf (accepted (requests_of trace.now)) frames.entry settings.now out.items) }
    ensures fault { IfErr result (IsWhyNone (held_fault trace.now frames.entry settings.now)
        (SumsPass (accepted (requests_of trace.now)) frames.entry settings.now)) }
{
    match frames {
        FrameSource::Whole(file) => whole_shown(rt, trace, file, settings, err),
        FrameSource::InPieces(pieces) => pieces_shown(rt, trace, pieces, settings, err),
        FrameSource::Listed(list) => list_shown(rt, trace, list, settings, err),
        FrameSource::Unlisted => {
            output_held(rt, rt.alloc(), trace, frames, settings, &Progress::new())
        }
    }
}

/// Forwards frames, as they are held, while the requests of a trace are applied, and writes the lines that [`run_over`] writes. With the
/// file of a capture it does the same as [`run_over`].
///
/// The faults come in the order in which [`RunFault`] lists them, but that the lanes and the lines may each find no memory.
/// [`RunFault::Capture`] comes of no list, and [`RunFault::Unlisted`] only where the caller has none. A list of 2^32 frames or more is
/// [`RunFault::Refused`].
///
/// Where `progress` is given, which is to be a terminal, a line on it says meanwhile how many frames were forwarded and how many
/// messages are published, or with `after` that they are being published and then how many frames were forwarded. It is written anew
/// about twice a second, and is gone before the lines are written. A write to it that fails is passed over. The answer is then how many
/// frames were cut when they were taken, or None of a list; without `progress` they aren't counted, and it is None.
pub fn run_frames<R: Threads + Wait + Clock + Alloc<A = Global> + Sync, W: Write, E: Write + Send>(
    rt: &R,
    trace: &[u8],
    frames: FrameSource<'_>,
    settings: &RunSettings,
    writer: &mut W,
    progress: Option<&mut E>,
) -> Result<Option<u64>, RunFault>
    ensures ended { RunsFrames trace.now frames.entry settings.now result
        (W.contents writer.old) (W.contents writer.new) }
    ensures cut { IfOk result (λ cut.
        cut ≡ (if is_some progress.entry then cut_frames_in frames.entry else None)) }
{
    let is_shown = progress.is_some();
    let made = match progress {
        Some(err) => output_shown(rt, trace, frames, settings, err),
        None => output_held(rt, rt.alloc(), trace, frames, settings, &Progress::new()),
    };
    let out = match made {
        Ok(out) => out,
        Err(fault) => return Err(fault),
    };
    match write_lines(writer, &out) {
        Ok(()) if is_shown => Ok(frames.cut_frames()),
        Ok(()) => Ok(None),
        Err(fault) => Err(fault),
    }
}
