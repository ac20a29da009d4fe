//! What the messages of a trace leave.
ghost use Rattle.std.specs.Prelude.{◌≡◌};
ghost use Rattle.onu_scripts.specs.Looking.{LooksInto, port_in};

use explain_findings::findings;
use onu_cell::{BAD_LINE, NO_MEMORY, SMALL};
use onu_texts::put;
use script_trace::{Applied, ScriptFault, apply_script};
use std::alloc::Global;
use text_classes::Form;
use text_entities::write_mib_json;
use text_every_frame::{Frames, ports_of, write_classes};
use text_explanations::{Traced, write_rules_json};
use text_findings::{trace_findings, with_kinds, write_findings_json};
use text_writing::TextFault;

/// What is shown after a trace.
#[derive(Clone, Copy)]
enum Look {
    /// The managed entities.
    Mib,
    /// What is wrong with them, and with the messages.
    Findings,
    /// The table in force at this port.
    Rules(u16),
    /// The classes of these frames.
    Classes(Frames),
}

/// Writes what is wrong with the managed entities, and with the messages that led to them.
fn write_lint(
    alloc: Global,
    trace: &[u8],
    applied: &Applied,
    text: &mut Vec<u8>,
) -> Result<(), TextFault> {
    let mib = &applied.mib;
    let found = with_kinds(alloc, mib, &findings(alloc, mib)?)?;
    let of_trace = trace_findings(alloc, trace, None)?;
    write_findings_json(alloc, mib, &found, &of_trace, text)
}

/// Writes the classes of frames, each with one.
fn write_cover(
    alloc: Global,
    frames: Frames,
    applied: &Applied,
    text: &mut Vec<u8>,
) -> Result<(), TextFault> {
    let mib = &applied.mib;
    let ports = ports_of(alloc, mib, frames.port)?;
    write_classes(alloc, mib, &ports, frames.least, Form::Json, text)
}

/// Writes what is shown after a trace, as JSON.
fn write_look(
    alloc: Global,
    look: Look,
    trace: &[u8],
    applied: &Applied,
    text: &mut Vec<u8>,
) -> Result<(), TextFault> {
    let traced = Traced {
        mib: &applied.mib,
        accepted: &applied.accepted,
    };
    match look {
        Look::Mib => write_mib_json(alloc, &applied.mib, text),
        Look::Findings => write_lint(alloc, trace, applied, text),
        Look::Rules(port) => write_rules_json(alloc, &traced, port, text),
        Look::Classes(frames) => write_cover(alloc, frames, applied, text),
    }
}

/// Carries out the messages of a trace, and puts what is shown then to the front of a room.
fn look_into(
    alloc: Global,
    trace: &[u8],
    look: Look,
    room: &mut [u8],
    written: &mut usize,
    line: &mut u64,
) -> i32
    ensures { LooksInto trace.now room.old room.new result written.new line.new }
{
    *written = 0;
    *line = 0;
    let applied = match apply_script(alloc, trace, None) {
        Ok(applied) => applied,
        Err(ScriptFault::BadLine(first)) => {
            *line = first;
            return BAD_LINE;
        }
        Err(ScriptFault::NoMemory) => return NO_MEMORY,
    };
    let mut text = Vec::new(alloc);
    if write_look(alloc, look, trace, &applied, &mut text).is_err() {
        return NO_MEMORY;
    }
    if put(&text, room, written) { 0 } else { SMALL }
}

/// Carries out the messages of a trace from no instances on, and puts the managed entities that they leave to the front of a room, as
/// JSON: 0. `written` is how many bytes it has, also where the room is too small for it, [`SMALL`]. `line` is the first bad line,
/// [`BAD_LINE`], or 0. A message with a fault, one that is refused and a frame change nothing.
pub fn mib_into(
    alloc: Global,
    trace: &[u8],
    room: &mut [u8],
    written: &mut usize,
    line: &mut u64,
) -> i32
    ensures { LooksInto trace.now room.old room.new result written.new line.new }
{
    look_into(alloc, trace, Look::Mib, room, written, line)
}

/// Does as [`mib_into`] does with what is wrong with the managed entities, and with the messages.
pub fn lint_into(
    alloc: Global,
    trace: &[u8],
    room: &mut [u8],
    written: &mut usize,
    line: &mut u64,
) -> i32
    ensures { LooksInto trace.now room.old room.new result written.new line.new }
{
    look_into(alloc, trace, Look::Findings, room, written, line)
}

/// Does as [`mib_into`] does with the table in force at a port.
pub fn rules_into(
    alloc: Global,
    trace: &[u8],
    port: u16,
    room: &mut [u8],
    written: &mut usize,
    line: &mut u64,
) -> i32
    ensures { LooksInto trace.now room.old room.new result written.new line.new }
{
    look_into(alloc, trace, Look::Rules(port), room, written, line)
}

/// The frames that numbers of C stand for: those of a port; or, where that is no number of 16 bits, of each port that managed entities
/// name. They have at least so many bytes.
pub fn frames_of(port: u32, least: u16) -> Frames
    ensures port { result.port ≡ port_in port }
    ensures least { result.least ≡ least }
{
    Frames {
        port: u16::try_from(port).ok(),
        least,
    }
}

/// Does as [`mib_into`] does with the classes of frames, each with a frame that has it.
pub fn cover_into(
    alloc: Global,
    trace: &[u8],
    frames: Frames,
    room: &mut [u8],
    written: &mut usize,
    line: &mut u64,
) -> i32
    ensures { LooksInto trace.now room.old room.new result written.new line.new }
{
    look_into(alloc, trace, Look::Classes(frames), room, written, line)
}
