//! The calls that a C program makes, proved. Each calls one of a library below, and promises what that one does.
//!
//! `library/onu.c` stands between C and these calls: it answers null pointers, and passes on what is none. `include/onu.h` says what each
//! call does.
#![tactic(auto)]

ghost use Rattle.std.specs.Prelude.{◌≡◌, [], None, true};
ghost use Rattle.onu_calls.specs.Forwarding.{StandsIn, verdict_in, verdict_number, verdict_room};
ghost use Rattle.onu_calls.specs.Messaging.{answer_in, answer_number, answer_room, left_in};
ghost use Rattle.onu_cell.specs.Opening.{Opens, closing_number};
ghost use Rattle.onu_scripts.specs.Comparing.{DifferencesInto, MomentsInto, TearsInto};
ghost use Rattle.onu_scripts.specs.Expecting.{ExpectsInto, line_in};
ghost use Rattle.onu_scripts.specs.Looking.{LooksInto, port_in};
ghost use Rattle.onu_scripts.specs.Making.{MakesInto};
ghost use Rattle.onu_cell.specs.Numbers.{bad_flags};
ghost use Rattle.onu_texts.specs.Judging.{JudgesBehind, JudgesInto, has_flag};
ghost use Rattle.onu_texts.specs.Replaying.{ReplaysInto};
ghost use Rattle.onu_texts.specs.Room.{ExplainsInto};

use onu_calls::CVerdict;
use onu_cell::Cell;
use onu_scripts::{Expectations, Moments, Sides, frames_of, from_line};
use onu_texts::Asked;
use std::alloc::Global;

/// Puts a unit without any instance into an empty cell.
#[unsafe(no_mangle)]
pub extern "C" fn onu_proved_open(alloc: Global, cell: &mut Cell) -> i32
    ensures { Opens cell.old.handle.held result cell.new.handle.held }
{
    onu_cell::open(cell, alloc)
}

/// Gives the memory of the unit in a cell back.
#[unsafe(no_mangle)]
pub extern "C" fn onu_proved_close(alloc: Global, cell: &mut Cell) -> i32
    ensures number { result ≡ closing_number cell.old.handle.held }
    ensures empty { cell.new.handle.held ≡ None }
{
    onu_cell::close(cell, alloc)
}

/// Carries out the request that a message asks, and puts the reply into the room.
#[unsafe(no_mangle)]
pub extern "C" fn onu_proved_message(
    alloc: Global,
    cell: &mut Cell,
    bytes: &[u8],
    reply: &mut [u8; 48],
) -> i32
    ensures number { result ≡ answer_number (answer_in cell.old.handle.held bytes.now) }
    ensures room { reply.new ≡ answer_room reply.old (answer_in cell.old.handle.held bytes.now) }
    ensures after { cell.new.handle.held ≡ left_in cell.old.handle.held bytes.now }
{
    onu_calls::message(cell, alloc, bytes, reply)
}

/// Forwards a frame that comes in at a port.
#[unsafe(no_mangle)]
pub extern "C" fn onu_proved_forward(
    alloc: Global,
    cell: &mut Cell,
    port: u16,
    frame: &[u8],
    verdict: &mut CVerdict,
) -> i32
    ensures number { result ≡ verdict_number (verdict_in cell.old.handle.held port frame.now) }
    ensures verdict { verdict.new
        ≡ verdict_room verdict.old frame.now (verdict_in cell.old.handle.held port frame.now) }
    ensures stands { StandsIn frame.now verdict.new.rest
        (verdict_in cell.old.handle.held port frame.now) }
    ensures same { cell.new.handle.held ≡ cell.old.handle.held }
{
    onu_calls::forward(cell, alloc, port, frame, verdict)
}

/// Explains what becomes of a frame that comes in at a port, as JSON in a room.
#[unsafe(no_mangle)]
pub extern "C" fn onu_proved_explain(
    alloc: Global,
    cell: &mut Cell,
    port: u16,
    frame: &[u8],
    room: &mut [u8],
    written: &mut usize,
) -> i32
    ensures same { cell.new.handle.held ≡ cell.old.handle.held }
    ensures put { ExplainsInto cell.old.handle.held room.old room.new result written.old
        written.new }
{
    onu_texts::explain_into(cell, alloc, port, frame, room, written)
}

/// Answers a script from a unit without any instance on, in a room.
#[unsafe(no_mangle)]
pub extern "C" fn onu_proved_replay(
    alloc: Global,
    script: &[u8],
    room: &mut [u8],
    written: &mut usize,
    line: &mut u64,
) -> i32
    ensures { ReplaysInto script.now room.old room.new result written.new line.new }
{
    onu_texts::replay_into(alloc, script, room, written, line)
}

/// Judges a history, as JSON in a room.
#[unsafe(no_mangle)]
pub extern "C" fn onu_proved_judge(
    alloc: Global,
    history: &[u8],
    flags: u32,
    room: &mut [u8],
    written: &mut usize,
    line: &mut u64,
) -> i32
    ensures { JudgesInto [] flags history.now room.old room.new result written.old written.new
        line.old line.new }
{
    onu_texts::judge_into(alloc, history, flags, room, written, line)
}

/// Judges a history behind a script, as JSON in a room, with as many of its deviations as are asked for.
#[unsafe(no_mangle)]
pub extern "C" fn onu_proved_judge_all(
    alloc: Global,
    start: &[u8],
    history: &[u8],
    flags: u32,
    most: u64,
    room: &mut [u8],
    written: &mut usize,
    line: &mut u64,
) -> i32
    ensures { JudgesBehind start.now flags history.now room.old room.new result written.old
        written.new line.old line.new }
{
    let asked = Asked {
        start,
        history,
        flags,
        most,
        coverage: None,
    };
    onu_texts::judge_all_into(alloc, &asked, room, written, line)
}

/// Judges a history behind a script, as JSON in a room, with its coverage in frames of at least so many bytes where it is explained.
#[unsafe(no_mangle)]
pub extern "C" fn onu_proved_judge_coverage(
    alloc: Global,
    script: &[u8],
    history: &[u8],
    flags: u32,
    most: u64,
    least: u16,
    room: &mut [u8],
    written: &mut usize,
    line: &mut u64,
) -> i32
    ensures judges { JudgesBehind script.now flags history.now room.old room.new result written.old
        written.new line.old line.new }
    ensures ordered { has_flag flags 1 ≡ true → result ≡ bad_flags }
{
    let asked = Asked {
        start: script,
        history,
        flags,
        most,
        coverage: Some(least),
    };
    onu_texts::judge_all_into(alloc, &asked, room, written, line)
}

/// Makes a script of a text in words, in a room.
#[unsafe(no_mangle)]
pub extern "C" fn onu_proved_encode(
    alloc: Global,
    words: &[u8],
    first_identifier: u16,
    room: &mut [u8],
    written: &mut usize,
) -> i32
    ensures { MakesInto room.old room.new result written.new }
{
    onu_scripts::encode_into(alloc, words, first_identifier, room, written)
}

/// Decodes a script or a dialogue, as JSON in a room.
#[unsafe(no_mangle)]
pub extern "C" fn onu_proved_decode(
    alloc: Global,
    script: &[u8],
    room: &mut [u8],
    written: &mut usize,
) -> i32
    ensures { MakesInto room.old room.new result written.new }
{
    onu_scripts::decode_into(alloc, script, room, written)
}

/// Shows the managed entities that the messages of a trace leave, as JSON in a room.
#[unsafe(no_mangle)]
pub extern "C" fn onu_proved_mib(
    alloc: Global,
    trace: &[u8],
    room: &mut [u8],
    written: &mut usize,
    line: &mut u64,
) -> i32
    ensures { LooksInto trace.now room.old room.new result written.new line.new }
{
    onu_scripts::mib_into(alloc, trace, room, written, line)
}

/// Shows what is wrong with them, and with the messages, as JSON in a room.
#[unsafe(no_mangle)]
pub extern "C" fn onu_proved_lint(
    alloc: Global,
    trace: &[u8],
    room: &mut [u8],
    written: &mut usize,
    line: &mut u64,
) -> i32
    ensures { LooksInto trace.now room.old room.new result written.new line.new }
{
    onu_scripts::lint_into(alloc, trace, room, written, line)
}

/// Shows the table in force at a port after a trace, as JSON in a room.
#[unsafe(no_mangle)]
pub extern "C" fn onu_proved_rules(
    alloc: Global,
    trace: &[u8],
    port: u16,
    room: &mut [u8],
    written: &mut usize,
    line: &mut u64,
) -> i32
    ensures { LooksInto trace.now room.old room.new result written.new line.new }
{
    onu_scripts::rules_into(alloc, trace, port, room, written, line)
}

/// Lists the classes of the frames that come in at a port after a trace, or at each port that is named, as JSON in a room.
#[unsafe(no_mangle)]
pub extern "C" fn onu_proved_cover(
    alloc: Global,
    trace: &[u8],
    port: u32,
    least: u16,
    room: &mut [u8],
    written: &mut usize,
    line: &mut u64,
) -> i32
    ensures { LooksInto trace.now room.old room.new result written.new line.new }
{
    onu_scripts::cover_into(alloc, trace, frames_of(port, least), room, written, line)
}

/// Finds which frames are treated differently by what a trace leads to behind a line, and another behind another, as JSON in a room.
#[unsafe(no_mangle)]
pub extern "C" fn onu_proved_differences(
    alloc: Global,
    before: &[u8],
    from: u64,
    after: &[u8],
    until: u64,
    port: u32,
    least: u16,
    room: &mut [u8],
    written: &mut usize,
    line: &mut u64,
) -> i32
    ensures { DifferencesInto before.now from after.now until (port_in port) least room.old
        room.new result written.new line.new }
{
    let sides = Sides {
        before,
        from,
        after,
        until,
        frames: frames_of(port, least),
    };
    onu_scripts::differences_into(alloc, &sides, room, written, line)
}

/// Finds which frames are treated differently by what a trace leads to behind two of its lines, as JSON in a room.
#[unsafe(no_mangle)]
pub extern "C" fn onu_proved_moments(
    alloc: Global,
    trace: &[u8],
    from: u64,
    until: u64,
    port: u32,
    least: u16,
    room: &mut [u8],
    written: &mut usize,
    line: &mut u64,
) -> i32
    ensures { MomentsInto trace.now from until (port_in port) least room.old room.new result
        written.old written.new line.old line.new }
{
    let change = Moments {
        trace,
        from,
        until,
        frames: frames_of(port, least),
    };
    onu_scripts::moments_into(alloc, &change, room, written, line)
}

/// Finds for which frames a moment of a change is torn, as JSON in a room.
#[unsafe(no_mangle)]
pub extern "C" fn onu_proved_hitless(
    alloc: Global,
    trace: &[u8],
    from: u64,
    until: u64,
    port: u32,
    least: u16,
    room: &mut [u8],
    written: &mut usize,
    line: &mut u64,
) -> i32
    ensures { TearsInto trace.now from until room.old room.new result written.old written.new
        line.old line.new }
{
    let change = Moments {
        trace,
        from,
        until,
        frames: frames_of(port, least),
    };
    onu_scripts::hitless_into(alloc, &change, room, written, line)
}

/// Checks, of every frame, what is expected after a trace, as JSON in a room, or all mistakes of the expectations.
#[unsafe(no_mangle)]
pub extern "C" fn onu_proved_expect(
    alloc: Global,
    trace: &[u8],
    words: &[u8],
    from: u64,
    until: u64,
    least: u16,
    room: &mut [u8],
    written: &mut usize,
    line: &mut u64,
) -> i32
    ensures { ExpectsInto trace.now (line_in from) until room.old room.new result written.old
        written.new line.old line.new }
{
    let wanted = Expectations {
        trace,
        words,
        from: from_line(from),
        until,
        least,
    };
    onu_scripts::expect_into(alloc, &wanted, room, written, line)
}
