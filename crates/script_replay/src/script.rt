//! The replay of a script: each line is answered before the next is read.
ghost use Rattle.std.specs.Prelude.{◌≡◌, ◌+◌, ◌*◌, ◌^◌, ◌≤◌, ◌<◌, IfOk, IfSome, OnErr, [], map, length, vec_len, vec_capacity};
ghost use Rattle.std.specs.Io.KnownBytes.{Keeps};
ghost use Rattle.mib_upload.specs.Upload.{start};
ghost use Rattle.script_replay.specs.Replay.{Replays};
ghost use Rattle.script_replay.specs.Finish.{Finishes};
ghost use Rattle.script_replay.specs.Room.{text_room};

use crate::answer::answer_line;
use crate::fault::ReplayFault;
use crate::lines::answer_lines;
use crate::pieces::{move_to_front, read_piece};
use onu_unit::Unit;
use script_lines::{LINE_LIMIT, MOST_SPELLED};
use std::alloc::{AllocError, Global};
use std::io::{Read, Write};
use text_writing::write_whole;

/// How many bytes a read is given room for, at least.
const READ_ROOM: usize = 65_536;

/// The bytes of a line that is begun, and those of a read.
const TEXT_ROOM: usize = LINE_LIMIT + READ_ROOM;

/// The reader is called less often than this.
const MOST_READS: u32 = u32::MAX;

/// Answers the last line of a script, which no line feed ends, if there is one.
fn finish<W: Write>(
    writer: &mut W,
    onu: &mut Unit,
    line: &[u8],
    lines: u64,
    buffer: &mut [u8; MOST_SPELLED],
    answers: &mut Vec<u8>,
) -> Result<(), ReplayFault>
    requires empty { vec_len answers.old ≡ 0 }
    requires none { answers.old.items ≡ [] }
    requires room { 3 * length line.now + 3 ≤ vec_capacity answers.old }
    requires lines { lines < 2 ^ 63 }
    ensures { Finishes onu.old line.now lines result (W.contents writer.old)
        (W.contents writer.new) }
{
    if line.is_empty() {
        return Ok(());
    }
    if answer_line(onu, line, buffer, answers) {
        return Err(ReplayFault::BadLine(lines + 1));
    }
    write_whole(writer, answers)?;
    Ok(())
}

/// Answers the lines of a script, from no instance on, by one read after the other.
fn replay_through<R: Read, W: Write>(
    reader: &mut R,
    writer: &mut W,
    onu: &mut Unit,
    text: &mut [u8],
    buffer: &mut [u8; MOST_SPELLED],
    answers: &mut Vec<u8>,
) -> Result<(), ReplayFault>
    requires begins { onu.old ≡ start }
    requires text { length text.old ≡ text_room }
    requires empty { vec_len answers.old ≡ 0 }
    requires none { answers.old.items ≡ [] }
    requires room { 3 * text_room ≤ vec_capacity answers.old }
    ensures { IfSome (R.remaining reader.old) (λ text.
        Replays text result (R.remaining reader.new) (W.contents writer.old)
        (W.contents writer.new)) }
{
    let mut total = 0;
    let mut lines = 0;
    let mut begun = 0;
    for _ in 1..MOST_READS {
        let Some(count) = read_piece(reader, text, begun) else {
            return Err(ReplayFault::Read(total));
        };
        if count == 0 {
            return finish(writer, onu, &text[..begun], lines, buffer, answers);
        }
        let end = begun + count;
        let answered = answer_lines(onu, &text[..end], begun, buffer, answers);
        write_whole(writer, answers)?;
        answers.clear();
        lines += answered.lines;
        if answered.is_bad {
            return Err(ReplayFault::BadLine(lines + 1));
        }
        total += count as u64;
        begun = end - answered.rest;
        if begun > LINE_LIMIT {
            return Err(ReplayFault::BadLine(lines + 1));
        }
        move_to_front(text, answered.rest, end);
    }
    Err(ReplayFault::Read(total))
}

/// The bytes that a replay takes from memory.
#[derive(Drop)]
struct Room {
    text: Vec<u8>,
    answers: Vec<u8>,
}

impl Room {
    ghost use Rattle.std.specs.Prelude.{◌≡◌, ◌*◌, ◌≤◌, [], IfOk, vec_len, vec_capacity};
    ghost use Rattle.script_replay.specs.Room.{text_room};

    fn new(alloc: Global) -> Result<Room, AllocError>
        ensures text { IfOk result (λ room. vec_len room.text ≡ text_room) }
        ensures empty { IfOk result (λ room. vec_len room.answers ≡ 0) }
        ensures none { IfOk result (λ room. room.answers.items ≡ []) }
        ensures answers { IfOk result (λ room. 3 * text_room ≤ vec_capacity room.answers) }
    {
        Ok(Room {
            text: vec![in alloc; 0; TEXT_ROOM]?,
            answers: Vec::with_capacity(alloc, 3 * TEXT_ROOM)?,
        })
    }
}

/// Reads a script, one line after the other, and writes the answer to each message, as an ONU
/// without any instance gives it, and what becomes of each frame. A script is lines that end in LF;
/// one CR before it is dropped, and the last line needs none. An empty line and one that begins with
/// `#` have no answer. A line `o HEX` is a message. The answer is a line `r HEX`, the reply; `-`
/// where none was wanted; `m N` where the message has fault N. A line `f PORT HEX` is a frame that
/// comes in at a port. The answer is `g GEM HEX`, the GEM port by which it leaves and its bytes then,
/// or `d N`, dropped for reason N. Any other line is bad, and so is one over 20,000 bytes.
///
/// All memory is taken before the first read. The answers to what a read handed over are written
/// before the next. No call that failed is made again.
pub fn replay<R: Read, W: Write>(
    alloc: Global,
    reader: &mut R,
    writer: &mut W,
) -> Result<(), ReplayFault>
    ensures { IfSome (R.remaining reader.old) (λ text.
        Replays text result (R.remaining reader.new) (W.contents writer.old)
        (W.contents writer.new)) }
{
    let Ok(mut room) = Room::new(alloc) else {
        return Err(ReplayFault::NoMemory);
    };
    let Ok(mut onu) = Unit::new(alloc) else {
        return Err(ReplayFault::NoMemory);
    };
    let mut buffer = [0; MOST_SPELLED];
    replay_through(
        reader,
        writer,
        &mut onu,
        &mut room.text,
        &mut buffer,
        &mut room.answers,
    )
}
