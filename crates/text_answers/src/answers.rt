//! The answers of a replay as JSON.
use json::Writer;
use script_lines::{Line, MOST_SPELLED, first_line, read_line};
use std::alloc::{AllocError, Global};
use std::io::Write;
use text_entities::{HexWords, put_number, put_words};
use text_messages::{ScriptLine, put_line_json, read_script_line};
use text_writing::{TextFault, write_whole};

/// Writes an object of JSON (RFC 8259) for each answer to a script, on a line of its own: `format`, 1; `line`, the number of the script's
/// line that it answers, from 1; and what [`decode_json`](text_messages::decode_json) writes of the answer. Of a frame that leaves or is
/// dropped it has `port`, where it came in, and of a dropped one `bytes`, as it came in. The answers are those of a replay to the front
/// of the script.
pub fn write_answers_json<W: Write>(
    alloc: Global,
    script: &[u8],
    answers: &[u8],
    writer: &mut W,
) -> Result<(), TextFault> {
    let mut buffer = [0; MOST_SPELLED];
    let (mut asked, mut answered) = (script, answers);
    for number in 1..u64::MAX {
        if asked.is_empty() || answered.is_empty() {
            break;
        }
        let (line, behind) = first_line(asked);
        asked = behind;
        if let Some(line) = read_line(line, &mut buffer)
            && !matches!(line, Line::Nothing)
        {
            let (answer, others) = first_line(answered);
            answered = others;
            write_answer(alloc, number, &line, answer, writer)?;
        }
    }
    Ok(())
}

/// Writes the object of an answer to the line of a number.
fn write_answer<W: Write>(
    alloc: Global,
    number: u64,
    line: &Line<'_>,
    answer: &[u8],
    writer: &mut W,
) -> Result<(), TextFault> {
    let mut buffer = [0; MOST_SPELLED];
    let Some(answer) = read_script_line(answer, &mut buffer) else {
        return Ok(());
    };
    let mut object = Writer::new(Vec::new(alloc));
    object.begin_object()?;
    put_number(&mut object, "format", 2)?;
    put_number(&mut object, "line", number)?;
    put_line_json(alloc, &mut object, &answer)?;
    if let Line::Frame(port, bytes) = line {
        put_frame(alloc, &mut object, *port, bytes, &answer)?;
    }
    object.end_object()?;
    write_whole(writer, &object.into_inner())?;
    write_whole(writer, b"\n")?;
    Ok(())
}

/// Puts the port at which a frame came in, and where it is dropped its bytes.
fn put_frame(
    alloc: Global,
    object: &mut Writer,
    port: u16,
    bytes: &[u8],
    answer: &ScriptLine<'_>,
) -> Result<(), AllocError> {
    put_number(object, "port", u64::from(port))?;
    match answer {
        ScriptLine::Dropped(_) => put_words(alloc, object, "bytes", &HexWords(bytes)),
        _ => Ok(()),
    }
}
