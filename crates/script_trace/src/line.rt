//! A line of a trace.
ghost use Rattle.std.specs.Prelude.{◌≡◌, IfOk, OnErr, option_map, false, true};
ghost use Rattle.script_lines.specs.Line.{asked_by};
ghost use Rattle.script_trace.specs.Trace.{may_stand, message_in};

use script_lines::{Line, MOST_SPELLED, read_line};

/// What a line that is a frame is in a trace.
#[derive(Clone, Copy)]
pub(crate) enum FrameLines {
    /// It is passed over.
    Passed,
    /// It is a bad line.
    Bad,
}

/// That a line may not stand in a trace.
#[derive(Clone, Copy)]
pub(crate) struct BadLine;

/// The bytes of the message that a line is, or none where it is nothing, or a frame that is passed over.
pub(crate) fn read_message<'b>(
    line: &[u8],
    buffer: &'b mut [u8; MOST_SPELLED],
    frames: FrameLines,
) -> Result<Option<&'b [u8]>, BadLine>
    ensures stands { IfOk result (λ _. may_stand frames (asked_by line.now) ≡ true) }
    ensures message { IfOk result (λ message.
        option_map (λ (bytes : _). bytes.now) message ≡ message_in (asked_by line.now)) }
    ensures bad { OnErr result (may_stand frames (asked_by line.now) ≡ false) }
{
    match read_line(line, buffer) {
        Some(Line::Message(bytes)) => Ok(Some(bytes)),
        Some(Line::Nothing) => Ok(None),
        Some(Line::Frame(_, _)) => match frames {
            FrameLines::Passed => Ok(None),
            FrameLines::Bad => Err(BadLine),
        },
        None => Err(BadLine),
    }
}
