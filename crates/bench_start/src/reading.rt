//! The requests of a script.
ghost use Rattle.std.specs.Prelude.{◌≡◌, IfErr, IfOk, OnErr, None};
ghost use Rattle.std.specs.Option.{option_to_list};
ghost use Rattle.omci_msg.specs.Message.{request_of};
ghost use Rattle.script_lines.specs.Line.{asked_by};
ghost use Rattle.script_trace.specs.Script.{IsGood, IsWhyNotApplied, first_bad};
ghost use Rattle.script_trace.specs.Trace.{request_in, request_read, requests_of};

use omci_msg::{Request, read};
use script_lines::{Line, MOST_SPELLED, first_line, read_line};
use script_trace::ScriptFault;
use std::alloc::Global;

/// That a line is bad.
#[derive(Clone, Copy)]
struct BadLine;

/// The request of a message, or none where it has a fault.
fn request_of(bytes: &[u8]) -> Option<Request>
    ensures { option_to_list result ≡ request_read (request_of bytes.now) }
{
    read(bytes).ok()
}

/// The request of a line, or none where it is nothing, a frame, or a message with a fault.
fn read_request(line: &[u8], buffer: &mut [u8; MOST_SPELLED]) -> Result<Option<Request>, BadLine>
    ensures good { IfOk result (λ _. IsGood (asked_by line.now)) }
    ensures request { IfOk result (λ request.
        option_to_list request ≡ request_in (asked_by line.now)) }
    ensures bad { OnErr result (¬ (IsGood (asked_by line.now))) }
{
    match read_line(line, buffer) {
        Some(Line::Message(bytes)) => Ok(request_of(bytes)),
        Some(Line::Nothing | Line::Frame(_, _)) => Ok(None),
        None => Err(BadLine),
    }
}

/// The requests of a script, in order. Frames are passed over, and messages with a fault.
///
/// [`ScriptFault::BadLine`] comes exactly where a line is bad, with the number of the first, unless memory was wanting before.
pub fn read_start(alloc: Global, script: &[u8]) -> Result<Vec<Request>, ScriptFault>
    ensures good { IfOk result (λ _. first_bad None script.now ≡ None) }
    ensures requests { IfOk result (λ requests. requests.items ≡ requests_of script.now) }
    ensures fault { IfErr result (IsWhyNotApplied None script.now) }
{
    let mut buffer = [0; MOST_SPELLED];
    let mut requests = Vec::new(alloc);
    let mut rest = script;
    let mut number = 0u64;
    while !rest.is_empty() {
        let (line, behind) = first_line(rest);
        number += 1;
        let Ok(request) = read_request(line, &mut buffer) else {
            return Err(ScriptFault::BadLine(number));
        };
        if let Some(request) = request
            && requests.push(request).is_err()
        {
            return Err(ScriptFault::NoMemory);
        }
        rest = behind;
    }
    Ok(requests)
}
