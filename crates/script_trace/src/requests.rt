//! The requests of a trace.
ghost use Rattle.std.specs.Prelude.{◌≡◌, IfErr, IfOk, OnErr, None, false, true};
ghost use Rattle.std.specs.Option.{option_to_list};
ghost use Rattle.omci_msg.specs.Message.{request_of};
ghost use Rattle.script_lines.specs.Line.{asked_by};
ghost use Rattle.script_trace.specs.Trace.{IsWhyUnread, first_bad, may_stand, request_in, request_read, requests_of};
ghost use Rattle.script_trace.specs.declared.line.FrameLines.TheVariants.{Bad};

use crate::fault::ScriptFault;
use crate::line::{BadLine, FrameLines, read_message};
use omci_msg::{Request, read};
use script_lines::{MOST_SPELLED, first_line};
use std::alloc::Global;

/// The requests of a trace, in order. A message with a fault is passed over. A trace with a line that is neither a message nor
/// nothing is refused by the first such line, also where memory is wanting.
pub fn read_requests(alloc: Global, trace: &[u8]) -> Result<Vec<Request>, ScriptFault>
    ensures stands { IfOk result (λ requests. first_bad trace.now ≡ None) }
    ensures requests { IfOk result (λ requests. requests.items ≡ requests_of trace.now) }
    ensures fault { IfErr result (IsWhyUnread trace.now) }
{
    let mut buffer = [0; MOST_SPELLED];
    let mut requests = Vec::new(alloc);
    let mut rest = trace;
    let mut number = 1u64;
    while !rest.is_empty() {
        let (line, behind) = first_line(rest);
        let Ok(request) = read_request(line, &mut buffer) else {
            return Err(ScriptFault::BadLine(number));
        };
        if let Some(request) = request
            && requests.push(request).is_err()
        {
            return Err(without_memory(trace));
        }
        rest = behind;
        number += 1;
    }
    Ok(requests)
}

/// The fault of a trace whose requests find no memory.
fn without_memory(trace: &[u8]) -> ScriptFault
    ensures { IsWhyUnread trace.now result }
{
    match first_bad_line(trace) {
        Some(line) => ScriptFault::BadLine(line),
        None => ScriptFault::NoMemory,
    }
}

/// The number, from 1, of the first line of a trace that may not stand.
fn first_bad_line(trace: &[u8]) -> Option<u64>
    ensures { result ≡ first_bad trace.now }
{
    let mut buffer = [0; MOST_SPELLED];
    let mut rest = trace;
    let mut number = 1u64;
    while !rest.is_empty() {
        let (line, behind) = first_line(rest);
        if read_request(line, &mut buffer).is_err() {
            return Some(number);
        }
        rest = behind;
        number += 1;
    }
    None
}

/// The request of a line, or none where it is nothing or a message with a fault.
fn read_request(line: &[u8], buffer: &mut [u8; MOST_SPELLED]) -> Result<Option<Request>, BadLine>
    ensures stands { IfOk result (λ _. may_stand Bad (asked_by line.now) ≡ true) }
    ensures request { IfOk result (λ request.
        option_to_list request ≡ request_in (asked_by line.now)) }
    ensures bad { OnErr result (may_stand Bad (asked_by line.now) ≡ false) }
{
    match read_message(line, buffer, FrameLines::Bad) {
        Ok(Some(bytes)) => Ok(request_of(bytes)),
        Ok(None) => Ok(None),
        Err(fault) => Err(fault),
    }
}

/// The request of a message, or none where it has a fault.
fn request_of(bytes: &[u8]) -> Option<Request>
    ensures { option_to_list result ≡ request_read (request_of bytes.now) }
{
    read(bytes).ok()
}
