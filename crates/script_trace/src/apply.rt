//! The messages of a script, carried out.
ghost use Rattle.std.specs.Prelude.{◌≡◌, None, IfErr, IfOk};
ghost use Rattle.omci_msg.specs.Message.{request_of};
ghost use Rattle.script_lines.specs.Line.{asked_by};
ghost use Rattle.script_trace.specs.Script.{IsBadLine, IsGood, IsWhyNotApplied, after_line, after_message, after_request, after_script, first_bad, goes_on, told_by};

use crate::applied::{Accepted, Applied, Faulty, Refused};
use crate::fault::ScriptFault;
use crate::line::{BadLine, FrameLines, read_message};
use mib_state::{Mib, may_change};
use omci_msg::{Request, read};
use script_lines::{MOST_SPELLED, first_line};
use std::alloc::{AllocError, Global};

/// Whether a line stands behind the last one that is read.
fn goes_on(read: u64, until: Option<u64>) -> bool
    ensures { result ≡ goes_on read until }
{
    match until {
        Some(last) => read < last,
        None => true,
    }
}

impl Applied {
    /// Carries the request of a line out.
    fn carry_out(&mut self, number: u64, request: &Request) -> Result<(), AllocError>
        ensures { IfOk result (λ _. told_by self.new
            ≡ after_request number request.now (told_by self.old)) }
    {
        let carried = self.mib.carry_out(request);
        let (line, request) = (number, *request);
        if carried.accepted {
            self.accepted.push(Accepted { line, request })?;
        } else if may_change(request.action) {
            let reply = carried.reply;
            self.refused.push(Refused {
                line,
                request,
                reply,
            })?;
        }
        Ok(())
    }

    /// Carries the message of a line out, if it has no fault.
    fn apply_message(&mut self, number: u64, bytes: &[u8]) -> Result<(), AllocError>
        ensures { IfOk result (λ _. told_by self.new
            ≡ after_message number (request_of bytes.now) (told_by self.old)) }
    {
        match read(bytes) {
            Ok(request) => self.carry_out(number, &request),
            Err(fault) => {
                let line = number;
                self.faulty.push(Faulty { line, fault })?;
                Ok(())
            }
        }
    }

    /// Does what a line asks for.
    fn apply_line(
        &mut self,
        number: u64,
        line: &[u8],
        buffer: &mut [u8; MOST_SPELLED],
    ) -> Result<(), ScriptFault>
        ensures good { IfOk result (λ _. IsGood (asked_by line.now)) }
        ensures told { IfOk result (λ _. told_by self.new
            ≡ after_line number (asked_by line.now) (told_by self.old)) }
        ensures bad { IfErr result (IsBadLine number (asked_by line.now)) }
    {
        match read_message(line, buffer, FrameLines::Passed) {
            Ok(Some(bytes)) => Ok(self.apply_message(number, bytes)?),
            Ok(None) => Ok(()),
            Err(BadLine) => Err(ScriptFault::BadLine(number)),
        }
    }
}

/// Carries out the messages of a script, as a unit does that begins with no instances: up to a line, from 1, if one is given, and else all.
/// Frames are passed over, messages with a fault too. What has a fault and what is refused is told with its line and why.
///
/// [`ScriptFault::BadLine`] comes exactly where one of those lines is bad, with the number of the first, unless memory was wanting before.
pub fn apply_script(
    alloc: Global,
    script: &[u8],
    until: Option<u64>,
) -> Result<Applied, ScriptFault>
    ensures told { IfOk result (λ applied. told_by applied ≡ after_script until script.now) }
    ensures good { IfOk result (λ applied. first_bad until script.now ≡ None) }
    ensures fault { IfErr result (IsWhyNotApplied until script.now) }
{
    let mut applied = Applied {
        mib: Mib::new(alloc)?,
        accepted: Vec::new(alloc),
        faulty: Vec::new(alloc),
        refused: Vec::new(alloc),
    };
    let mut buffer = [0; MOST_SPELLED];
    let mut rest = script;
    let mut number = 0;
    while !rest.is_empty() && goes_on(number, until) {
        let (line, behind) = first_line(rest);
        number += 1;
        if let Err(fault) = applied.apply_line(number, line, &mut buffer) {
            return Err(fault);
        }
        rest = behind;
    }
    Ok(applied)
}
