//! What is said where no way is found: for which frames the best that was tried is torn.
use mib_state::Mib;
use migration_check::entities_after;
use omci_msg::Request;
use script_trace::{Accepted, Applied};
use std::alloc::{AllocError, Global};
use std::io::{BufWriter, Write};
use text_every_frame::{Frames, write_tears};
use text_writing::{TextFault, write_whole};

/// How many lines a message has in a script of this program: a remark, and its own.
const LINES: u64 = 2;

/// The last line of a trace that says something.
fn last_line(applied: &Applied) -> u64 {
    let accepted = applied.accepted.last().map_or(0, |each| each.line);
    let refused = applied.refused.last().map_or(0, |each| each.line);
    let faulty = applied.faulty.last().map_or(0, |each| each.line);
    accepted.max(refused).max(faulty)
}

/// The requests that were accepted.
pub(crate) fn requests_of(
    alloc: Global,
    accepted: &[Accepted],
) -> Result<Vec<Request>, AllocError> {
    let mut requests = Vec::with_capacity(alloc, accepted.len())?;
    for each in accepted {
        requests.push(each.request)?;
    }
    Ok(requests)
}

/// A trace with more requests behind it.
fn with_more(alloc: Global, before: &Applied, requests: &[Request]) -> Result<Applied, AllocError> {
    let mut accepted = Vec::from_slice(alloc, &before.accepted)?;
    let mut line = last_line(before);
    for request in requests {
        line = line.saturating_add(LINES);
        accepted.push(Accepted {
            line,
            request: *request,
        })?;
    }
    let all = requests_of(alloc, &accepted)?;
    let mib: Mib = entities_after(alloc, &all)?;
    Ok(Applied {
        mib,
        accepted,
        faulty: Vec::new(alloc),
        refused: Vec::new(alloc),
    })
}

/// Says that no way is found, and for which frames the best that was tried is torn, behind the trace that leads to the configuration before.
pub(crate) fn write_best<W: Write>(
    alloc: Global,
    before: &Applied,
    requests: &[Request],
    writer: &mut W,
) -> Result<(), TextFault> {
    let applied = with_more(alloc, before, requests)?;
    let frames = Frames {
        port: None,
        least: 0,
    };
    let Ok(mut gathered) = BufWriter::new(alloc, writer) else {
        return Err(TextFault::NoMemory);
    };
    write_whole(&mut gathered, b"no hitless way found\n")?;
    let from = last_line(before);
    write_tears(alloc, &applied, from, frames, false, &mut gathered)?;
    gathered.flush().map_err(|_| TextFault::Write)?;
    Ok(())
}
