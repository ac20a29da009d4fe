//! The managed entities that a history leads to, and the lines that led to them.
use crate::lines::HistoryLines;
use crate::observed::Lines;
use mib_state::Mib;
use omci_msg::{Request, read};
use script_lines::read_bytes;
use script_trace::Accepted;
use std::alloc::{AllocError, Global};

/// How many bytes a message has at most (ITU-T G.988, clause 11.2).
const MESSAGE: usize = 48;

/// Managed entities, and the accepted requests that led to them. Those that were carried out before the history have the line 0.
#[derive(Drop)]
pub(crate) struct CarriedOut {
    pub(crate) mib: Mib,
    pub(crate) accepted: Vec<Accepted>,
}

impl CarriedOut {
    /// Carries the request of a line out.
    fn carry_out(&mut self, line: u64, request: &Request) -> Result<(), AllocError> {
        if self.mib.carry_out(request).accepted {
            let request = *request;
            self.accepted.push(Accepted { line, request })?;
        }
        Ok(())
    }

    /// What the requests that come before a history lead to.
    fn before(alloc: Global, start: &[Request]) -> Result<Self, AllocError> {
        let mut carried = CarriedOut {
            mib: Mib::new(alloc)?,
            accepted: Vec::new(alloc),
        };
        for request in start {
            carried.carry_out(0, request)?;
        }
        Ok(carried)
    }
}

/// How many of requests that come before a history are accepted.
pub fn accepted_before(alloc: Global, start: &[Request]) -> Result<usize, AllocError> {
    Ok(CarriedOut::before(alloc, start)?.accepted.len())
}

/// The request of the message that digits spell, if it has no fault.
fn request_in(digits: &[u8]) -> Option<Request> {
    if digits.len() > 2 * MESSAGE {
        return None;
    }
    let mut buffer = [0; MESSAGE];
    read(read_bytes(digits, &mut buffer)?).ok()
}

/// The request that the line of a number sends, if it sends one.
pub(crate) fn request_of(lines: &HistoryLines<'_>, line: usize) -> Option<Request> {
    request_in(lines.message(line)?)
}

/// Whether digits of either case spell the same.
fn are_same(one: &[u8], other: Option<&[u8]>) -> bool {
    match other {
        Some(other) => one.eq_ignore_ascii_case(other),
        None => false,
    }
}

/// What the messages of a history above a line lead to, up to a version: a number of accepted requests.
pub(crate) fn carried_out(
    alloc: Global,
    history: &Lines<'_>,
    line: usize,
    version: usize,
) -> Result<CarriedOut, AllocError> {
    let mut carried = CarriedOut::before(alloc, history.start)?;
    let all = carried.accepted.len().saturating_add(version);
    let mut last = None;
    for number in 1..line {
        if carried.accepted.len() >= all {
            break;
        }
        if let Some(digits) = history.lines.message(number) {
            if !(history.repeats && are_same(digits, last))
                && let Some(request) = request_in(digits)
            {
                carried.carry_out(number as u64, &request)?;
            }
            last = Some(digits);
        }
    }
    Ok(carried)
}
