//! What messages ask, in words.
use crate::parts::parts_of;
use omci_msg::{Request, write_request};
use std::alloc::{AllocError, Global};
use text_encode::decode_source;
use text_entities::HexWords;
use text_writing::TextFault;

/// The line of a script for a message.
pub(crate) fn line_of(alloc: Global, request: &Request) -> Result<String, AllocError> {
    let bytes = write_request(request);
    let digits = HexWords(&bytes);
    format!(in alloc; "o {digits}\n")
}

/// Messages that `encode` has words for: those that are given, each Set of an entry and of other attributes as two.
fn sayable(alloc: Global, requests: &[Request]) -> Result<Vec<Request>, AllocError> {
    let mut list = Vec::with_capacity(alloc, requests.len())?;
    for request in requests {
        match parts_of(request) {
            Some((others, entry)) => {
                list.push(others)?;
                list.push(entry)?;
            }
            None => list.push(*request)?,
        }
    }
    Ok(list)
}

/// Messages in words, a line for each. They are numbered from 1, so that no word says their identifiers.
fn said(alloc: Global, requests: &[Request]) -> Result<Vec<u8>, TextFault> {
    let mut script = Vec::new(alloc);
    let mut identifier = 1u16;
    for request in requests {
        let mut numbered = *request;
        numbered.tci = identifier;
        identifier = identifier.wrapping_add(1);
        script.extend_from_slice(line_of(alloc, &numbered)?.as_bytes())?;
    }
    let mut words = Vec::new(alloc);
    let mut lines = script.as_slice();
    match decode_source(alloc, &mut lines, &mut words) {
        Ok(()) => Ok(words),
        Err(_) => Err(TextFault::NoMemory),
    }
}

/// The words of each message in a line: of a Set of an entry and of other attributes those of its two parts.
fn joined(alloc: Global, words: &[u8], requests: &[Request]) -> Result<Vec<u8>, AllocError> {
    let mut lines = words.split(|byte| *byte == b'\n');
    let mut list = Vec::with_capacity(alloc, words.len())?;
    for request in requests {
        list.extend_from_slice(lines.next().unwrap_or(&[]))?;
        if parts_of(request).is_some() {
            list.extend_from_slice(b", and ")?;
            list.extend_from_slice(lines.next().unwrap_or(&[]))?;
        }
        list.push(b'\n')?;
    }
    Ok(list)
}

/// The messages in words, a line for each: what a Set of an entry and of other attributes asks of these, and behind a comma of the entry.
pub(crate) fn words_of(alloc: Global, requests: &[Request]) -> Result<Vec<u8>, TextFault> {
    let words = said(alloc, &sayable(alloc, requests)?)?;
    Ok(joined(alloc, &words, requests)?)
}
