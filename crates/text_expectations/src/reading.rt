//! The expectations of a text.
use crate::fault::ExpectationsFault;
use crate::line::read_line;
use frame_expectation::Expectation;
use script_lines::first_line;
use std::alloc::{AllocError, Global};
use text_words::{Mistakes, Words, without_mark};

/// An expectation, and the number of the line that says it, from 1.
#[derive(Clone, Copy, Debug, PartialEq, Eq)]
pub struct ExpectedLine {
    pub line: u64,
    pub expectation: Expectation,
}

/// The expectations of a text so far, and its mistakes.
#[derive(Drop)]
struct Found {
    lines: Vec<ExpectedLine>,
    mistakes: Mistakes,
    /// The number of the line that is read.
    line: u64,
}

/// Reads a line. One without words says nothing.
fn put_line(line: &[u8], found: &mut Found) -> Result<(), AllocError> {
    let content = line.strip_suffix(b"\r").unwrap_or(line);
    let mut words = Words::of(content);
    if let Some(first) = words.next() {
        let number = found.line;
        if let Some(expectation) = read_line(first, words, &mut found.mistakes)? {
            found.lines.push(ExpectedLine {
                line: number,
                expectation,
            })?;
        }
    }
    found.line = found.line.saturating_add(1);
    found.mistakes.next_line();
    Ok(())
}

/// What the lines of a text say.
fn found_in(alloc: Global, text: &[u8]) -> Result<Found, AllocError> {
    let mut found = Found {
        lines: Vec::new(alloc),
        mistakes: Mistakes::new(alloc),
        line: 1,
    };
    let mut rest = text;
    while !rest.is_empty() {
        let (line, behind) = first_line(rest);
        put_line(line, &mut found)?;
        rest = behind;
    }
    Ok(found)
}

/// The expectations of a text in words, with the numbers of their lines, in order. `#` begins a remark, and a line without words says
/// nothing. Or all mistakes of the text, by line and column. A byte order mark in front of the text is passed over.
pub fn read_expectations(
    alloc: Global,
    text: &[u8],
) -> Result<Vec<ExpectedLine>, ExpectationsFault> {
    let Found {
        lines,
        mistakes,
        line: _,
    } = found_in(alloc, without_mark(text))?;
    if mistakes.count() > 0 {
        return Err(ExpectationsFault::Mistakes(mistakes));
    }
    Ok(lines)
}
