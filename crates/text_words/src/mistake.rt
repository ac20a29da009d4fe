//! What is wrong at a place of a line.
use crate::choices::Choices;
use crate::shown::Shown;
use std::fmt;

/// What is wrong at a place of a line.
#[derive(Clone, Copy, Debug)]
pub struct Mistake<'a> {
    /// The column, from 1, in characters.
    pub column: usize,
    pub why: Why<'a>,
}

/// What was found, and what is allowed.
#[derive(Clone, Copy, Debug)]
pub enum Why<'a> {
    /// A word that isn't one of those that are allowed.
    NoSuch {
        found: &'a [u8],
        choices: Choices,
    },
    /// A word that is none of the attributes of a class.
    NoAttribute {
        class: &'static str,
        found: &'a [u8],
        choices: Choices,
    },
    /// A word that isn't what is expected.
    Unexpected {
        found: &'a [u8],
        expected: &'static str,
    },
    /// The line ends where something is expected.
    Missing {
        expected: &'static str,
    },
    /// A word that is no number, where one of 0 to `most` is expected.
    NoNumber {
        what: &'static str,
        found: &'a [u8],
        most: u64,
    },
    /// A number that is too great for what it is to be.
    TooGreat {
        what: &'static str,
        found: &'a [u8],
        most: u64,
    },
    /// Something that is there already.
    Twice {
        found: &'a [u8],
    },
    /// A count that doesn't fit.
    Count {
        found: usize,
        unit: &'static str,
        expected: &'static str,
    },
    /// More than so many.
    TooMany {
        found: usize,
        unit: &'static str,
        most: usize,
    },
    /// A parenthesis that isn't closed.
    Unclosed,
    /// What goes against a rule, which these words say.
    Rule {
        words: &'static str,
    },
}

impl Why<'_> {
    /// The word that was found, and those of which the nearest may have been meant.
    pub(crate) fn choices(&self) -> Option<(&[u8], Choices)> {
        match self {
            Why::NoSuch { found, choices } | Why::NoAttribute { found, choices, .. } => {
                Some((*found, *choices))
            }
            _ => None,
        }
    }
}

impl fmt::Display for Why<'_> {
    fn fmt<W: fmt::Write>(&self, f: &mut fmt::Formatter<W>) -> fmt::Result {
        match self {
            Why::NoSuch { found, choices } => {
                let found = Shown(found);
                write!(f, "found {found}, expected {choices}")
            }
            Why::NoAttribute {
                class,
                found,
                choices,
            } => {
                let found = Shown(found);
                write!(f, "{class} has no attribute {found}, expected {choices}")
            }
            Why::Unexpected { found, expected } => {
                let found = Shown(found);
                write!(f, "found {found}, expected {expected}")
            }
            Why::Missing { expected } => write!(f, "the line ends, expected {expected}"),
            Why::NoNumber { what, found, most } => {
                let found = Shown(found);
                write!(f, "found {found}, expected {what}, a number of 0 to {most}")
            }
            Why::TooGreat { what, found, most } => {
                let found = Shown(found);
                write!(f, "{what} is at most {most}, found {found}")
            }
            Why::Twice { found } => {
                let found = Shown(found);
                write!(f, "{found} is given twice")
            }
            Why::Count {
                found,
                unit,
                expected,
            } => write!(f, "found {found} {unit}, expected {expected}"),
            Why::TooMany { found, unit, most } => {
                write!(f, "found {found} {unit}, expected at most {most}")
            }
            Why::Unclosed => f.write_str("the parenthesis isn't closed, expected `)`"),
            Why::Rule { words } => f.write_str(words),
        }
    }
}
