//! The mistakes of a text.
use crate::mistake::Mistake;
use crate::near::nearest;
use std::alloc::{AllocError, Global};

/// The mistakes of a text so far, a line each: `line 3, column 8: found ..`.
#[derive(Drop)]
pub struct Mistakes {
    alloc: Global,
    text: String,
    count: u64,
    line: u64,
    /// How many there are of the lines before.
    before: u64,
}

impl Mistakes {
    /// None yet. The next line is the first.
    pub fn new(alloc: Global) -> Self {
        Mistakes {
            alloc,
            text: String::new(alloc),
            count: 0,
            line: 1,
            before: 0,
        }
    }

    /// Goes on to the next line.
    pub fn next_line(&mut self) {
        self.line = self.line.saturating_add(1);
        self.before = self.count;
    }

    /// Whether the line has none so far.
    pub fn is_clean(&self) -> bool {
        self.count == self.before
    }

    /// How many there are.
    pub fn count(&self) -> u64 {
        self.count
    }

    /// Their text, a line each.
    pub fn text(&self) -> &str {
        self.text.as_str()
    }

    /// Adds one, with the nearest word where one is near.
    pub fn put(&mut self, mistake: &Mistake<'_>) -> Result<(), AllocError> {
        let (line, column, why) = (self.line, mistake.column, &mistake.why);
        write!(self.text, "line {line}, column {column}: {why}")?;
        if let Some((found, choices)) = why.choices() {
            if let Some(word) = nearest(self.alloc, found, choices)? {
                write!(self.text, "; did you mean `{word}`?")?;
            }
        }
        self.text.push_str("\n")?;
        self.count = self.count.saturating_add(1);
        Ok(())
    }

    /// What was read, or None where it has a mistake, which is added.
    pub fn take<T: Drop>(
        &mut self,
        outcome: Result<T, Mistake<'_>>,
    ) -> Result<Option<T>, AllocError> {
        match outcome {
            Ok(value) => Ok(Some(value)),
            Err(mistake) => {
                self.put(&mistake)?;
                Ok(None)
            }
        }
    }
}
