//! The script that is made.
use script_digits::write_digits;
use script_lines::LINE_LIMIT;
use std::alloc::{AllocError, Global};
use text_words::{Mistake, Mistakes, Why};

/// The lines of a script that are made so far, and the mistakes of the text that they are made of.
#[derive(Drop)]
pub(crate) struct Output {
    pub(crate) script: Vec<u8>,
    pub(crate) mistakes: Mistakes,
    /// Where the line begins that is being made.
    begin: usize,
}

impl Output {
    /// No line yet.
    pub(crate) fn new(alloc: Global) -> Self {
        Output {
            script: Vec::new(alloc),
            mistakes: Mistakes::new(alloc),
            begin: 0,
        }
    }

    /// Adds bytes in hexadecimal digits, of lower case.
    pub(crate) fn put_bytes(&mut self, bytes: &[u8]) -> Result<(), AllocError> {
        for byte in bytes {
            let mut digits = [0; 2];
            write_digits(&[*byte], &mut digits);
            self.script.extend_from_slice(&digits)?;
        }
        Ok(())
    }

    /// Ends the line that is being made. One that a script can't have is a mistake.
    pub(crate) fn end_line(&mut self) -> Result<(), AllocError> {
        let found = self.script.len().saturating_sub(self.begin);
        if found > LINE_LIMIT {
            self.mistakes.put(&Mistake {
                column: 1,
                why: Why::TooMany {
                    found,
                    unit: "characters in the line of the script",
                    most: LINE_LIMIT,
                },
            })?;
        }
        self.script.push(b'\n')?;
        self.begin = self.script.len();
        self.mistakes.next_line();
        Ok(())
    }
}
