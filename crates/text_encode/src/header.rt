//! What a message says besides what it asks.
use text_words::{Mistake, Why, Word, number_at_most};

/// What a message says besides what it asks: `id=N` and `quiet`, each once, anywhere behind what must stand in front.
#[derive(Clone, Copy)]
pub(crate) struct Header {
    /// The transaction correlation identifier that it sets.
    pub(crate) identifier: Option<u16>,
    /// Whether it wants no answer.
    pub(crate) quiet: bool,
}

impl Header {
    /// Nothing is said yet.
    pub(crate) const NEW: Header = Header {
        identifier: None,
        quiet: false,
    };

    /// Takes a word that says this, and answers whether it does.
    pub(crate) fn take<'a>(&mut self, word: Word<'a>) -> Result<bool, Mistake<'a>> {
        if word.is("quiet") {
            return self.take_quiet(word);
        }
        match word.split_value() {
            Some((name, value)) if name.is("id") => self.take_identifier(word, value),
            _ => Ok(false),
        }
    }

    fn take_quiet<'a>(&mut self, word: Word<'a>) -> Result<bool, Mistake<'a>> {
        if self.quiet {
            return Err(word.mistake(Why::Twice { found: word.text }));
        }
        self.quiet = true;
        Ok(true)
    }

    fn take_identifier<'a>(
        &mut self,
        word: Word<'a>,
        value: Word<'a>,
    ) -> Result<bool, Mistake<'a>> {
        if self.identifier.is_some() {
            return Err(word.mistake(Why::Twice { found: word.text }));
        }
        self.identifier = Some(number_at_most(value, "an identifier", u16::MAX)?);
        Ok(true)
    }
}
