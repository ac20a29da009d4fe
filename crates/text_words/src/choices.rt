//! The words that are allowed at a place.
use managed_entity::{Class, Description, NamedValue};
use std::fmt;

/// The words that are allowed at a place.
#[derive(Clone, Copy, Debug)]
pub enum Choices {
    /// These.
    Words(&'static [&'static str]),
    /// The short words of the classes.
    Classes,
    /// The short words of attributes.
    Attributes(&'static [Description]),
    /// The named values of an attribute, or a number.
    Values(&'static [NamedValue]),
}

impl Choices {
    /// The word at a place, from 0, or None where there are no more.
    pub fn get(self, place: usize) -> Option<&'static str> {
        match self {
            Choices::Words(words) => words.get(place).copied(),
            Choices::Classes => Class::ALL.get(place).map(|class| class.word()),
            Choices::Attributes(attributes) => attributes.get(place).map(|it| it.word),
            Choices::Values(values) => match values.get(place) {
                Some(named) => Some(named.word),
                None if place == values.len() => Some("a number"),
                None => None,
            },
        }
    }

    /// How many words there are.
    fn len(self) -> usize {
        match self {
            Choices::Words(words) => words.len(),
            Choices::Classes => Class::ALL.len(),
            Choices::Attributes(attributes) => attributes.len(),
            Choices::Values(values) => values.len().saturating_add(1),
        }
    }
}

/// The words, as in `a, b or c`.
impl fmt::Display for Choices {
    fn fmt<W: fmt::Write>(&self, f: &mut fmt::Formatter<W>) -> fmt::Result {
        let count = self.len();
        for place in 0..count {
            let Some(word) = self.get(place) else {
                return Ok(());
            };
            let separator = match place {
                0 => "",
                _ if place.saturating_add(1) == count => " or ",
                _ => ", ",
            };
            write!(f, "{separator}{word}")?;
        }
        Ok(())
    }
}
