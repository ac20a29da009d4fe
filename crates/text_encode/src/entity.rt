//! The managed entity of a line.
use managed_entity::Class;
use std::alloc::AllocError;
use text_words::{Choices, Mistake, Mistakes, Why, Word, Words, number_at_most};

/// The managed entity of a line, by its numbers.
#[derive(Clone, Copy)]
pub(crate) struct Entity {
    pub(crate) class: u16,
    pub(crate) instance: u16,
}

/// The class that a short word names, or that a number is.
fn read_class(word: Word<'_>) -> Result<u16, Mistake<'_>> {
    let found = word.text;
    if found.first().is_some_and(|byte| byte.is_ascii_digit()) {
        return number_at_most(word, "a class", u16::MAX);
    }
    match Class::of_word(found) {
        Some(class) => Ok(class.number()),
        None => Err(word.mistake(Why::NoSuch {
            found,
            choices: Choices::Classes,
        })),
    }
}

/// Reads the class and the instance, which stand first. None where one has a mistake.
pub(crate) fn read_entity(
    words: &mut Words<'_>,
    mistakes: &mut Mistakes,
) -> Result<Option<Entity>, AllocError> {
    let Some(word) = mistakes.take(words.expect("a class"))? else {
        return Ok(None);
    };
    let class = mistakes.take(read_class(word))?;
    let Some(word) = mistakes.take(words.expect("the number of an instance"))? else {
        return Ok(None);
    };
    let instance = mistakes.take(number_at_most(word, "an instance", u16::MAX))?;
    Ok(match (class, instance) {
        (Some(class), Some(instance)) => Some(Entity { class, instance }),
        _ => None,
    })
}
