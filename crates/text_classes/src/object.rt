//! A class as an object of JSON.
use crate::words::use_word;
use frame_classes::{ClassExample, Ending, Use};
use json::Writer;
use std::alloc::{AllocError, Global};
use text_entities::{HexWords, put_number, put_text, put_words};

/// Puts the members of a class of a port: `port`, and those that [`put_example`] puts.
pub(crate) fn put_class(
    alloc: Global,
    object: &mut Writer,
    port: u16,
    example: &ClassExample,
) -> Result<(), AllocError> {
    put_number(object, "port", u64::from(port))?;
    put_example(alloc, object, example)
}

/// Puts the members of a class: `use`, the word of what is used, with `entry` where it is one; `gem`, or `reason` and its `words`; and
/// `frame`, its bytes.
pub fn put_example(
    alloc: Global,
    object: &mut Writer,
    example: &ClassExample,
) -> Result<(), AllocError> {
    put_use(object, example.class.used)?;
    put_ending(alloc, object, example.class.ending)?;
    put_words(alloc, object, "frame", &HexWords(&example.frame))
}

/// Puts what is used for a frame: `use`, its word, with `entry` where it is one.
pub fn put_use(object: &mut Writer, used: Use) -> Result<(), AllocError> {
    put_text(object, "use", use_word(used))?;
    if let Use::Entry(number) = used {
        put_number(object, "entry", u64::from(number))?;
    }
    Ok(())
}

fn put_ending(alloc: Global, object: &mut Writer, ending: Ending) -> Result<(), AllocError> {
    match ending {
        Ending::Gem(gem) => put_number(object, "gem", u64::from(gem)),
        Ending::Dropped(reason) => {
            put_number(object, "reason", u64::from(reason.code()))?;
            put_words(alloc, object, "words", &reason)
        }
    }
}
