//! The attributes that a line names.
use crate::value::{MOST, read_value};
use managed_entity::{Access, Class, names};
use text_words::{Choices, Mistake, Why, Word};

/// The values that a line gives to attributes, by their places from 0.
#[derive(Clone, Copy)]
pub(crate) struct Values {
    /// The mask of those that are given.
    pub(crate) mask: u16,
    bytes: [[u8; MOST]; 16],
    /// How many attributes the word names that gives each.
    spans: [usize; 16],
}

/// A word `NAME=VALUE`, and how many attributes its name is of.
#[derive(Clone, Copy)]
struct Given<'a> {
    name: Word<'a>,
    value: Word<'a>,
    span: usize,
}

/// The place of the attribute that a short word names.
fn place_of<'a>(class: Class, name: Word<'a>) -> Result<usize, Mistake<'a>> {
    let descriptions = class.descriptions();
    let place = descriptions.iter().position(|it| name.is(it.word));
    place.ok_or(name.mistake(Why::NoAttribute {
        class: class.word(),
        found: name.text,
        choices: Choices::Attributes(descriptions),
    }))
}

/// The places of the attributes that a word names: those of `p0-7`, the mapper's pointers of these priorities, or the one of a short
/// word.
fn places_of<'a>(class: Class, name: Word<'a>) -> Result<(usize, usize), Mistake<'a>> {
    if let [b'p', first @ b'0'..=b'7', b'-', last @ b'0'..=b'7'] = name.text {
        if class == Class::Mapper && first < last {
            let first = usize::from(*first - b'0');
            let last = usize::from(*last - b'0');
            return Ok((FIRST_POINTER + first, FIRST_POINTER + last));
        }
    }
    let place = place_of(class, name)?;
    Ok((place, place))
}

/// The place of a mapper's interwork TP pointer for priority 0 (ITU-T G.988, clause 9.3.10).
pub(crate) const FIRST_POINTER: usize = 1;

/// The bit of a place in a mask.
fn bit_of(place: usize) -> u16 {
    if place < 16 { 0x8000 >> place } else { 0 }
}

/// The mask of the attributes of a class with this access.
pub(crate) fn mask_with(class: Class, access: Access) -> u16 {
    let mut mask = 0;
    for (place, attribute) in class.layout().iter().enumerate() {
        if attribute.access == access {
            mask |= bit_of(place);
        }
    }
    mask
}

/// The mask with the attribute that a word names.
pub(crate) fn with_named<'a>(mask: u16, class: Class, word: Word<'a>) -> Result<u16, Mistake<'a>> {
    let bit = bit_of(place_of(class, word)?);
    if mask & bit != 0 {
        return Err(word.mistake(Why::Twice { found: word.text }));
    }
    Ok(mask | bit)
}

impl Values {
    /// None is given.
    pub(crate) const NEW: Values = Values {
        mask: 0,
        bytes: [[0; MOST]; 16],
        spans: [0; 16],
    };

    /// Takes a word `ATTRIBUTE=VALUE`. At Create only what is given then. A word takes the place of one before it that names more
    /// attributes.
    pub(crate) fn take<'a>(
        &mut self,
        class: Class,
        at_create: bool,
        word: Word<'a>,
    ) -> Result<(), Mistake<'a>> {
        let Some((name, value)) = word.split_value() else {
            return Err(word.mistake(Why::Unexpected {
                found: word.text,
                expected: "ATTRIBUTE=VALUE, id=N or quiet",
            }));
        };
        let (first, last) = places_of(class, name)?;
        let behind = last.saturating_add(1);
        let given = Given {
            name,
            value,
            span: behind.saturating_sub(first),
        };
        for place in first..behind {
            self.take_at(class, at_create, place, &given)?;
        }
        Ok(())
    }

    /// Takes the value of the attribute at a place.
    fn take_at<'a>(
        &mut self,
        class: Class,
        at_create: bool,
        place: usize,
        given: &Given<'a>,
    ) -> Result<(), Mistake<'a>> {
        let (Some(attribute), Some(description), Some(bytes), Some(span)) = (
            class.layout().get(place),
            class.descriptions().get(place),
            self.bytes.get_mut(place),
            self.spans.get_mut(place),
        ) else {
            return Ok(());
        };
        let name = given.name;
        if names(self.mask, place) && *span <= given.span {
            return Err(name.mistake(Why::Twice { found: name.text }));
        }
        if at_create && attribute.access != Access::SetByCreate {
            return Err(name.mistake(Why::Rule {
                words: "this attribute isn't given at create, but by set",
            }));
        }
        *bytes = read_value(description, usize::from(attribute.width), given.value)?;
        *span = given.span;
        self.mask |= bit_of(place);
        Ok(())
    }

    /// Puts the values of the attributes of a mask into contents, without gaps, from a place on. How many bytes they take, whether
    /// there is room for them or not.
    pub(crate) fn pack(
        &self,
        class: Class,
        mask: u16,
        contents: &mut [u8; 32],
        from: usize,
    ) -> usize {
        let mut at = from;
        for (place, attribute) in class.layout().iter().enumerate() {
            if !names(mask, place) {
                continue;
            }
            let width = usize::from(attribute.width);
            let end = at.saturating_add(width);
            if let (Some(bytes), true, true) = (self.bytes.get(place), end <= 32, width <= MOST) {
                contents[at..end].copy_from_slice(&bytes[..width]);
            }
            at = end;
        }
        at.saturating_sub(from)
    }
}
