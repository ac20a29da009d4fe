//! The messages that lines in words ask for.
use crate::attributes::{Values, mask_with, with_named};
use crate::entity::{Entity, read_entity};
use crate::entry::read_entry;
use crate::header::Header;
use crate::statement::Statement;
use managed_entity::{Access, Class};
use omci_msg::Action;
use std::alloc::AllocError;
use text_words::{Mistake, Mistakes, Why, Word, Words, number_at_most};

/// What a line asks for, but for the identifier that it doesn't set.
#[derive(Clone, Copy)]
pub(crate) struct Asked {
    pub(crate) header: Header,
    pub(crate) action: Action,
    pub(crate) entity: Entity,
    pub(crate) contents: [u8; 32],
}

/// The entity of a message that concerns the whole MIB: ONU data (ITU-T G.988, clause 9.1.3).
const WHOLE_MIB: Entity = Entity {
    class: 2,
    instance: 0,
};

/// The most bytes of the values of a set.
const SET_ROOM: usize = 30;

/// Contents that begin with a number.
pub(crate) fn begun_with(number: u16) -> [u8; 32] {
    let mut contents = [0; 32];
    let [high, low] = number.to_be_bytes();
    contents[0] = high;
    contents[1] = low;
    contents
}

/// The class of an entity whose attributes are named.
fn known_class<'a>(entity: Entity, word: Word<'a>) -> Result<Class, Mistake<'a>> {
    Class::of(entity.class).ok_or(word.mistake(Why::Rule {
        words: "the attributes of this class have no words, send its message as `o HEX`",
    }))
}

/// Takes the words behind what a message asks: `id=N` and `quiet`.
fn read_header(words: Words<'_>, mistakes: &mut Mistakes) -> Result<Header, AllocError> {
    let mut header = Header::NEW;
    for word in words {
        match header.take(word) {
            Ok(true) => {}
            Ok(false) => mistakes.put(&word.mistake(Why::Unexpected {
                found: word.text,
                expected: "id=N, quiet or the end of the line",
            }))?,
            Err(mistake) => mistakes.put(&mistake)?,
        }
    }
    Ok(header)
}

/// A message that concerns the whole MIB.
fn read_whole(
    action: Action,
    contents: [u8; 32],
    words: Words<'_>,
    mistakes: &mut Mistakes,
) -> Result<Option<Asked>, AllocError> {
    Ok(Some(Asked {
        header: read_header(words, mistakes)?,
        action,
        entity: WHOLE_MIB,
        contents,
    }))
}

/// `upload-next N`
fn read_upload_next(
    words: Words<'_>,
    mistakes: &mut Mistakes,
) -> Result<Option<Asked>, AllocError> {
    let mut words = words;
    let Some(number) = read_sequence(&mut words, mistakes)? else {
        return Ok(None);
    };
    read_whole(Action::MibUploadNext, begun_with(number), words, mistakes)
}

/// The sequence number that stands next.
fn read_sequence(
    words: &mut Words<'_>,
    mistakes: &mut Mistakes,
) -> Result<Option<u16>, AllocError> {
    let Some(word) = mistakes.take(words.expect("a sequence number"))? else {
        return Ok(None);
    };
    mistakes.take(number_at_most(word, "a sequence number", u16::MAX))
}

/// `delete CLASS INSTANCE`
fn read_delete(words: Words<'_>, mistakes: &mut Mistakes) -> Result<Option<Asked>, AllocError> {
    let mut words = words;
    let Some(entity) = read_entity(&mut words, mistakes)? else {
        return Ok(None);
    };
    Ok(Some(Asked {
        header: read_header(words, mistakes)?,
        action: Action::Delete,
        entity,
        contents: [0; 32],
    }))
}

/// Takes a word of a create or a set.
fn take_value<'a>(
    header: &mut Header,
    values: &mut Values,
    entity: Entity,
    at_create: bool,
    word: Word<'a>,
) -> Result<(), Mistake<'a>> {
    if header.take(word)? {
        return Ok(());
    }
    values.take(known_class(entity, word)?, at_create, word)
}

/// The contents of a create or a set, or how many bytes its values take where there is no room for them.
fn contents_of(entity: Entity, values: &Values, at_create: bool) -> Result<[u8; 32], usize> {
    let Some(class) = Class::of(entity.class) else {
        return Ok([0; 32]);
    };
    if at_create {
        let mut contents = [0; 32];
        let _ = values.pack(
            class,
            mask_with(class, Access::SetByCreate),
            &mut contents,
            0,
        );
        return Ok(contents);
    }
    let mut contents = begun_with(values.mask);
    let bytes = values.pack(class, values.mask, &mut contents, 2);
    if bytes > SET_ROOM {
        Err(bytes)
    } else {
        Ok(contents)
    }
}

/// `create` or `set CLASS INSTANCE ATTRIBUTE=VALUE ..`, behind its first word.
fn read_values(
    first: Word<'_>,
    action: Action,
    words: Words<'_>,
    mistakes: &mut Mistakes,
) -> Result<Option<Asked>, AllocError> {
    let mut words = words;
    let Some(entity) = read_entity(&mut words, mistakes)? else {
        return Ok(None);
    };
    let at_create = action == Action::Create;
    let (mut header, mut values) = (Header::NEW, Values::NEW);
    let mut over = first;
    let mut is_over = false;
    for word in words {
        let taken = take_value(&mut header, &mut values, entity, at_create, word);
        mistakes.take(taken)?;
        if !is_over && contents_of(entity, &values, at_create).is_err() {
            is_over = true;
            over = word;
        }
    }
    match contents_of(entity, &values, at_create) {
        Ok(contents) => Ok(Some(Asked {
            header,
            action,
            entity,
            contents,
        })),
        Err(found) => {
            mistakes.put(&over.mistake(Why::Count {
                found,
                unit: "bytes of values",
                expected: "at most 30 in a set",
            }))?;
            Ok(None)
        }
    }
}

/// Takes a word of a get or a get-next, and gives the mask with the attribute that it names.
fn take_name<'a>(
    header: &mut Header,
    mask: u16,
    entity: Entity,
    word: Word<'a>,
) -> Result<u16, Mistake<'a>> {
    if header.take(word)? {
        return Ok(mask);
    }
    with_named(mask, known_class(entity, word)?, word)
}

/// The header and the mask of the attributes that the words left name.
fn read_names(
    entity: Entity,
    words: Words<'_>,
    mistakes: &mut Mistakes,
) -> Result<(Header, u16), AllocError> {
    let (mut header, mut mask) = (Header::NEW, 0);
    for word in words {
        let taken = take_name(&mut header, mask, entity, word);
        mask = mistakes.take(taken)?.unwrap_or(mask);
    }
    Ok((header, mask))
}

/// `get CLASS INSTANCE ATTRIBUTE ..`
fn read_get(words: Words<'_>, mistakes: &mut Mistakes) -> Result<Option<Asked>, AllocError> {
    let mut words = words;
    let Some(entity) = read_entity(&mut words, mistakes)? else {
        return Ok(None);
    };
    let (header, mask) = read_names(entity, words, mistakes)?;
    Ok(Some(Asked {
        header,
        action: Action::Get,
        entity,
        contents: begun_with(mask),
    }))
}

/// The mask that a get-next has which names no attribute: that of the table.
pub(crate) fn table_mask(entity: Entity) -> u16 {
    Class::of(entity.class).map_or(0, |class| mask_with(class, Access::Table))
}

/// `get-next CLASS INSTANCE N ATTRIBUTE ..`; without an attribute that of the table.
fn read_get_next(words: Words<'_>, mistakes: &mut Mistakes) -> Result<Option<Asked>, AllocError> {
    let mut words = words;
    let Some(entity) = read_entity(&mut words, mistakes)? else {
        return Ok(None);
    };
    let Some(number) = read_sequence(&mut words, mistakes)? else {
        return Ok(None);
    };
    let (header, named) = read_names(entity, words, mistakes)?;
    let mask = if named == 0 {
        table_mask(entity)
    } else {
        named
    };
    let mut contents = begun_with(mask);
    let [high, low] = number.to_be_bytes();
    contents[2] = high;
    contents[3] = low;
    Ok(Some(Asked {
        header,
        action: Action::GetNext,
        entity,
        contents,
    }))
}

/// What a line in words asks for, behind its first word. None where that has a mistake, or isn't a message in words.
pub(crate) fn read_asked(
    first: Word<'_>,
    statement: Statement,
    words: Words<'_>,
    mistakes: &mut Mistakes,
) -> Result<Option<Asked>, AllocError> {
    match statement {
        Statement::Create => read_values(first, Action::Create, words, mistakes),
        Statement::Set => read_values(first, Action::Set, words, mistakes),
        Statement::Delete => read_delete(words, mistakes),
        Statement::Get => read_get(words, mistakes),
        Statement::GetNext => read_get_next(words, mistakes),
        Statement::Upload => read_whole(Action::MibUpload, [0; 32], words, mistakes),
        Statement::UploadNext => read_upload_next(words, mistakes),
        Statement::Reset => read_whole(Action::MibReset, [0; 32], words, mistakes),
        Statement::Entry => read_entry(first, false, words, mistakes),
        Statement::RemoveEntry => read_entry(first, true, words, mistakes),
        Statement::Frame | Statement::Message | Statement::FrameBytes | Statement::Raw => Ok(None),
    }
}
