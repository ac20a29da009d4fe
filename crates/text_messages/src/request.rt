//! A request as text.
use crate::attributes::{
    TableValue, given_mask, put_contents, put_names, put_rest, put_unknown_values, put_values,
};
use crate::names::ActionWords;
use byteorder::{BigEndian, ByteOrder};
use managed_entity::{class_name, mask_of};
use omci_msg::{Action, Request};
use std::alloc::AllocError;
use text_entities::EntityWords;

/// Puts a request as text: a line with the transaction correlation identifier, the action, the class, the instance and whether
/// an answer is wanted; and below it lines with what the contents say (ITU-T G.988, clause 11.2 and annex A).
pub fn put_request(text: &mut String, request: &Request) -> Result<(), AllocError> {
    let tci = request.tci;
    let action = ActionWords(request.action);
    let entity = EntityWords {
        class: request.class,
        instance: request.instance,
    };
    let wish = wish_words(request.wants_answer);
    writeln!(text, "request 0x{tci:04x}: {action}, {entity}, {wish}")?;
    put_asked(text, request)
}

/// Whether an answer is wanted, in words.
fn wish_words(wants_answer: bool) -> &'static str {
    if wants_answer {
        "answer wanted"
    } else {
        "no answer wanted"
    }
}

/// Puts what the contents of a request say.
fn put_asked(text: &mut String, request: &Request) -> Result<(), AllocError> {
    let contents = &request.contents;
    match request.action {
        Action::Delete | Action::MibUpload | Action::MibReset => put_rest(text, contents),
        Action::MibUploadNext => {
            put_sequence(text, &contents[..2])?;
            put_rest(text, &contents[2..])
        }
        Action::Other(_) => put_contents(text, contents),
        Action::Get | Action::GetNext => put_named(text, request),
        Action::Create | Action::Set if class_name(request.class).is_some() => {
            put_given(text, request)
        }
        Action::Create => put_contents(text, contents),
        Action::Set => put_unknown_set(text, request),
    }
}

/// Puts the attributes that a Create or a Set gives.
fn put_given(text: &mut String, request: &Request) -> Result<(), AllocError> {
    let contents = &request.contents;
    let (mask, values) = match request.action {
        Action::Create => (given_mask(request.class), &contents[..]),
        _ => (mask_of(contents), &contents[2..]),
    };
    let rest = put_values(text, request.class, mask, TableValue::Entry, values)?;
    put_rest(text, rest)
}

/// Puts what a Set gives an instance whose attributes aren't known.
fn put_unknown_set(text: &mut String, request: &Request) -> Result<(), AllocError> {
    let contents = &request.contents;
    put_names(text, "attributes", request.class, mask_of(contents))?;
    put_unknown_values(text, &contents[2..])
}

/// Puts the names of the attributes that a Get or a Get next asks for.
fn put_named(text: &mut String, request: &Request) -> Result<(), AllocError> {
    let contents = &request.contents;
    put_names(text, "attributes", request.class, mask_of(contents))?;
    let (_, behind) = contents.split_at(2);
    if request.action != Action::GetNext {
        return put_rest(text, behind);
    }
    put_sequence(text, &contents[2..4])?;
    put_rest(text, &contents[4..])
}

/// Puts the sequence number that two bytes are.
fn put_sequence(text: &mut String, bytes: &[u8]) -> Result<(), AllocError> {
    let number = match bytes {
        [high, low] => u16::from_be_bytes([*high, *low]),
        _ => 0,
    };
    writeln!(text, "  sequence number: {number}")
}
