//! A request in words.
use crate::attribute_words::{put_names, put_values};
use crate::attributes::mask_with;
use crate::entry_words::put_entry;
use crate::identifiers::Identifiers;
use managed_entity::{Access, Class, mask_of};
use omci_msg::{Action, Request};
use std::alloc::AllocError;
use vlan_rule::Entry;

/// Puts the first word, the class and the instance.
fn put_entity(
    text: &mut String,
    statement: &str,
    class: Class,
    instance: u16,
) -> Result<(), AllocError> {
    let word = class.word();
    write!(text, "{statement} {word} 0x{instance:04x}")
}

/// The entry in the contents of a set.
fn entry_in(contents: &[u8; 32]) -> Entry {
    let mut entry = [0; 16];
    entry.copy_from_slice(&contents[2..18]);
    Entry(entry)
}

/// Puts a set, of one entry or of other attributes.
fn put_set(text: &mut String, class: Class, request: &Request) -> Result<bool, AllocError> {
    let mask = mask_of(&request.contents);
    let table = mask_with(class, Access::Table);
    if mask == table && table != 0 {
        return put_entry(text, class, request.instance, &entry_in(&request.contents));
    }
    put_entity(text, "set", class, request.instance)?;
    put_values(text, class, mask, false, &request.contents[2..])
}

/// Puts a get-next; the table's attribute needs no name.
fn put_get_next(text: &mut String, class: Class, request: &Request) -> Result<(), AllocError> {
    let mask = mask_of(&request.contents);
    let [_, _, high, low, ..] = request.contents;
    put_entity(text, "get-next", class, request.instance)?;
    let number = u16::from_be_bytes([high, low]);
    write!(text, " {number}")?;
    if mask == mask_with(class, Access::Table) {
        return Ok(());
    }
    put_names(text, class, mask)
}

/// Puts a message that concerns an entity of a class. Whether it has words.
fn put_of_class(text: &mut String, class: Class, request: &Request) -> Result<bool, AllocError> {
    let (instance, contents) = (request.instance, &request.contents);
    match request.action {
        Action::Create => {
            put_entity(text, "create", class, instance)?;
            let mask = mask_with(class, Access::SetByCreate);
            put_values(text, class, mask, true, contents)
        }
        Action::Set => put_set(text, class, request),
        Action::Delete => {
            put_entity(text, "delete", class, instance)?;
            Ok(true)
        }
        Action::Get => {
            put_entity(text, "get", class, instance)?;
            put_names(text, class, mask_of(contents))?;
            Ok(true)
        }
        Action::GetNext => {
            put_get_next(text, class, request)?;
            Ok(true)
        }
        _ => Ok(false),
    }
}

/// Puts what a request asks. Whether it has words.
fn put_asked(text: &mut String, request: &Request) -> Result<bool, AllocError> {
    match request.action {
        Action::MibUpload => text.push_str("upload")?,
        Action::MibReset => text.push_str("reset")?,
        Action::MibUploadNext => write!(text, "upload-next {}", mask_of(&request.contents))?,
        _ => {
            let Some(class) = Class::of(request.class) else {
                return Ok(false);
            };
            return put_of_class(text, class, request);
        }
    }
    Ok(true)
}

/// Puts a request in words, with its identifier where it isn't the next of the count. Whether it has words; that they ask for the same
/// request isn't looked at here.
pub(crate) fn put_request(
    text: &mut String,
    request: &Request,
    identifiers: &Identifiers,
) -> Result<bool, AllocError> {
    if !put_asked(text, request)? {
        return Ok(false);
    }
    if request.tci != identifiers.next() {
        write!(text, " id={}", request.tci)?;
    }
    if !request.wants_answer {
        text.push_str(" quiet")?;
    }
    Ok(true)
}
