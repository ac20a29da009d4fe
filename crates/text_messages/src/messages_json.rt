//! Messages as members of an object of JSON.
use crate::attributes::{TableValue, given_mask};
use crate::attributes_json::{put_instance, put_names_json, put_values_json};
use crate::names::{action_name, result_name};
use byteorder::{BigEndian, ByteOrder};
use json::Writer;
use managed_entity::mask_of;
use omci_msg::{Action, Reply, Request};
use std::alloc::{AllocError, Global};
use text_entities::{HexWords, put_flag, put_number, put_text, put_words};

/// Puts an action: `action_code`, and `action`, its name, where it has one.
fn put_action(object: &mut Writer, action: Action) -> Result<(), AllocError> {
    put_number(object, "action_code", u64::from(action.code()))?;
    match action_name(action) {
        Some(name) => put_text(object, "action", name),
        None => Ok(()),
    }
}

/// Puts a request: its header, and what its contents say.
pub(crate) fn put_request_json(
    alloc: Global,
    object: &mut Writer,
    request: &Request,
) -> Result<(), AllocError> {
    put_number(object, "tci", u64::from(request.tci))?;
    put_action(object, request.action)?;
    put_flag(object, "wants_answer", request.wants_answer)?;
    put_instance(object, request.class, request.instance)?;
    let contents = &request.contents;
    let class = request.class;
    match request.action {
        Action::Create => {
            let mask = given_mask(class);
            put_values_json(alloc, object, class, mask, TableValue::Entry, contents)
        }
        Action::Set => {
            let mask = mask_of(contents);
            put_values_json(
                alloc,
                object,
                class,
                mask,
                TableValue::Entry,
                &contents[2..],
            )
        }
        Action::Get => put_names_json(object, "asked", class, mask_of(contents)),
        Action::GetNext => {
            put_names_json(object, "asked", class, mask_of(contents))?;
            put_sequence(object, &contents[2..4])
        }
        Action::MibUploadNext => put_sequence(object, &contents[..2]),
        Action::Delete | Action::MibUpload | Action::MibReset => Ok(()),
        Action::Other(_) => put_words(alloc, object, "contents", &HexWords(contents)),
    }
}

/// Puts the sequence number that two bytes are.
fn put_sequence(object: &mut Writer, bytes: &[u8]) -> Result<(), AllocError> {
    let number = match bytes {
        [high, low] => u16::from_be_bytes([*high, *low]),
        _ => 0,
    };
    put_number(object, "sequence_number", u64::from(number))
}

/// Puts a reply: its header, its result where it has one, and what it returns.
pub(crate) fn put_reply_json(
    alloc: Global,
    object: &mut Writer,
    reply: &Reply,
) -> Result<(), AllocError> {
    put_number(object, "tci", u64::from(reply.tci))?;
    put_action(object, reply.action)?;
    put_instance(object, reply.class, reply.instance)?;
    let contents = &reply.contents;
    match reply.action {
        Action::MibUpload => {
            put_number(object, "rows", u64::from(BigEndian::read_u16(contents)))
        }
        Action::MibUploadNext => put_row(alloc, object, contents),
        _ => put_result(alloc, object, reply),
    }
}

/// Puts `row`, an object, where a row of a MIB upload is returned.
fn put_row(alloc: Global, object: &mut Writer, contents: &[u8; 32]) -> Result<(), AllocError> {
    let class = BigEndian::read_u16(contents);
    let instance = BigEndian::read_u16(&contents[2..4]);
    let mask = BigEndian::read_u16(&contents[4..6]);
    if class == 0 && instance == 0 && mask == 0 {
        return Ok(());
    }
    object.key("row")?;
    object.begin_object()?;
    put_instance(object, class, instance)?;
    put_values_json(alloc, object, class, mask, TableValue::Size, &contents[6..])?;
    object.end_object()
}

/// Puts a result and its name, and what follows it.
fn put_result(alloc: Global, object: &mut Writer, reply: &Reply) -> Result<(), AllocError> {
    let contents = &reply.contents;
    let code = contents[0];
    put_number(object, "result", u64::from(code))?;
    put_text(object, "result_name", result_name(code))?;
    match reply.action {
        Action::Get if matches!(code, 0 | 9) => put_got(alloc, object, reply.class, contents),
        Action::GetNext if code == 0 => {
            let mask = BigEndian::read_u16(&contents[1..3]);
            put_names_json(object, "asked", reply.class, mask)?;
            put_words(alloc, object, "data", &HexWords(&contents[3..]))
        }
        Action::Set if code == 9 => {
            let unknown = BigEndian::read_u16(&contents[1..3]);
            let failed = BigEndian::read_u16(&contents[3..5]);
            put_names_json(object, "unknown", reply.class, unknown)?;
            put_names_json(object, "failed", reply.class, failed)
        }
        _ => Ok(()),
    }
}

/// Puts what a Get returns.
fn put_got(
    alloc: Global,
    object: &mut Writer,
    class: u16,
    contents: &[u8; 32],
) -> Result<(), AllocError> {
    let mask = BigEndian::read_u16(&contents[1..3]);
    let unknown = BigEndian::read_u16(&contents[28..30]);
    let failed = BigEndian::read_u16(&contents[30..]);
    put_values_json(
        alloc,
        object,
        class,
        mask,
        TableValue::Size,
        &contents[3..28],
    )?;
    put_names_json(object, "unknown", class, unknown)?;
    put_names_json(object, "failed", class, failed)
}
