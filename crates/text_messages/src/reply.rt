//! A reply as text.
use crate::attributes::{TableValue, put_names, put_rest, put_unknown_values, put_values};
use crate::names::{ActionWords, result_name};
use byteorder::{BigEndian, ByteOrder};
use managed_entity::class_name;
use omci_msg::{Action, Reply};
use std::alloc::AllocError;
use text_entities::{EntityWords, HexWords};

/// Puts a reply as text: a line with the transaction correlation identifier of the request, its action, class and instance, and
/// the result where the answer has one; and below it lines with what is returned (ITU-T G.988, clause 11.2 and annex A).
pub fn put_reply(text: &mut String, reply: &Reply) -> Result<(), AllocError> {
    let tci = reply.tci;
    let action = ActionWords(reply.action);
    let entity = EntityWords {
        class: reply.class,
        instance: reply.instance,
    };
    write!(text, "reply 0x{tci:04x}: {action}, {entity}")?;
    match reply.action {
        Action::MibUpload => put_count(text, &reply.contents),
        Action::MibUploadNext => put_row(text, &reply.contents),
        _ => put_result(text, reply),
    }
}

/// Puts the number of rows of a MIB upload.
fn put_count(text: &mut String, contents: &[u8; 32]) -> Result<(), AllocError> {
    let count = BigEndian::read_u16(contents);
    writeln!(text, ", {count} rows")?;
    put_rest(text, &contents[2..])
}

/// Puts a row of a MIB upload: its class, instance and attributes. Where no row has the number that was asked for, the contents
/// are 0.
fn put_row(text: &mut String, contents: &[u8; 32]) -> Result<(), AllocError> {
    let class = BigEndian::read_u16(contents);
    let instance = BigEndian::read_u16(&contents[2..4]);
    let mask = BigEndian::read_u16(&contents[4..6]);
    if class == 0 && instance == 0 && mask == 0 {
        text.push_str(", no row\n")?;
        return put_rest(text, &contents[6..]);
    }
    let entity = EntityWords { class, instance };
    writeln!(text, ", row of {entity}")?;
    put_returned(text, class, mask, &contents[6..])
}

/// Puts the attributes that a mask names, and the bytes behind them; where they aren't known, their numbers and the bytes.
fn put_returned(text: &mut String, class: u16, mask: u16, values: &[u8]) -> Result<(), AllocError> {
    if class_name(class).is_none() {
        put_names(text, "attributes", class, mask)?;
        return put_unknown_values(text, values);
    }
    let rest = put_values(text, class, mask, TableValue::Size, values)?;
    put_rest(text, rest)
}

/// Puts the result of an answer, and what follows it.
fn put_result(text: &mut String, reply: &Reply) -> Result<(), AllocError> {
    let contents = &reply.contents;
    let code = contents[0];
    let name = result_name(code);
    writeln!(text, ", result {code} ({name})")?;
    match reply.action {
        Action::Get if matches!(code, 0 | 9) => put_got(text, reply.class, contents),
        Action::GetNext if code == 0 => put_part(text, reply.class, contents),
        Action::Set if code == 9 => put_failed(text, reply.class, contents),
        _ => put_rest(text, &contents[1..]),
    }
}

/// Puts what a Get returns: the attributes of the mask, and the names of those that it couldn't return.
fn put_got(text: &mut String, class: u16, contents: &[u8; 32]) -> Result<(), AllocError> {
    let mask = BigEndian::read_u16(&contents[1..3]);
    let unknown = BigEndian::read_u16(&contents[28..30]);
    let left_out = BigEndian::read_u16(&contents[30..]);
    put_returned(text, class, mask, &contents[3..28])?;
    put_names(text, "unknown", class, unknown)?;
    put_names(text, "failed", class, left_out)
}

/// Puts the part of a table that a Get next returns.
fn put_part(text: &mut String, class: u16, contents: &[u8; 32]) -> Result<(), AllocError> {
    let mask = BigEndian::read_u16(&contents[1..3]);
    put_names(text, "attributes", class, mask)?;
    if class_name(class).is_none() {
        return put_unknown_values(text, &contents[3..]);
    }
    let part = HexWords(&contents[3..]);
    writeln!(text, "  data: {part}")
}

/// Puts the names of the attributes for which a Set fails.
fn put_failed(text: &mut String, class: u16, contents: &[u8; 32]) -> Result<(), AllocError> {
    let unknown = BigEndian::read_u16(&contents[1..3]);
    let failed = BigEndian::read_u16(&contents[3..5]);
    put_names(text, "unknown", class, unknown)?;
    put_names(text, "failed", class, failed)?;
    put_rest(text, &contents[5..])
}
