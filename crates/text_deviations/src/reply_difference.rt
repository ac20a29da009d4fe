//! What tells a reply that was seen from the model's, in words.
use crate::bytes_difference::BytesDifference;
use managed_entity::Description;
use omci_msg::Action;
use std::fmt;
use text_entities::{ValueWords, standard_class_name};
use text_messages::{action_name, result_name};

/// What tells a reply that was seen from the model's.
#[derive(Clone, Copy)]
pub(crate) enum ReplyDifference<'j> {
    /// The transaction correlation identifier.
    Identifier {
        seen: u16,
        model: u16,
    },
    Action {
        seen: Action,
        model: Action,
    },
    Class {
        seen: u16,
        model: u16,
    },
    Instance {
        seen: u16,
        model: u16,
    },
    Result {
        seen: u8,
        model: u8,
    },
    /// A mask, by its name.
    Mask {
        name: &'static str,
        seen: u16,
        model: u16,
    },
    /// The value of an attribute.
    Attribute {
        attribute: &'static Description,
        seen: &'j [u8],
        model: &'j [u8],
    },
    /// Other bytes of the contents.
    Contents(BytesDifference),
}

impl fmt::Display for ReplyDifference<'_> {
    fn fmt<W: fmt::Write>(&self, f: &mut fmt::Formatter<W>) -> fmt::Result {
        match *self {
            ReplyDifference::Identifier { seen, model } => {
                write!(f, "transaction identifier 0x{seen:04x} for 0x{model:04x}")
            }
            ReplyDifference::Action { seen, model } => {
                let (seen, model) = (ActionNumber(seen), ActionNumber(model));
                write!(f, "action {seen} for {model}")
            }
            ReplyDifference::Class { seen, model } => {
                let (seen, model) = (ClassNumber(seen), ClassNumber(model));
                write!(f, "class {seen} for {model}")
            }
            ReplyDifference::Instance { seen, model } => {
                write!(f, "instance 0x{seen:04x} for 0x{model:04x}")
            }
            ReplyDifference::Result { seen, model } => {
                let (seen_name, model_name) = (result_name(seen), result_name(model));
                write!(f, "result {seen} ({seen_name}) for {model} ({model_name})")
            }
            ReplyDifference::Mask { name, seen, model } => {
                write!(f, "{name} mask 0x{seen:04x} for 0x{model:04x}")
            }
            ReplyDifference::Attribute {
                attribute,
                seen,
                model,
            } => write_attribute(f, attribute, seen, model),
            ReplyDifference::Contents(bytes) => write!(f, "contents, {bytes}"),
        }
    }
}

/// Writes an attribute and its two values.
fn write_attribute<W: fmt::Write>(
    f: &mut fmt::Formatter<W>,
    attribute: &Description,
    seen: &[u8],
    model: &[u8],
) -> fmt::Result {
    let name = attribute.name;
    let seen = ValueWords {
        attribute,
        bytes: seen,
    };
    let model = ValueWords {
        attribute,
        bytes: model,
    };
    write!(f, "attribute {name}, {seen} for {model}")
}

/// The number of an action, and its name behind it where it has one.
#[derive(Clone, Copy)]
struct ActionNumber(Action);

impl fmt::Display for ActionNumber {
    fn fmt<W: fmt::Write>(&self, f: &mut fmt::Formatter<W>) -> fmt::Result {
        let code = self.0.code();
        match action_name(self.0) {
            Some(name) => write!(f, "{code} ({name})"),
            None => write!(f, "{code}"),
        }
    }
}

/// The number of a class, and its name behind it where it has one.
#[derive(Clone, Copy)]
struct ClassNumber(u16);

impl fmt::Display for ClassNumber {
    fn fmt<W: fmt::Write>(&self, f: &mut fmt::Formatter<W>) -> fmt::Result {
        let class = self.0;
        match standard_class_name(class) {
            Some(name) => write!(f, "{class} ({name})"),
            None => write!(f, "{class}"),
        }
    }
}
