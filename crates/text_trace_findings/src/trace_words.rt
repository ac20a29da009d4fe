//! What is found of a trace, in words.
use crate::trace::{Head, Missing, TraceFault};
use omci_msg::Action;
use std::fmt::{self, Display};
use text_entities::{EntityWords, standard_class_name};
use text_messages::{action_name, result_name};

/// An action in words: its name, or its number where it has none.
#[derive(Clone, Copy)]
struct ActionWords(Action);

impl fmt::Display for ActionWords {
    fn fmt<W: fmt::Write>(&self, f: &mut fmt::Formatter<W>) -> fmt::Result {
        match action_name(self.0) {
            Some(name) => f.write_str(name),
            None => write!(f, "action {}", self.0.code()),
        }
    }
}

/// A class in words: its name and its number.
#[derive(Clone, Copy)]
struct ClassWords(u16);

impl fmt::Display for ClassWords {
    fn fmt<W: fmt::Write>(&self, f: &mut fmt::Formatter<W>) -> fmt::Result {
        let name = standard_class_name(self.0).unwrap_or("unknown class");
        write!(f, "{name} ({})", self.0)
    }
}

impl fmt::Display for Head {
    fn fmt<W: fmt::Write>(&self, f: &mut fmt::Formatter<W>) -> fmt::Result {
        match self.action {
            Some(action) => ActionWords(action).fmt(f)?,
            None => f.write_str("a message")?,
        }
        match (self.class, self.instance) {
            (Some(class), Some(instance)) => {
                let entity = EntityWords { class, instance };
                write!(f, ", {entity}")
            }
            (Some(class), None) => {
                let class = ClassWords(class);
                write!(f, ", {class}")
            }
            (None, _) => Ok(()),
        }
    }
}

/// Puts a class that the model doesn't have.
fn put_class<W: fmt::Write>(f: &mut fmt::Formatter<W>, class: u16, messages: u64) -> fmt::Result {
    let words = ClassWords(class);
    let real = match standard_class_name(class) {
        Some(_) => "a real unit has it; ",
        None => "",
    };
    write!(
        f,
        "{words}: {real}this model answers 4, unknown managed entity, to {messages}"
    )?;
    put_count(f, messages)
}

/// Puts an action that the model doesn't have.
fn put_action<W: fmt::Write>(
    f: &mut fmt::Formatter<W>,
    action: Action,
    messages: u64,
) -> fmt::Result {
    let words = ActionWords(action);
    write!(
        f,
        "{words}: a real unit carries it out; this model answers 2, command not supported, to {messages}"
    )?;
    put_count(f, messages)
}

/// Puts what was counted.
fn put_count<W: fmt::Write>(f: &mut fmt::Formatter<W>, messages: u64) -> fmt::Result {
    f.write_str(if messages == 1 {
        " message"
    } else {
        " messages"
    })
}

/// Puts a mapper that hangs on a bridge, and how the same is said here.
fn put_bridged<W: fmt::Write>(
    f: &mut fmt::Formatter<W>,
    mapper: u16,
    uni: Option<u16>,
) -> fmt::Result {
    write!(
        f,
        "mapper 0x{mapper:04x} has TP type 0, and hangs on a bridge by this port; the bridge isn't modelled, so no frame reaches the mapper; the same service is said here by tp-type=pptp tp="
    )?;
    match uni {
        Some(uni) => write!(f, "0x{uni:04x} of the mapper"),
        None => f.write_str("UNI of the mapper"),
    }
}

impl fmt::Display for TraceFault {
    fn fmt<W: fmt::Write>(&self, f: &mut fmt::Formatter<W>) -> fmt::Result {
        match self {
            TraceFault::Empty => f.write_str("it has no message"),
            TraceFault::Faulty { head, fault } => {
                let number = fault.code();
                write!(f, "{head}: fault {number}, {fault}")
            }
            TraceFault::Refused { head, code, why } => {
                let name = result_name(*code);
                write!(f, "{head}: result {code}, {name}: {why}")
            }
            TraceFault::NotModelled { missing, messages } => match missing {
                Missing::Class(class) => put_class(f, *class, *messages),
                Missing::Action(action) => put_action(f, *action, *messages),
            },
            TraceFault::Bridged { mapper, uni } => put_bridged(f, *mapper, *uni),
            TraceFault::EntryNotHeld { table, key } => write!(
                f,
                "it removes the entry of key {key:016x} from vlan 0x{table:04x}, which doesn't hold one"
            ),
            TraceFault::CopyOfNoTag { table, key } => write!(
                f,
                "the entry of key {key:016x} of vlan 0x{table:04x} is for frames without tags, and copies from a received tag, which is 0 then"
            ),
            TraceFault::EntryOverwritten { table, key, set_by } => write!(
                f,
                "it overwrites the entry of key {key:016x} of vlan 0x{table:04x}, which line {set_by} set"
            ),
        }
    }
}
