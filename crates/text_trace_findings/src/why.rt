//! Why a message is refused.
use byteorder::{BigEndian, ByteOrder};
use managed_entity::{descriptions_of, names};
use mib_state::Mib;
use omci_msg::{Action, Reply, Request};
use std::fmt;
use vlan_rule::TableFault;

/// Why a message is refused (ITU-T G.988, annex A, and what this model holds).
#[derive(Clone, Copy)]
pub enum Why {
    /// So many instances of the class are held, and there may be no more.
    NoRoom(usize),
    /// The table refuses the entry.
    Table(TableFault),
    /// A Create of instance 65535, which no instance has.
    NoNumber,
    /// The attributes that a Set names have over 30 bytes.
    TooLong,
    /// A Get next of a table that no Get latched, or behind its end.
    NoPart,
    /// Instances of the class aren't created and deleted.
    AlwaysThere,
    /// An action that has no name.
    NoAction,
    /// There is no such instance.
    NoInstance,
    /// There is such an instance.
    Exists,
    /// Of the attributes that are named, the class doesn't have some, and others can't be written, or find no room in the answer.
    Attributes {
        class: u16,
        unknown: u16,
        failed: u16,
    },
    /// The result says it.
    Result,
}

/// How many instances of a class are held.
fn held(mib: &Mib, class: u16) -> usize {
    for place in 0..usize::from(u16::MAX) {
        if mib.instance_at(class, place).is_none() {
            return place;
        }
    }
    usize::from(u16::MAX)
}

/// Two bytes of contents as a mask.
fn mask_at(contents: &[u8; 32], place: usize) -> u16 {
    match contents.get(place..place.saturating_add(2)) {
        Some(bytes) if bytes.len() == 2 => BigEndian::read_u16(bytes),
        _ => 0,
    }
}

/// Which attributes fail, by the two masks of the answer.
fn attributes_of(reply: &Reply) -> Why {
    let (unknown, failed) = match reply.action {
        Action::Get => (28, 30),
        _ => (1, 3),
    };
    Why::Attributes {
        class: reply.class,
        unknown: mask_at(&reply.contents, unknown),
        failed: mask_at(&reply.contents, failed),
    }
}

impl Why {
    /// Why a request is refused with this reply, by the entities before it and by what a table says of the entry that it puts.
    pub(crate) fn of(
        mib: &Mib,
        request: &Request,
        reply: &Reply,
        table: Option<TableFault>,
    ) -> Why {
        let code = reply.contents[0];
        if let Some(fault) = table
            && (code == 1 || code == 3)
        {
            return Why::Table(fault);
        }
        match code {
            1 => Why::NoRoom(held(mib, request.class)),
            2 => of_action(request.action),
            3 => of_parameter(request.action),
            5 => Why::NoInstance,
            7 => Why::Exists,
            9 => attributes_of(reply),
            _ => Why::Result,
        }
    }
}

/// Why an action isn't supported.
fn of_action(action: Action) -> Why {
    match action {
        Action::Create | Action::Delete => Why::AlwaysThere,
        _ => Why::NoAction,
    }
}

/// Which parameter of an action is wrong, of a request that puts no bad entry.
fn of_parameter(action: Action) -> Why {
    match action {
        Action::Create => Why::NoNumber,
        Action::GetNext => Why::NoPart,
        _ => Why::TooLong,
    }
}

/// The attributes of a class that a mask names, by their names; by their numbers where the class hasn't so many.
#[derive(Clone, Copy)]
struct MaskWords {
    class: u16,
    mask: u16,
}

impl fmt::Display for MaskWords {
    fn fmt<W: fmt::Write>(&self, f: &mut fmt::Formatter<W>) -> fmt::Result {
        let mut separator = "";
        for place in 0..16 {
            if names(self.mask, place) {
                f.write_str(separator)?;
                put_name(f, self.class, place)?;
                separator = ", ";
            }
        }
        Ok(())
    }
}

/// Puts the name of the attribute at a place.
fn put_name<W: fmt::Write>(f: &mut fmt::Formatter<W>, class: u16, place: usize) -> fmt::Result {
    match descriptions_of(class).get(place) {
        Some(description) => f.write_str(description.name),
        None => {
            let number = place.wrapping_add(1);
            write!(f, "attribute {number}")
        }
    }
}

/// Puts which attributes fail.
fn put_attributes<W: fmt::Write>(
    f: &mut fmt::Formatter<W>,
    class: u16,
    unknown: u16,
    failed: u16,
) -> fmt::Result {
    if unknown != 0 {
        let mask = MaskWords {
            class,
            mask: unknown,
        };
        write!(f, "the class doesn't have: {mask}")?;
    }
    if unknown != 0 && failed != 0 {
        f.write_str("; ")?;
    }
    if failed != 0 {
        let mask = MaskWords {
            class,
            mask: failed,
        };
        write!(f, "failed: {mask}")?;
    }
    Ok(())
}

impl fmt::Display for Why {
    fn fmt<W: fmt::Write>(&self, f: &mut fmt::Formatter<W>) -> fmt::Result {
        match self {
            Why::NoRoom(held) => write!(
                f,
                "there is no room for another instance: {held} of the class are held"
            ),
            Why::Table(fault) => write!(f, "{fault}"),
            Why::NoNumber => f.write_str("no instance has the number 65535"),
            Why::TooLong => f.write_str("the attributes that it names have over 30 bytes"),
            Why::NoPart => {
                f.write_str("no Get latched the table before, or the part lies behind its end")
            }
            Why::AlwaysThere => f.write_str("instances of the class aren't created or deleted"),
            Why::NoAction => f.write_str("no action has this number"),
            Why::NoInstance => f.write_str("no such instance is held"),
            Why::Exists => f.write_str("such an instance is held already"),
            Why::Attributes {
                class,
                unknown,
                failed,
            } => put_attributes(f, *class, *unknown, *failed),
            Why::Result => f.write_str("as the result says"),
        }
    }
}
