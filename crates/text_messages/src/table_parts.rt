//! The entries of a table, from the parts of it that Get next returns.
ghost use Rattle.std.specs.Prelude.{◌<◌, IfSome};

use crate::attributes::{TableValue, put_entry, width_at};
use byteorder::{BigEndian, ByteOrder};
use managed_entity::{layout_of, names};
use omci_msg::{Action, Reply, Request};
use std::alloc::AllocError;
use vlan_rule::Entry;

/// How many bytes of a table a Get next returns.
const PART: u32 = 29;

/// The size of an entry in bytes.
const ENTRY: usize = 16;

/// A request for a part of a table.
#[derive(Clone, Copy)]
struct Asked {
    tci: u16,
    part: u16,
}

/// A table whose parts are returned.
#[derive(Clone, Copy)]
struct Table {
    class: u16,
    instance: u16,
    /// The part that is expected next, if that is known.
    next: Option<u16>,
    /// Its size in bytes, as a Get returned it.
    size: Option<u32>,
}

/// Follows the parts of a table through requests and replies, and puts the entries that they complete.
///
/// A part is placed by the sequence number of its request where that stands above the reply, else it is the one behind the part
/// before, unless a refusal came between; the first behind a Get that returned the table's size is part 0. Of a part that can't be placed so no entry is put.
#[derive(Clone, Copy)]
pub(crate) struct TableParts {
    asked: Option<Asked>,
    table: Option<Table>,
    begun: [u8; ENTRY],
    len: usize,
    ghost within: { len < 16 },
}

/// Where the table attribute of a class stands, counted from 0.
fn table_place(class: u16) -> Option<usize>
    ensures { IfSome result (λ place. place < 16) }
{
    let layout = layout_of(class);
    let place = layout
        .iter()
        .position(|attribute| attribute.access.is_table())?;
    if place < 16 { Some(place) } else { None }
}

/// The size of the table that the answer to a Get returns, or None where it returns none.
fn returned_size(class: u16, contents: &[u8; 32]) -> Option<u32> {
    let mask = BigEndian::read_u16(&contents[1..3]);
    let table = table_place(class)?;
    if !matches!(contents[0], 0 | 9) || !names(mask, table) {
        return None;
    }
    let mut rest = &contents[3..28];
    for place in 0..table {
        if names(mask, place) {
            rest = rest.get(width_at(class, place, TableValue::Size)?..)?;
        }
    }
    match rest {
        [a, b, c, d, ..] => Some(u32::from_be_bytes([*a, *b, *c, *d])),
        _ => None,
    }
}

impl TableParts {
    /// Nothing is asked or returned yet.
    pub(crate) fn new() -> Self {
        TableParts {
            asked: None,
            table: None,
            begun: [0; ENTRY],
            len: 0,
        }
    }

    /// Follows a request.
    pub(crate) fn ask(&mut self, request: &Request) {
        if request.action == Action::GetNext {
            self.asked = Some(Asked {
                tci: request.tci,
                part: BigEndian::read_u16(&request.contents[2..4]),
            });
        }
    }

    /// Follows a reply, and puts the entries that it completes.
    pub(crate) fn follow(&mut self, text: &mut String, reply: &Reply) -> Result<(), AllocError> {
        match reply.action {
            Action::Get => self.begin(reply),
            Action::GetNext if reply.contents[0] == 0 => return self.put_part(text, reply),
            Action::GetNext => self.lose_place(),
            _ => {}
        }
        Ok(())
    }

    /// After a refusal no part is expected.
    fn lose_place(&mut self) {
        if let Some(table) = self.table {
            self.table = Some(Table {
                next: None,
                ..table
            });
        }
    }

    /// Begins with a table whose size is returned.
    fn begin(&mut self, reply: &Reply) {
        let Some(size) = returned_size(reply.class, &reply.contents) else {
            return;
        };
        self.len = 0;
        self.table = Some(Table {
            class: reply.class,
            instance: reply.instance,
            next: Some(0),
            size: Some(size),
        });
    }

    /// The table that a reply is a part of, as far as it is known.
    fn table_of(&self, reply: &Reply) -> Table {
        match self.table {
            Some(table) if table.class == reply.class && table.instance == reply.instance => table,
            _ => Table {
                class: reply.class,
                instance: reply.instance,
                next: None,
                size: None,
            },
        }
    }

    /// Which part a reply is, if that is known.
    fn part_of(&self, table: &Table, reply: &Reply) -> Option<u16> {
        match self.asked {
            Some(asked) if asked.tci == reply.tci => Some(asked.part),
            _ => table.next,
        }
    }

    /// Puts the entries that a part completes.
    fn put_part(&mut self, text: &mut String, reply: &Reply) -> Result<(), AllocError> {
        let mask = BigEndian::read_u16(&reply.contents[1..3]);
        match table_place(reply.class) {
            Some(place) if names(mask, place) => {}
            _ => return Ok(()),
        }
        let mut table = self.table_of(reply);
        let Some(part) = self.part_of(&table, reply) else {
            return Ok(());
        };
        let offset = PART * u32::from(part);
        if table.next != Some(part) {
            self.len = 0;
        }
        table.next = part.checked_add(1);
        self.table = Some(table);
        self.put_bytes(text, &table, offset, &reply.contents[3..])
    }

    /// Puts the entries that bytes complete, of which the first has this place in the table.
    fn put_bytes(
        &mut self,
        text: &mut String,
        table: &Table,
        offset: u32,
        bytes: &[u8],
    ) -> Result<(), AllocError> {
        let mut at = offset;
        for byte in bytes {
            if at as usize % ENTRY == self.len {
                self.put_byte(text, table, at, *byte)?;
            }
            at = at.saturating_add(1);
        }
        Ok(())
    }

    /// Takes the next byte of the entry that is begun, and puts the entry where it is whole.
    fn put_byte(
        &mut self,
        text: &mut String,
        table: &Table,
        at: u32,
        byte: u8,
    ) -> Result<(), AllocError> {
        self.begun[self.len] = byte;
        if self.len + 1 < ENTRY {
            self.len += 1;
            return Ok(());
        }
        self.len = 0;
        let is_of_table = match table.size {
            Some(size) => at < size,
            None => self.begun != [0; ENTRY],
        };
        if !is_of_table {
            return Ok(());
        }
        put_entry(text, at / 16, &Entry(self.begun))
    }
}
