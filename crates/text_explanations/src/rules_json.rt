//! The table in force at a port, as JSON.
use crate::rules::shadow_number;
use crate::traced::{PortEntries, Traced};
use explain::{TableInForce, table_in_force, tried_order};
use json::Writer;
use std::alloc::{AllocError, Global};
use std::fmt;
use std::io::Write;
use text_entities::{FORMAT, JsonText, put_number, put_table_entry};
use text_writing::TextFault;

/// Writes the table in force at a port as one object of JSON (RFC 8259): `format`, 1; `port`; `table`; and `entries`. The table is an
/// object with `points_to`, which is `none`, `port` or `mapper`, and with `instance`, `mapper`, `input_tpid` and `output_tpid` where there
/// are such. The entries are an array with an object for each, on a line of its own, in the order in which they are tried for a frame:
/// `number` in that order and `place` in the table, each from 0; `rank`; `entry` in hexadecimal; its rule as
/// [`put_rule`](text_entities::put_rule) puts it; `line`, the trace's line that set it; and `never_used_for` where an earlier entry admits
/// all that it admits, whose number it is.
pub fn write_rules_json<W: Write>(
    alloc: Global,
    traced: &Traced<'_>,
    port: u16,
    writer: &mut W,
) -> Result<(), TextFault> {
    let entries = PortEntries::at(traced, port);
    let mut text = JsonText::new(alloc);
    begin_entries(alloc, traced, port, &text, writer)?;
    if let Some(entries) = entries {
        for (number, place) in tried_order(entries.table).iter().enumerate() {
            write_entry(alloc, &mut text, &entries, number, *place, writer)?;
        }
    }
    text.end(writer, "}")
}

/// Begins the array of the entries, behind the port and the table in force.
fn begin_entries<W: Write>(
    alloc: Global,
    traced: &Traced<'_>,
    port: u16,
    text: &JsonText,
    writer: &mut W,
) -> Result<(), TextFault> {
    let table = TableObject(table_in_force(traced.mib, port), traced);
    let front = format!(in alloc; "{FORMAT}\"port\":{port},\"table\":{table},\"entries\":")?;
    text.begin(writer, &front)
}

/// The table in force as an object of JSON.
#[derive(Clone, Copy)]
struct TableObject<'a>(TableInForce, &'a Traced<'a>);

impl fmt::Display for TableObject<'_> {
    fn fmt<W: fmt::Write>(&self, f: &mut fmt::Formatter<W>) -> fmt::Result {
        let tpids = TpidMembers(self.1, instance_of(self.0));
        match self.0 {
            TableInForce::NoTable => f.write_str("{\"points_to\":\"none\"}"),
            TableInForce::OfPort(instance) => {
                write!(
                    f,
                    "{{\"points_to\":\"port\",\"instance\":{instance}{tpids}}}"
                )
            }
            TableInForce::OfMapper { mapper, instance } => write!(
                f,
                "{{\"points_to\":\"mapper\",\"instance\":{instance},\"mapper\":{mapper}{tpids}}}"
            ),
        }
    }
}

/// The number of the extended VLAN tagging operation configuration data in force, or 0 where none is.
fn instance_of(force: TableInForce) -> u16 {
    match force {
        TableInForce::NoTable => 0,
        TableInForce::OfPort(instance) | TableInForce::OfMapper { instance, .. } => instance,
    }
}

/// The TPIDs of a table, as further members.
#[derive(Clone, Copy)]
struct TpidMembers<'a>(&'a Traced<'a>, u16);

impl fmt::Display for TpidMembers<'_> {
    fn fmt<W: fmt::Write>(&self, f: &mut fmt::Formatter<W>) -> fmt::Result {
        let Some(vlan) = self.0.mib.vlan(self.1) else {
            return Ok(());
        };
        let input = vlan.settings.input_tpid;
        let output = vlan.settings.output_tpid;
        write!(f, ",\"input_tpid\":{input},\"output_tpid\":{output}")
    }
}

/// Writes an entry as an object.
fn write_entry<W: Write>(
    alloc: Global,
    text: &mut JsonText,
    entries: &PortEntries<'_>,
    number: usize,
    place: usize,
    writer: &mut W,
) -> Result<(), TextFault> {
    let mut object = text.object()?;
    put_entry(alloc, &mut object, entries, number, place)?;
    text.write(writer, object)
}

/// Puts the members of an entry.
fn put_entry(
    alloc: Global,
    object: &mut Writer,
    entries: &PortEntries<'_>,
    number: usize,
    place: usize,
) -> Result<(), AllocError> {
    put_number(object, "number", number as u64)?;
    put_table_entry(alloc, object, entries.table, place)?;
    if let Some(line) = entries.line(place) {
        put_number(object, "line", line)?;
    }
    match shadow_number(entries.table, place) {
        Some(other) => put_number(object, "never_used_for", other as u64),
        None => Ok(()),
    }
}
