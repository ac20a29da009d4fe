//! The messages of a trace, carried out one by one for what is found of them.
use crate::bridges::Bridges;
use crate::copies::copies_no_tag;
use crate::set_entries::SetEntries;
use crate::trace::{Head, Missing, TraceFault, TraceFinding};
use crate::why::Why;
use managed_entity::{Class, class_name, entry_at, mask_of, set_values};
use mib_state::Mib;
use omci_msg::{Action, MsgFault, Reply, Request, read};
use script_lines::{Line, MOST_SPELLED, first_line, read_line};
use std::alloc::{AllocError, Global};
use text_messages::action_name;
use vlan_rule::{Entry, Put, TableFault};

/// A class or an action that the model doesn't have: the line of its first message, and how many there are.
#[derive(Clone, Copy)]
struct Absent {
    line: u64,
    missing: Missing,
    messages: u64,
}

/// What is found of the messages of a trace so far, and what they leave.
#[derive(Drop)]
struct Walk {
    mib: Mib,
    /// Whether there was a message.
    has_message: bool,
    found: Vec<TraceFinding>,
    absent: Vec<Absent>,
    entries: SetEntries,
    bridges: Bridges,
}

/// What is found of the messages of a script, as a unit carries them out that begins with no instances: up to a line, from 1, if
/// one is given, and else all. It stands by ascending line. A line that is no message is passed over.
pub fn trace_findings(
    alloc: Global,
    script: &[u8],
    until: Option<u64>,
) -> Result<Vec<TraceFinding>, AllocError> {
    let mut walk = Walk::new(alloc)?;
    let mut buffer = [0; MOST_SPELLED];
    let mut rest = script;
    for number in 1..u64::MAX {
        if rest.is_empty() || number > until.unwrap_or(u64::MAX) {
            break;
        }
        let (line, behind) = first_line(rest);
        if let Some(Line::Message(bytes)) = read_line(line, &mut buffer) {
            walk.take_message(number, bytes)?;
        }
        rest = behind;
    }
    walk.end()
}

/// The entry that a Set puts into a table, if it puts one.
fn put_entry(request: &Request) -> Option<Entry> {
    if request.action != Action::Set || request.class != Class::Vlan.number() {
        return None;
    }
    let at = entry_at(Class::Vlan.layout(), mask_of(&request.contents))?;
    let bytes = set_values(&request.contents).get(at..at.saturating_add(16))?;
    if bytes.len() != 16 {
        return None;
    }
    let mut entry = [0; 16];
    entry.copy_from_slice(bytes);
    Some(Entry(entry))
}

/// What a request says of itself.
fn head_of(request: &Request) -> Head {
    Head {
        action: Some(request.action),
        class: Some(request.class),
        instance: Some(request.instance),
    }
}

/// What the bytes of a message with a fault say of it, as far as there are so many (ITU-T G.988, clause 11.2).
fn head_in(bytes: &[u8]) -> Head {
    Head {
        action: bytes.get(2).and_then(|kind| Action::of(*kind & 31)),
        class: two_at(bytes, 4),
        instance: two_at(bytes, 6),
    }
}

/// The two bytes from a place on, as a number.
fn two_at(bytes: &[u8], place: usize) -> Option<u16> {
    match bytes.get(place..place.saturating_add(2))? {
        [high, low] => Some(u16::from_be_bytes([*high, *low])),
        _ => None,
    }
}

/// The class or the action of a refused request that the model doesn't have.
fn missing_of(request: &Request, code: u8) -> Option<Missing> {
    if code == 4 && class_name(request.class).is_none() {
        return Some(Missing::Class(request.class));
    }
    let is_foreign = matches!(request.action, Action::Other(_));
    if code == 2 && is_foreign && action_name(request.action).is_some() {
        return Some(Missing::Action(request.action));
    }
    None
}

impl Walk {
    /// Before the first message.
    fn new(alloc: Global) -> Result<Self, AllocError> {
        Ok(Walk {
            mib: Mib::new(alloc)?,
            has_message: false,
            found: Vec::new(alloc),
            absent: Vec::new(alloc),
            entries: SetEntries::new(alloc),
            bridges: Bridges::new(alloc),
        })
    }

    /// Puts what is found of the message of a line.
    fn find(&mut self, line: u64, fault: TraceFault) -> Result<(), AllocError> {
        let line = Some(line);
        self.found.push(TraceFinding { line, fault })?;
        Ok(())
    }

    /// Takes the message of a line.
    fn take_message(&mut self, line: u64, bytes: &[u8]) -> Result<(), AllocError> {
        self.has_message = true;
        match read(bytes) {
            Ok(request) => self.take_request(line, &request),
            Err(fault) => self.take_faulty(line, bytes, fault),
        }
    }

    /// Takes a message with a fault.
    fn take_faulty(&mut self, line: u64, bytes: &[u8], fault: MsgFault) -> Result<(), AllocError> {
        let head = head_in(bytes);
        self.find(line, TraceFault::Faulty { head, fault })
    }

    /// What a table says of the entry that a request puts into it.
    fn check_entry(&self, request: &Request, entry: &Entry) -> Option<Result<Put, TableFault>> {
        let vlan = self.mib.vlan(request.instance)?;
        Some(vlan.table.check(entry))
    }

    /// Takes a request: carries it out, and finds what there is. An upload changes nothing, and the MIB doesn't answer it.
    fn take_request(&mut self, line: u64, request: &Request) -> Result<(), AllocError> {
        if matches!(request.action, Action::MibUpload | Action::MibUploadNext) {
            return Ok(());
        }
        let entry = put_entry(request);
        let put = match &entry {
            Some(entry) => self.check_entry(request, entry),
            None => None,
        };
        let fault = match put {
            Some(Err(fault)) => Some(fault),
            _ => None,
        };
        let carried = self.mib.carry_out(request);
        if carried.reply.contents[0] != 0 {
            return self.take_refused(line, request, &carried.reply, fault);
        }
        match (entry, put) {
            (Some(entry), Some(Ok(put))) => self.take_entry(line, request.instance, &entry, put),
            _ => {
                self.entries.follow(request);
                Ok(())
            }
        }
    }

    /// Takes a request that is refused.
    fn take_refused(
        &mut self,
        line: u64,
        request: &Request,
        reply: &Reply,
        table: Option<TableFault>,
    ) -> Result<(), AllocError> {
        let code = reply.contents[0];
        if let Some(missing) = missing_of(request, code) {
            self.bridges.see(line, request)?;
            return self.count_absent(line, missing);
        }
        let head = head_of(request);
        let why = Why::of(&self.mib, request, reply, table);
        self.find(line, TraceFault::Refused { head, code, why })
    }

    /// Counts a message on what the model doesn't have.
    fn count_absent(&mut self, line: u64, missing: Missing) -> Result<(), AllocError> {
        for absent in &mut self.absent {
            if absent.missing == missing {
                absent.messages = absent.messages.saturating_add(1);
                return Ok(());
            }
        }
        let messages = 1;
        self.absent.push(Absent {
            line,
            missing,
            messages,
        })?;
        Ok(())
    }

    /// Puts each class and each action that the model doesn't have.
    fn find_absent(&mut self) -> Result<(), AllocError> {
        for absent in &self.absent {
            let line = Some(absent.line);
            let (missing, messages) = (absent.missing, absent.messages);
            let fault = TraceFault::NotModelled { missing, messages };
            self.found.push(TraceFinding { line, fault })?;
        }
        Ok(())
    }

    /// Takes an entry that a table took, and what the table did with it.
    fn take_entry(
        &mut self,
        line: u64,
        table: u16,
        entry: &Entry,
        put: Put,
    ) -> Result<(), AllocError> {
        let key = entry.key();
        if matches!(put, Put::Added | Put::Replaced) && copies_no_tag(entry) {
            self.find(line, TraceFault::CopyOfNoTag { table, key })?;
        }
        match put {
            Put::Absent => self.find(line, TraceFault::EntryNotHeld { table, key }),
            Put::Deleted => {
                self.entries.remove(table, key);
                Ok(())
            }
            Put::Added => {
                self.entries.put(line, table, key)?;
                Ok(())
            }
            Put::Replaced => match self.entries.put(line, table, key)? {
                Some(set_by) => {
                    self.find(line, TraceFault::EntryOverwritten { table, key, set_by })
                }
                None => Ok(()),
            },
        }
    }

    /// All that is found, by ascending line.
    fn end(mut self) -> Result<Vec<TraceFinding>, AllocError> {
        if !self.has_message {
            let line = None;
            let fault = TraceFault::Empty;
            self.found.push(TraceFinding { line, fault })?;
        }
        self.find_absent()?;
        self.bridges.append_bridged(&self.mib, &mut self.found)?;
        self.found.sort_by_key(|found| found.line.unwrap_or(0))?;
        Ok(self.found)
    }
}
