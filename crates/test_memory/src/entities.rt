//! The entities, and the desk that answers messages.
use crate::memory::Memory;
use crate::seen::{REFUSED_AGAIN, Seen, must, report};
use mib_state::Mib;
use mib_upload::{Desk, Shelf};
use omci_msg::{read, write};
use test_draws::message;

/// The classes with instances that messages create.
const CLASSES: [u16; 4] = [130, 171, 266, 268];

/// A Get of the sync, and its answer by a new desk.
const GET_SYNC: (&str, &str) = ("0003490a000200008000", "0003290a0002000000800000");

/// Whether there is nothing but ONU data with sync 0.
fn is_new(mib: &Mib) -> bool {
    for class in CLASSES {
        if mib.next_instance(class, 0).is_some() {
            return false;
        }
    }
    mib.sync() == 0 && mib.next_instance(2, 0) == Some(0)
}

/// Entities, made again where there was no memory.
fn mib_of(memory: &Memory) -> Result<Mib, &'static str> {
    match Mib::new(memory.first()) {
        Ok(mib) => Ok(mib),
        Err(_) => Mib::new(memory.again()).map_err(|_| REFUSED_AGAIN),
    }
}

/// A shelf, made again where there was no memory.
fn shelf_of(memory: &Memory) -> Result<Shelf, &'static str> {
    match Shelf::new(memory.first()) {
        Ok(shelf) => Ok(shelf),
        Err(_) => Shelf::new(memory.again()).map_err(|_| REFUSED_AGAIN),
    }
}

/// A desk, made again where there was no memory.
fn desk_of(memory: &Memory) -> Result<Desk, &'static str> {
    match Desk::new(memory.first()) {
        Ok(desk) => Ok(desk),
        Err(_) => Desk::new(memory.again()).map_err(|_| REFUSED_AGAIN),
    }
}

fn new_mib(memory: &Memory) -> Seen {
    let mib = mib_of(memory)?;
    must(is_new(&mib), "other entities than none")
}

/// What a new shelf does.
fn is_shelf(memory: &Memory, shelf: &mut Shelf) -> Seen {
    must(shelf.row(0).is_none(), "a row on a new shelf")?;
    let mib = mib_of(memory)?;
    must(shelf.fill(&mib) == 1, "other rows than that of ONU data")
}

fn new_shelf(memory: &Memory) -> Seen {
    match shelf_of(memory) {
        Ok(mut shelf) => is_shelf(memory, &mut shelf),
        Err(wrong) => Err(wrong),
    }
}

/// What a new desk does.
fn is_desk(desk: &mut Desk) -> Seen {
    must(is_new(desk.mib()), "other entities than none")?;
    let (asked, reply) = GET_SYNC;
    let Ok(request) = read(&message(asked)) else {
        return Err("the message isn't read");
    };
    let answer = desk.answer(&request);
    must(write(&answer) == message(reply), "another reply")
}

fn new_desk(memory: &Memory) -> Seen {
    match desk_of(memory) {
        Ok(mut desk) => is_desk(&mut desk),
        Err(wrong) => Err(wrong),
    }
}

pub(crate) fn make_calls<R: Print>(rt: &R, memory: &Memory) {
    report(rt, memory, "Mib::new", new_mib(memory));
    report(rt, memory, "Shelf::new", new_shelf(memory));
    report(rt, memory, "Desk::new", new_desk(memory));
}
