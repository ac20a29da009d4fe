//! Calls that ask for no memory, behind a set-up that takes all.
use crate::control::{opened, shows};
use crate::counts::{add, book_of, has};
use crate::forwarding::{Became, live_of, what_became};
use crate::memory::Memory;
use crate::requests::requests_until_refusal;
use crate::seen::{REFUSED_AGAIN, Seen, must};
use forward_plan::{Live, Verdict};
use frame_stats::{StatBook, count_of};
use mib_upload::Desk;
use omci_msg::{Action, Request, read};
use plan_publish::{Control, Lane};
use std::sync::Wait;
use test_draws::{PORT_257, UNTAGGED, message, request, set};

/// How many frames are forwarded.
const FRAMES: usize = 1_000;

/// How many entries are set.
const SETS: u32 = 100;

/// The entries, desk and book that are set up, and room for the verdicts on all frames.
#[derive(Drop)]
struct Room {
    desk: Desk,
    live: Live,
    book: StatBook,
    verdicts: Vec<Verdict<'static>>,
}

impl Room {
    fn new(memory: &Memory) -> Result<Room, &'static str> {
        let book = counted_book(memory)?;
        let verdicts = Vec::with_capacity(memory.first(), FRAMES).map_err(|_| REFUSED_AGAIN)?;
        match Desk::new(memory.first()) {
            Ok(desk) => Room::with_desk(memory, desk, book, verdicts),
            Err(_) => Err(REFUSED_AGAIN),
        }
    }

    fn with_desk(
        memory: &Memory,
        desk: Desk,
        book: StatBook,
        verdicts: Vec<Verdict<'static>>,
    ) -> Result<Room, &'static str> {
        match live_of(memory) {
            Ok(live) => Ok(Room {
                desk,
                live,
                book,
                verdicts,
            }),
            Err(wrong) => Err(wrong),
        }
    }
}

/// A book to which the counts of no verdicts were added.
fn counted_book(memory: &Memory) -> Result<StatBook, &'static str> {
    let mut book = book_of(memory)?;
    let counts = count_of(memory.first(), &[]).map_err(|_| REFUSED_AGAIN)?;
    add(memory, &mut book, 0, &counts, [0, 0])?;
    Ok(book)
}

/// A Set of an entry for frames with one tag, of a VLAN.
fn set_of(vlan: u32) -> Request {
    let [k0, k1, k2, k3] = 0x8000_0000u32
        .wrapping_add(vlan.wrapping_mul(0x8000))
        .to_be_bytes();
    let entry = [0xf8, 0, 0, 0, k0, k1, k2, k3, 0, 0x0f, 0, 0, 0, 0x0f, 0, 0];
    set(171, 0x0701, 0x0400, &entry)
}

/// Whether desk and plan carry a request out.
fn is_done(room: &mut Room, asked: &Request) -> bool {
    room.live.apply(asked);
    room.desk.answer(asked).contents[0] == 0
}

/// What makes port 257, and then many entries of its table.
fn provision(room: &mut Room) -> Seen {
    for digits in &PORT_257 {
        if let Ok(asked) = read(&message(digits)) {
            must(is_done(room, &asked), "a message is refused")?;
        }
    }
    for vlan in 1..=SETS {
        must(is_done(room, &set_of(vlan)), "a Set is refused")?;
    }
    let desk = room.desk.mib().sync();
    must(desk == 105 && room.live.mib().sync() == 105, "another sync")
}

/// An upload with all its rows.
fn upload(desk: &mut Desk) -> Seen {
    let [high, low, ..] = desk.answer(&request(Action::MibUpload, 2, 0, &[])).contents;
    let rows = u16::from_be_bytes([high, low]);
    must(rows == 7, "another number of rows")?;
    for row in 0..rows {
        let next = request(Action::MibUploadNext, 2, 0, &row.to_be_bytes());
        must(desk.answer(&next).contents != [0; 32], "an empty row")?;
    }
    Ok(())
}

/// Frames into room that is there, by one look at the port, and frames one by one.
fn forward(live: &Live, verdicts: &mut Vec<Verdict<'static>>) -> Seen {
    let plan = live.port(257);
    for _ in 0..FRAMES {
        if verdicts.len() < verdicts.capacity() {
            plan.push(&UNTAGGED, verdicts);
        }
    }
    must(verdicts.len() == FRAMES, "no room for the verdicts")?;
    for verdict in verdicts.iter() {
        must(what_became(verdict) == Became::Tagged, "another verdict")?;
        let alone = live.forward(257, &UNTAGGED);
        must(what_became(&alone) == Became::Tagged, "another verdict")?;
    }
    Ok(())
}

/// Frames by what a lane holds, which leaves then.
fn forward_by(lane: &mut Lane) -> Seen {
    let Some(held) = lane.enter() else {
        return Err("the lane holds nothing");
    };
    for _ in 0..FRAMES {
        let verdict = held.forward(257, &UNTAGGED);
        must(what_became(&verdict) == Became::Tagged, "another verdict")?;
    }
    held.leave();
    Ok(())
}

/// Publishes what is pending, twice so that both copies absorb it, with a lane that comes and goes between.
fn publish<R: Wait>(rt: &R, control: &mut Control, lane: &mut Lane) -> Seen {
    let all = shows(rt, control, lane, 5, Became::Tagged);
    must(all, "another version")?;
    forward_by(lane)?;
    let again = shows(rt, control, lane, 5, Became::Tagged);
    must(again, "another version")
}

/// Messages that are accepted and not published.
fn send_pending(control: &mut Control) -> Seen {
    for digits in &PORT_257 {
        let answer = control.message(&message(digits));
        must(answer.is_ok(), REFUSED_AGAIN)?;
    }
    Ok(())
}

/// All that needs no memory.
fn go_on<R: Wait>(rt: &R, control: &mut Control, lane: &mut Lane, room: &mut Room) -> Seen {
    provision(room)?;
    upload(&mut room.desk)?;
    forward(&room.live, &mut room.verdicts)?;
    must(has(&room.book, [0, 0]), "other counts")?;
    publish(rt, control, lane)
}

/// All that needs no memory where it is wanted, and then requests until one is refused.
fn count_requests<R: Wait>(
    rt: &R,
    memory: &Memory,
    control: &mut Control,
    lane: &mut Lane,
    room: &mut Room,
    goes_on: bool,
) -> Result<Option<u32>, &'static str> {
    if goes_on {
        go_on(rt, control, lane, room)?;
    }
    Ok(requests_until_refusal(memory.first()))
}

/// The set-up, then all that needs no memory where it is wanted, and then requests until one is refused.
fn set_up<R: Wait>(
    rt: &R,
    memory: &Memory,
    control: &mut Control,
    lane: &mut Lane,
    goes_on: bool,
) -> Result<Option<u32>, &'static str> {
    send_pending(control)?;
    match Room::new(memory) {
        Ok(mut room) => count_requests(rt, memory, control, lane, &mut room, goes_on),
        Err(wrong) => Err(wrong),
    }
}

/// Prints how many requests there were until one was refused, or what was wrong.
pub(crate) fn report<R: Wait + Print>(rt: &R, memory: &Memory, goes_on: bool) {
    let Ok((mut control, mut lanes)) = opened(rt, memory) else {
        let _ = println!(rt; "no control");
        return;
    };
    if let Some(mut lane) = lanes.pop() {
        let _ = match set_up(rt, memory, &mut control, &mut lane, goes_on) {
            Ok(Some(count)) => println!(rt; "requests until one is refused: {count}"),
            Ok(None) => println!(rt; "no request is refused"),
            Err(wrong) => println!(rt; "{wrong}"),
        };
    }
    control.close(rt);
}
