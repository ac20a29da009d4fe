//! A control with its lanes, and the messages that it takes.
use crate::batches;
use crate::forwarding::{Became, what_became};
use crate::memory::Memory;
use crate::seen::{REFUSED_AGAIN, Seen, must, report};
use plan_publish::{Control, ControlFault, Lane, OpenFault, open};
use std::sync::Wait;
use std::thread::Threads;
use test_draws::{PORT_257, UNTAGGED, message};

/// The replies to what makes port 257, by their digits, and what becomes of the untagged frame before each message.
const REPLIES: [(&str, Became); 5] = [
    ("0001240a010c040100", Became::Dropped),
    ("0002240a010a050100", Became::Dropped),
    ("0003240a0082060100", Became::Dropped),
    ("0004240a00ab070100", Became::Whole),
    ("0005280a00ab070100", Became::Whole),
];

/// A message, the digits of its reply, and what becomes of the untagged frame before it.
#[derive(Clone, Copy)]
struct Step {
    message: &'static str,
    reply: &'static str,
    before: Became,
}

/// A control with two lanes, opened again where there was no memory.
pub(crate) fn opened<R: Wait>(rt: &R, memory: &Memory) -> Result<(Control, Vec<Lane>), OpenFault> {
    match open(rt, memory.first(), 2) {
        Err(OpenFault::NoMemory | OpenFault::Refused) => open(rt, memory.again(), 2),
        opened => opened,
    }
}

/// Whether a lane holds a version, after as many accepted messages, and does so with the untagged frame.
fn holds(lane: &mut Lane, version: u8, frame: Became) -> bool {
    match lane.enter() {
        Some(held) => {
            held.version() == u64::from(version)
                && held.live().mib().sync() == version
                && what_became(&held.forward(257, &UNTAGGED)) == frame
        }
        None => false,
    }
}

/// Whether so many messages are accepted, and all of them show once they are published.
pub(crate) fn shows<R: Wait>(
    rt: &R,
    control: &mut Control,
    lane: &mut Lane,
    version: u8,
    frame: Became,
) -> bool {
    let told = control.publish(rt);
    told.version() == u64::from(version)
        && control.accepted() == u64::from(version)
        && holds(lane, version, frame)
}

/// Whether a message has its reply.
fn replies(control: &mut Control, step: &Step) -> bool {
    control.message(&message(step.message)) == Ok(Some(message(step.reply)))
}

/// A message behind so many others. Where there is no memory for it, nothing of it shows, and it is sent again.
fn send<R: Wait>(
    rt: &R,
    memory: &Memory,
    control: &mut Control,
    lane: &mut Lane,
    step: &Step,
    version: u8,
) -> Seen {
    match control.message(&message(step.message)) {
        Ok(Some(reply)) => must(reply == message(step.reply), "another reply"),
        Err(ControlFault::NoMemory) => {
            let same = shows(rt, control, lane, version, step.before);
            must(same, "a refused message shows")?;
            memory.again();
            must(replies(control, step), REFUSED_AGAIN)
        }
        _ => Err("another fault"),
    }
}

/// All messages, one after the other.
fn send_all<R: Wait>(rt: &R, memory: &Memory, control: &mut Control, lane: &mut Lane) -> Seen {
    let mut version = 0;
    for (message, (reply, before)) in PORT_257.iter().zip(&REPLIES) {
        let step = Step {
            message: *message,
            reply: *reply,
            before: *before,
        };
        send(rt, memory, control, lane, &step, version)?;
        version = version.saturating_add(1);
    }
    let all = shows(rt, control, lane, 5, Became::Tagged);
    must(all, "not all messages show")
}

/// What a new control and a lane of it show.
fn is_new<R: Wait>(rt: &R, control: &mut Control, lane: &mut Lane) -> Seen {
    must(
        shows(rt, control, lane, 0, Became::Dropped),
        "a new control shows a message",
    )
}

/// The calls on a control with a lane, and those on what the lane holds.
fn make_calls_with<R: Threads + Wait + Sync + Print>(
    rt: &R,
    memory: &Memory,
    control: &mut Control,
    lane: &mut Lane,
) {
    report(rt, memory, "open", is_new(rt, control, lane));
    report(
        rt,
        memory,
        "Control::message",
        send_all(rt, memory, control, lane),
    );
    match lane.enter() {
        Some(held) => {
            batches::make_calls(rt, memory, &held);
        }
        None => report(rt, memory, "Lane::enter", Err("it holds nothing")),
    }
}

pub(crate) fn make_calls<R: Threads + Wait + Sync + Print>(rt: &R, memory: &Memory) {
    match opened(rt, memory) {
        Ok((mut control, mut lanes)) => {
            match lanes.pop() {
                Some(mut lane) => make_calls_with(rt, memory, &mut control, &mut lane),
                None => report(rt, memory, "open", Err("no lane")),
            }
            control.close(rt);
        }
        Err(_) => report(rt, memory, "open", Err(REFUSED_AGAIN)),
    }
}
